// What one line says.
use svc_expr::Expr;
use svc_token::NameRef;
use svc_value::{ListOf, Names, Value, ValueType};

/// Names, lent from a document.
pub type NameRefs<'a> = ListOf<NameRef<'a>>;

/// An expression with the names that stand in it and those of its members.
#[derive(Debug, Drop)]
pub struct NamedFormula<'a> {
    /// The expression.
    pub expr: Expr,
    /// The distinct names of the expression, in the order of first mention.
    pub names: Names,
    /// The members.
    pub members: NameRefs<'a>,
}

/// What a line gives a derived service to compute by.
#[derive(Debug, Drop)]
pub enum Body<'a> {
    /// A formula.
    Formula(NamedFormula<'a>),
    /// An expression of more than 128 nodes or a depth above 32.
    TooLarge,
}

/// What a line of a document says, by names.
#[derive(Debug, Drop)]
pub enum Statement<'a> {
    /// The line is empty, blank or a comment.
    Silence,
    /// It declares an input of this type, with its first value.
    Input(NameRef<'a>, ValueType, Value),
    /// It declares a derived service of this type and rank, with what it computes by first. A rank above 2^64 - 1 counts as
    /// that number.
    Derived(NameRef<'a>, ValueType, u64, Body<'a>),
    /// It gives an input another value.
    Set(NameRef<'a>, Value),
    /// It gives the first service the second as a member more.
    Add(NameRef<'a>, NameRef<'a>),
    /// It takes from the first service the second as a member.
    Drop(NameRef<'a>, NameRef<'a>),
    /// It gives a derived service something else to compute by.
    Define(NameRef<'a>, Body<'a>),
    /// It ends a leg.
    Settle,
    /// The service is to do its next change.
    Do(NameRef<'a>),
    /// The first service is to take the next frame of the second.
    Take(NameRef<'a>, NameRef<'a>),
    /// The service is to take one turn.
    Turn(NameRef<'a>),
}
