// The trees of expressions.
use crate::Boxed;
use svc_value::{Names, ValueText};

/// An expression: a tree of at most 128 nodes and a depth of at most 32 where a call takes it.
#[derive(Debug, Drop)]
#[cycle(tree)]
pub struct Expr {
    /// What stands at the root, with its operands.
    pub kind: Boxed<ExprKind>,
}

/// The form of an expression, with its operands from left to right.
#[derive(Debug, Drop)]
#[cycle(tree)]
pub enum ExprKind {
    /// A whole number.
    Int(i64),
    /// A text.
    Words(ValueText),
    /// The k-th distinct name, from 0, in the order of first mention.
    Given(u8),
    /// `-A`
    Neg(Expr),
    /// `not A`
    Not(Expr),
    /// `A op B`
    Pair(Op, Expr, Expr),
    /// `if C then A else B`
    If(Expr, Expr, Expr),
    /// `len(A)`, the number of characters of a text
    Len(Expr),
    /// `number(A)`, the whole number that a text spells
    Number(Expr),
    /// `text(A)`, the decimal text of a whole number
    TextOf(Expr),
    /// `sum()` of the members
    Sum,
    /// `count()` of the members
    Count,
    /// `min()` of the members
    Min,
    /// `max()` of the members
    Max,
}

/// An operator between two operands.
#[derive(Clone, Copy, Debug, PartialEq, Eq)]
pub enum Op {
    /// `+`
    Add,
    /// `-`
    Sub,
    /// `*`
    Mul,
    /// `/`
    Div,
    /// `%`
    Rem,
    /// `++`
    Join,
    /// `=`
    Eq,
    /// `<>`
    Ne,
    /// `<`
    Lt,
    /// `<=`
    Le,
    /// `>`
    Gt,
    /// `>=`
    Ge,
    /// `and`
    And,
    /// `or`
    Or,
}

/// An expression that was read, with its names in the order of first mention.
#[derive(Debug, Drop)]
pub struct Reading {
    /// The tree.
    pub expr: Expr,
    /// The distinct names: the k-th is that of `Given(k)`.
    pub names: Names,
}
