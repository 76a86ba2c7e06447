// Levels of precedence, and the forms of one operand and of none.

/// A level of precedence, from the loosest to the tightest.
#[derive(Clone, Copy, Debug, PartialEq, Eq)]
pub(crate) enum Level {
    /// A whole expression: an `if`, or what is tighter.
    Whole,
    /// `or`
    Disjunction,
    /// `and`
    Conjunction,
    /// `not`
    Denial,
    /// One comparison.
    Comparison,
    /// `+`, `-`, `++`
    Sum,
    /// `*`, `/`, `%`
    Product,
    /// The operator `-` before its operand.
    Unary,
    /// A literal, a name, brackets, a call.
    Operand,
}

/// A form of one operand.
#[derive(Clone, Copy, Debug, PartialEq, Eq)]
pub(crate) enum Form {
    /// `-A`
    Neg,
    /// `not A`
    Not,
    /// `len(A)`
    Len,
    /// `number(A)`
    Number,
    /// `text(A)`
    TextOf,
}

/// A form of no operand, over the members.
#[derive(Clone, Copy, Debug, PartialEq, Eq)]
pub(crate) enum Aggregate {
    /// `sum()`
    Sum,
    /// `count()`
    Count,
    /// `min()`
    Min,
    /// `max()`
    Max,
}

impl Level {
    ghost use Rattle.std.specs.Prelude.{◌≡◌};
    ghost use Rattle.svc_expr.specs.Grammar.{tighter};

    /// The next level; the tightest stays.
    pub(crate) fn tighter(self) -> Level
        ensures { result ≡ tighter self }
    {
        match self {
            Level::Whole => Level::Disjunction,
            Level::Disjunction => Level::Conjunction,
            Level::Conjunction => Level::Denial,
            Level::Denial => Level::Comparison,
            Level::Comparison => Level::Sum,
            Level::Sum => Level::Product,
            Level::Product => Level::Unary,
            Level::Unary | Level::Operand => Level::Operand,
        }
    }
}
