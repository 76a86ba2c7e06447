// What the parts of an expression give while it is evaluated.
use svc_value::{Fault, OutOfMemory, Value, ValueText};

/// The value of a part. A text that stands in the expression or among the given values is lent and not copied.
#[derive(Drop)]
pub(crate) enum Operand<'a> {
    /// A value that was made.
    Made(Value),
    /// A text that stands elsewhere.
    Lent(&'a ValueText),
}

/// A value, lent.
#[derive(Clone, Copy)]
pub(crate) enum View<'a> {
    /// A whole number.
    Int(i64),
    /// The characters of a text.
    Text(&'a str),
    /// A fault.
    Bad(Fault),
}

impl<'a> Operand<'a> {
    ghost use Rattle.std.specs.Prelude.{◌≡◌, IfOk, IsOk};
    ghost use Rattle.svc_expr.specs.Meaning.{IsNoText};
    ghost use Rattle.svc_expr.specs.Operand.{value_of, value_seen};

    /// The value, lent where it is a text.
    pub(crate) fn of(value: &'a Value) -> Operand<'a>
        ensures { value_of result ≡ value.now }
    {
        match value {
            Value::Int(number) => Operand::Made(Value::Int(*number)),
            Value::Words(text) => Operand::Lent(text),
            Value::Bad(fault) => Operand::Made(Value::Bad(*fault)),
        }
    }

    /// The value, to look at.
    pub(crate) fn view(&self) -> View<'_>
        ensures { value_seen result ≡ value_of self.now }
    {
        match self {
            Operand::Made(Value::Int(number)) => View::Int(*number),
            Operand::Made(Value::Words(text)) => View::Text(text.as_str()),
            Operand::Made(Value::Bad(fault)) => View::Bad(*fault),
            Operand::Lent(text) => View::Text(text.as_str()),
        }
    }

    /// The value; a text that was lent is copied.
    pub(crate) fn into_value(self) -> Result<Value, OutOfMemory>
        ensures value { IfOk result (λ value. value ≡ value_of self.entry) }
        ensures no_memory { IsNoText (value_of self.entry) → IsOk result }
    {
        match self {
            Operand::Made(value) => Ok(value),
            Operand::Lent(text) => Ok(Value::Words(text.copy()?)),
        }
    }
}
