// Values of services.
ghost use Rattle.std.specs.Prelude.{◌≡◌, IfOk, IsTrue, ◌↔◌};
ghost use Rattle.svc_value.specs.Value.{HasType};

use crate::{OutOfMemory, ValueText};

/// The type of a service: whole numbers or texts.
#[derive(Clone, Copy, Debug, PartialEq, Eq)]
pub enum ValueType {
    /// Whole numbers of 64 bits.
    Int,
    /// Texts of at most 256 bytes.
    Text,
}

/// Why an expression has no proper value. A fault is a value.
#[derive(Clone, Copy, Debug, PartialEq, Eq)]
pub enum Fault {
    /// A whole number outside 64 bits.
    Overflow,
    /// A division by zero.
    Zero,
    /// A text of more than 256 bytes.
    Long,
    /// A text that spells no whole number.
    Number,
    /// The least or greatest of nothing.
    Empty,
}

/// A value of a service.
#[derive(Debug, Drop)]
pub enum Value {
    /// A whole number.
    Int(i64),
    /// A text.
    Words(ValueText),
    /// A fault.
    Bad(Fault),
}

impl Value {
    /// An equal value; `OutOfMemory` where a text finds no memory.
    pub fn copy(&self) -> Result<Value, OutOfMemory>
        ensures { IfOk result (λ value. value ≡ self.now) }
    {
        Ok(match self {
            Value::Int(number) => Value::Int(*number),
            Value::Words(text) => Value::Words(text.copy()?),
            Value::Bad(fault) => Value::Bad(*fault),
        })
    }

    /// Whether this is a fault or a value of the type `ty`.
    pub fn has_type(&self, ty: ValueType) -> bool
        ensures { IsTrue result ↔ HasType self.now ty }
    {
        match self {
            Value::Int(_) => ty == ValueType::Int,
            Value::Words(_) => ty == ValueType::Text,
            Value::Bad(_) => true,
        }
    }
}
