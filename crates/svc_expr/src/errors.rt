// Why a text is no expression, and why an expression has no type.
use svc_value::OutOfMemory;

/// Why a text is not read as an expression.
#[derive(Clone, Copy, Debug, PartialEq, Eq)]
pub enum ExprError {
    /// The text is not in the grammar.
    Bad,
    /// The tree has more than 128 nodes or a depth above 32.
    TooLarge,
    /// Out of memory.
    OutOfMemory,
}

/// The place of a node that has no type although each of its operands has one.
#[derive(Clone, Copy, Debug, PartialEq, Eq)]
pub struct TypeErrorAt {
    /// The number of the node in preorder, from 0.
    pub node: u32,
}

impl From<OutOfMemory> for ExprError {
    ghost use Rattle.svc_expr.specs.declared.errors.ExprError.TheVariants.{OutOfMemory};
    ghost use Rattle.std.specs.Prelude.{◌≡◌};

    ghost from_gives = { λ _ e. e ≡ OutOfMemory };

    fn from(_: OutOfMemory) -> Self {
        ExprError::OutOfMemory
    }
}
