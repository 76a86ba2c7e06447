// Out of memory while tokens are read.
use crate::ExprError;
use crate::sized_expr::ReadError;
use std::alloc::{AllocError, AllocFailed};
use svc_value::OutOfMemory;

impl From<AllocError> for ReadError {
    ghost use Rattle.svc_expr.specs.declared.sized_expr.ReadError.TheVariants.{Memory};
    ghost use Rattle.std.specs.Prelude.{◌≡◌};

    ghost from_gives = { λ _ e. e ≡ Memory };

    fn from(_: AllocError) -> Self {
        ReadError::Memory
    }
}

impl From<OutOfMemory> for ReadError {
    ghost use Rattle.svc_expr.specs.declared.sized_expr.ReadError.TheVariants.{Memory};
    ghost use Rattle.std.specs.Prelude.{◌≡◌};

    ghost from_gives = { λ _ e. e ≡ Memory };

    fn from(_: OutOfMemory) -> Self {
        ReadError::Memory
    }
}

impl From<ReadError> for ExprError {
    ghost use Rattle.svc_expr.specs.SizedExpr.{error_of};
    ghost use Rattle.std.specs.Prelude.{◌≡◌};

    ghost from_gives = { λ read e. e ≡ error_of read };

    fn from(error: ReadError) -> Self {
        match error {
            ReadError::Memory => ExprError::OutOfMemory,
            ReadError::Bad => ExprError::Bad,
        }
    }
}
