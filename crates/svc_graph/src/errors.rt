// Why a declaration or a change is refused.
use std::alloc::{AllocError, AllocFailed};
use svc_value::OutOfMemory;

/// Why a service is not declared.
#[derive(Clone, Copy, Debug, PartialEq, Eq)]
pub enum DeclareError {
    /// The name is declared.
    Taken,
    /// 64 services are declared.
    Full,
    /// Out of memory.
    OutOfMemory,
}

/// Why a change is not accepted, in the order of the tests.
#[derive(Clone, Copy, Debug, PartialEq, Eq)]
pub enum ChangeError {
    /// It names a service that is not declared, or a birth names its own service.
    Unknown,
    /// A service that it makes a dependency has no lower rank.
    RankNotLower,
    /// A value, the expression, a part of it or a member has the wrong type.
    WrongType,
    /// It makes more than 16 dependencies.
    TooMany,
    /// It sets the value of a derived service.
    NotInput,
    /// It changes the members or the formula of an input.
    NotDerived,
    /// A member that it brings is a dependency already.
    Already,
    /// It takes out a service that is no member.
    NotMember,
    /// Out of memory.
    OutOfMemory,
}

impl From<OutOfMemory> for DeclareError {
    ghost use Rattle.svc_graph.specs.declared.errors.DeclareError.TheVariants.{OutOfMemory};
    ghost use Rattle.std.specs.Prelude.{◌≡◌};

    ghost from_gives = { λ _ e. e ≡ OutOfMemory };

    fn from(_: OutOfMemory) -> Self {
        DeclareError::OutOfMemory
    }
}

impl From<AllocError> for DeclareError {
    ghost use Rattle.svc_graph.specs.declared.errors.DeclareError.TheVariants.{OutOfMemory};
    ghost use Rattle.std.specs.Prelude.{◌≡◌};

    ghost from_gives = { λ _ e. e ≡ OutOfMemory };

    fn from(_: AllocError) -> Self {
        DeclareError::OutOfMemory
    }
}

impl<T: Drop> From<AllocFailed<T>> for DeclareError {
    ghost use Rattle.svc_graph.specs.declared.errors.DeclareError.TheVariants.{OutOfMemory};
    ghost use Rattle.std.specs.Prelude.{◌≡◌};

    ghost from_gives = { λ _ e. e ≡ OutOfMemory };

    fn from(_: AllocFailed<T>) -> Self {
        DeclareError::OutOfMemory
    }
}

impl From<OutOfMemory> for ChangeError {
    ghost use Rattle.svc_graph.specs.declared.errors.ChangeError.TheVariants.{OutOfMemory};
    ghost use Rattle.std.specs.Prelude.{◌≡◌};

    ghost from_gives = { λ _ e. e ≡ OutOfMemory };

    fn from(_: OutOfMemory) -> Self {
        ChangeError::OutOfMemory
    }
}

impl From<AllocError> for ChangeError {
    ghost use Rattle.svc_graph.specs.declared.errors.ChangeError.TheVariants.{OutOfMemory};
    ghost use Rattle.std.specs.Prelude.{◌≡◌};

    ghost from_gives = { λ _ e. e ≡ OutOfMemory };

    fn from(_: AllocError) -> Self {
        ChangeError::OutOfMemory
    }
}
