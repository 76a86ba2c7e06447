// What of a service never changes.
use svc_value::{ListOf, Rank, ValueType};

/// The rank and the type of a service.
#[derive(Clone, Copy, Debug, PartialEq, Eq)]
pub struct Kind {
    /// 0 for an input, and from 1 to 1000 for a derived service.
    pub rank: Rank,
    /// The type of its values.
    pub ty: ValueType,
}

/// The ranks and the types of all services, in the order of declaration.
pub type Roster = ListOf<Kind>;
