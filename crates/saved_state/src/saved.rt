// Saved states as values.
use svc_graph::Definition;
use svc_value::{ListOf, Name, Rank, ValueType};

/// A saved state: what a network has to go on from after a leg.
#[derive(Debug, Drop)]
pub struct Saved {
    /// The number of the leg that ended, from 1 to 1000.
    pub leg: u32,
    /// The services, in the order of declaration: at most 64.
    pub services: ServiceRows,
}

/// A service of a saved state.
#[derive(Debug, Drop)]
pub struct ServiceRow {
    /// Its name.
    pub name: Name,
    /// Its rank: 0 for an input, and from 1 to 1000 for a derived service.
    pub rank: Rank,
    /// The type of its values.
    pub ty: ValueType,
    /// What it is defined by.
    pub definition: Definition,
}

/// A list of services.
pub type ServiceRows = ListOf<ServiceRow>;
