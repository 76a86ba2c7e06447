// What a document says: its legs.
use svc_graph::Change;
use svc_value::{ListOf, Name, Rank, ServiceId, ValueType};

/// How a document may be written.
#[derive(Clone, Copy, Debug, PartialEq, Eq)]
pub enum Mode {
    /// Without step lines.
    Plain,
    /// With step lines, which say in what order the services work.
    Step,
}

/// What an accepted document says.
#[derive(Debug, Drop)]
pub struct Plan {
    /// Its legs, in order.
    pub legs: PlanLegs,
}

/// What a document says between two settles.
#[derive(Debug, Drop)]
pub struct Leg {
    /// The services that it declares, in order. Their numbers go on from those declared before.
    pub services: ServiceLines,
    /// The births and the other changes, in order.
    pub changes: PlanChanges,
    /// The step lines, in order.
    pub steps: StepLines,
}

/// The declaration of a service.
#[derive(Debug, Drop)]
pub struct ServiceLine {
    /// The name.
    pub name: Name,
    /// 0 for an input, and from 1 to 1000 for a derived service.
    pub rank: Rank,
    /// The type of its values.
    pub ty: ValueType,
}

/// A change of one service.
#[derive(Debug, Drop)]
pub struct PlanChange {
    /// The service.
    pub id: ServiceId,
    /// The change.
    pub change: Change,
}

/// A step line: one event that the document asks for.
#[derive(Debug, Drop)]
pub struct StepLine {
    /// The number of the line, from 1.
    pub line: u32,
    /// The event.
    pub event: StepEvent,
}

/// An event of the network.
#[derive(Clone, Copy, Debug, PartialEq, Eq)]
pub enum StepEvent {
    /// The service does its next change.
    Do(ServiceId),
    /// The first service takes the next frame of the second.
    Take(ServiceId, ServiceId),
    /// The service takes one turn.
    Turn(ServiceId),
}

/// A list of legs.
pub type PlanLegs = ListOf<Leg>;

/// A list of declarations.
pub type ServiceLines = ListOf<ServiceLine>;

/// A list of changes.
pub type PlanChanges = ListOf<PlanChange>;

/// A list of step lines.
pub type StepLines = ListOf<StepLine>;
