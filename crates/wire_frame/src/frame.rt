// The messages between services.
use crate::PlaceClocks;
use svc_value::{Clock, Clocks, Ids, Value};

/// A message from one service to another. Each has the epoch of the edge between them: the clock of the reader at the
/// change that added it.
#[derive(Debug, Drop)]
pub enum Frame {
    /// The sender reads from now on, under this epoch.
    Subscribe(Clock),
    /// The sender no longer reads under this epoch.
    Unsubscribe(Clock),
    /// The keys of the stamps of the values to come.
    Sources(Announced),
    /// A value of version 1, which names the clocks of all keys. It is read and shown, and not sent on links.
    Carried(Cargo),
    /// A value of version 2, which names the clocks of some keys by their places.
    Changed(Delta),
}

/// The keys of stamps, announced under an epoch.
#[derive(Debug, Drop)]
pub struct Announced {
    /// The epoch, at least 1.
    pub epoch: Clock,
    /// The keys, strictly rising, from 1 to 64 of them.
    pub keys: Ids,
}

/// A value with the clocks of all its keys.
#[derive(Debug, Drop)]
pub struct Cargo {
    /// The epoch, at least 1.
    pub epoch: Clock,
    /// The value.
    pub value: Value,
    /// The clocks, each at least 1, from 1 to 64 of them.
    pub clocks: Clocks,
}

/// A value with the clocks of some of its keys, which are named by their places among those last announced.
#[derive(Debug, Drop)]
pub struct Delta {
    /// The epoch, at least 1.
    pub epoch: Clock,
    /// The value.
    pub value: Value,
    /// Places below 64, strictly rising, each with a clock of at least 1.
    pub clocks: PlaceClocks,
}
