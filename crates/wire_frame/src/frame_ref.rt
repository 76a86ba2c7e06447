// The messages between services, as they stand in their bytes.
use crate::{Cargo, KeysRef, PlacesRef};
use svc_value::{Clock, Value};

/// A frame whose keys and places are lent by the bytes that it was read from. Its cases are those of `Frame`.
#[derive(Drop)]
pub enum FrameRef<'a> {
    /// The sender reads from now on, under this epoch.
    Subscribe(Clock),
    /// The sender no longer reads under this epoch.
    Unsubscribe(Clock),
    /// The keys of the stamps of the values to come.
    Sources(AnnouncedRef<'a>),
    /// A value of version 1.
    Carried(Cargo),
    /// A value of version 2.
    Changed(DeltaRef<'a>),
}

/// The keys of stamps, announced under an epoch, which their bytes lend.
#[derive(Drop)]
pub struct AnnouncedRef<'a> {
    /// The epoch, at least 1.
    pub epoch: Clock,
    /// The keys, strictly rising, from 1 to 64 of them.
    pub keys: KeysRef<'a>,
}

/// A value with the clocks of some of its keys, which its bytes lend.
#[derive(Drop)]
pub struct DeltaRef<'a> {
    /// The epoch, at least 1.
    pub epoch: Clock,
    /// The value.
    pub value: Value,
    /// Places below 64, strictly rising, each with a clock of at least 1.
    pub clocks: PlacesRef<'a>,
}
