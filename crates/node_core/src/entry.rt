// What a service did.
use stamp_clock::Stamps;
use svc_value::{Bytes, ListOf, ServiceId, Value};

/// What a computation used of each dependency, in their order: 0 is the value held when the leg began, and from 1 on the
/// number of the value among those taken from that dependency in the leg under the present epoch.
pub type Picks = ListOf<u64>;

/// One computation of a service.
#[derive(Debug, Drop)]
pub struct Computation {
    /// The value.
    pub value: Value,
    /// The clocks that it rests on.
    pub stamps: Stamps,
    /// What was used of each dependency.
    pub picks: Picks,
}

/// One entry of the log of a service.
#[derive(Debug, Drop)]
pub enum Entry {
    /// A change was done, and the own clock is this from then on.
    Did(u32),
    /// A frame was taken: who sent it, and its bytes.
    Took(ServiceId, Bytes),
    /// A value was computed.
    Computed(Computation),
    /// A frame was sent: who is to take it, and its bytes.
    Sent(ServiceId, Bytes),
}
