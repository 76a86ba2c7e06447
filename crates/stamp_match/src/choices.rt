// What a service may do next.
use svc_value::ServiceId;

/// What a service does next, of itself. A slot is named by its place.
#[derive(Clone, Copy, Debug, PartialEq, Eq)]
pub enum Choice {
    /// The next value of this slot becomes its head.
    Advance(usize),
    /// The service is due, and its heads agree: it computes.
    Ready,
    /// This slot is the first without a head, and it has no next value.
    Empty(usize),
    /// The head of this slot is the first that lags, and the slot has no next value. `key` is the least key on which it lags.
    Lags { slot: usize, key: ServiceId },
    /// Nothing is to be done.
    Still,
}
