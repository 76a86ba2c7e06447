// What a turn did.
use svc_value::ServiceId;

/// What a service did of itself.
#[derive(Clone, Copy, Debug, PartialEq, Eq)]
pub enum Turned {
    /// It computed, and told its readers.
    Computed,
    /// The next value of a dependency became its head.
    Advanced,
    /// Nothing came of this dependency, which is the first such one.
    Empty(ServiceId),
    /// The head of `sender` is the first that lags, and nothing newer came. `key` is the least key on which it lags.
    Lags { sender: ServiceId, key: ServiceId },
    /// There was nothing to do.
    Still,
}
