// Why bytes are no frame.
use svc_value::ValueReason;

/// The field in which bytes go wrong.
#[derive(Clone, Copy, Debug, PartialEq, Eq)]
pub enum FrameReason {
    /// The bytes end before the frame does.
    Short,
    /// The byte that tells the kind of a frame.
    Kind,
    /// The epoch.
    Epoch,
    /// The number of keys, or of clocks.
    Count,
    /// The number of a service.
    Ids,
    /// The value, in the field that `ValueReason` names.
    Value(ValueReason),
    /// A clock.
    Clocks,
    /// A frame ends before its length does.
    Rest,
    /// The length is above that of the longest frame.
    Length,
    /// A place.
    Places,
}
