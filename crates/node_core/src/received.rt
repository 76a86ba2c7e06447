// What was heard of a sender.
use svc_value::Clock;

// What the bytes of a sender said.
#[derive(Clone, Copy, Debug)]
pub(crate) enum Received {
    // It reads from now on, under this epoch.
    Subscribe(Clock),
    // It no longer reads under this epoch.
    Unsubscribe(Clock),
    // Keys or a value, which stand in its slot now.
    Put,
}
