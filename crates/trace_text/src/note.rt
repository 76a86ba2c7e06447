// What a step line did.
use node_core::Turned;

/// What a step line did, for its note.
#[derive(Clone, Copy, Debug, PartialEq, Eq)]
pub enum StepNote {
    /// A change was done.
    Did,
    /// A frame was taken.
    Took,
    /// A turn was taken, and did this.
    Turned(Turned),
    /// No change was left, or no frame was there to take.
    Idle,
}
