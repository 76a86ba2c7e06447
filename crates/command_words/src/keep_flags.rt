// The flags of a run that keeps states or goes on from one.
use crate::Resume;

/// What a run has to do with the archive.
#[derive(Clone, Copy, Debug, PartialEq, Eq)]
pub struct KeepFlags {
    /// Whether the state after each leg is kept.
    pub keep: bool,
    /// The kept state that the run goes on from; `None` where it begins anew.
    pub resume: Option<Resume>,
}
