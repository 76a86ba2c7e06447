// How a call ends.
ghost use Rattle.std.specs.Prelude.{◌≡◌, None};
ghost use Rattle.qprop_cli.specs.Status.{exit_status};

use document_reading::Refusal;
use settle_core::Network;

/// How a call ended.
#[derive(Clone, Copy, Debug, PartialEq, Eq)]
pub enum Status {
    /// All that the words ask for was done.
    Done,
    /// The words are not accepted, and the usage line was written.
    Usage,
    /// The document, or the stream of frames, is not accepted, and the refusal line was written.
    Refused(Refusal),
    /// The source failed; nothing was written.
    ReadFault,
    /// The sink failed.
    WriteFault,
    /// Out of memory.
    OutOfMemory,
    /// The archive failed.
    KeepFault,
    /// The state that was asked for is not kept.
    NoState,
    /// What is kept is no state.
    BadState,
    /// The text is no legal run.
    Illegal,
}

impl Status {
    /// The exit status of the program: 0 for `Done`, and from 1 to 9 for the others in their order.
    pub fn exit_status(self) -> u8
        ensures { result ≡ exit_status self }
    {
        match self {
            Status::Done => 0,
            Status::Usage => 1,
            Status::Refused(_) => 2,
            Status::ReadFault => 3,
            Status::WriteFault => 4,
            Status::OutOfMemory => 5,
            Status::KeepFault => 6,
            Status::NoState => 7,
            Status::BadState => 8,
            Status::Illegal => 9,
        }
    }
}

/// What a call answers.
#[derive(Drop)]
pub struct Outcome {
    /// How it ended.
    pub status: Status,
    /// The network after the last leg, where it was run to its end.
    pub network: Option<Network>,
}

/// The outcome of a call that ended early.
pub(crate) fn ended(status: Status) -> Outcome
    ensures status { result.status ≡ status }
    ensures network { result.network ≡ None }
{
    Outcome {
        status,
        network: None,
    }
}
