// The command `frames`.
ghost use Rattle.qprop_cli.specs.Ending.{Ends};

mod laws;
mod line;
mod stream;

use crate::Command;
use crate::command_error::CommandError;
use crate::io::reading::{ReadError, read_all};
use crate::io::writing::write_all;
pub use laws::streams_are_told;
use settle_core::Network;
use std::alloc::Global;
use stream::{StreamError, frames_text};
use svc_value::limits::MAX_DOCUMENT_LEN;
use svc_value::{Sink, Source};

/// Reads a stream of frames and writes their lines. Nothing is written before the whole stream is read.
#[tactic(auto, using(crate::proofs::InputLemmas::stream_refused, crate::proofs::DueLemmas::lines_due, crate::proofs::DueLemmas::frames_output))]
pub(crate) fn frames<S: Source, K: Sink>(
    alloc: Global,
    source: &mut S,
    sink: &mut K,
) -> Result<Option<Network>, CommandError>
    ensures ends { Ends Command.Frames (S.left source.old) (S.left source.new)
        (S.faults source.old) (S.faults source.new) (K.held sink.old) (K.held sink.new)
        (K.faults sink.old) (K.faults sink.new) result }
{
    let bytes = match read_all(alloc, MAX_DOCUMENT_LEN, source) {
        Ok(bytes) => bytes,
        Err(ReadError::Fault) => return Err(CommandError::ReadFault),
        Err(ReadError::OutOfMemory) => return Err(CommandError::OutOfMemory),
    };
    let text = match frames_text(alloc, &bytes) {
        Ok(text) => text,
        Err(StreamError::Refused(refusal)) => return Err(CommandError::Refused(refusal)),
        Err(StreamError::OutOfMemory) => return Err(CommandError::OutOfMemory),
    };
    write_all(sink, &text)?;
    Ok(None)
}
