// Writing a text.
ghost use Rattle.std.specs.Prelude.{◌≤◌, OnOk, OnErr};
ghost use Rattle.std.specs.Io.KnownBytes.{Appends};
ghost use Rattle.svc_value.specs.Causes.{Rose};
ghost use Rattle.qprop_cli.specs.Streams.{AddsBeginning};

use svc_value::{Failed, OutOfMemory, Sink};

/// Why a text was not made and written.
#[derive(Clone, Copy, Debug, PartialEq, Eq)]
pub(crate) enum WriteError {
    /// The sink failed.
    Fault,
    /// Out of memory.
    OutOfMemory,
}

impl From<OutOfMemory> for WriteError {
    ghost use Rattle.qprop_cli.specs.declared.io.writing.WriteError.TheVariants.{OutOfMemory as NoMemory};
    ghost use Rattle.std.specs.Prelude.{◌≡◌};

    ghost from_gives = { λ _ e. e ≡ NoMemory };

    fn from(_: OutOfMemory) -> Self {
        WriteError::OutOfMemory
    }
}

impl From<Failed> for WriteError {
    ghost use Rattle.qprop_cli.specs.declared.io.writing.WriteError.TheVariants.{Fault};
    ghost use Rattle.std.specs.Prelude.{◌≡◌};

    ghost from_gives = { λ _ e. e ≡ Fault };

    fn from(_: Failed) -> Self {
        WriteError::Fault
    }
}

/// Writes all of `text`, each time offering all that is left of it. `Failed` only where the sink's count of faults rose; then
/// the sink has gained a beginning of the text.
#[tactic(auto, using(crate::proofs::WritingLemmas::appends_next, crate::proofs::WritingLemmas::beginning_stays))]
pub(crate) fn write_all<K: Sink>(sink: &mut K, text: &[u8]) -> Result<(), Failed>
    ensures written { OnOk result (Appends (K.held sink.old) (K.held sink.new) text.now) }
    ensures begun { OnErr result (AddsBeginning (K.held sink.old) (K.held sink.new) text.now) }
    ensures later { K.faults sink.old ≤ K.faults sink.new }
    ensures fault { OnErr result (Rose (K.faults sink.old) (K.faults sink.new)) }
{
    let mut at = 0;
    while at < text.len() {
        at += sink.write(&text[at..])?;
    }
    Ok(())
}
