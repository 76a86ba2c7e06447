// What is answered to words that are not accepted, and to what is refused.
ghost use Rattle.std.specs.Prelude.{◌≡◌, ◌⊎◌, None};
ghost use Rattle.std.specs.Io.KnownBytes.{Appends, Keeps};
ghost use Rattle.svc_value.specs.Causes.{Rose};
ghost use Rattle.qprop_cli.specs.Refusals.{refusal_line};
ghost use Rattle.qprop_cli.specs.Streams.{AddsBeginning};
ghost use Rattle.command_words.specs.Words.{usage_line};

mod refusal_line;

use crate::io::writing::write_all;
use crate::outcome::ended;
use crate::{Outcome, Status, USAGE};
use document_reading::Refusal;
use refusal_line::refusal_text;
use std::alloc::Global;
use svc_value::Sink;

/// Writes the usage line.
pub(crate) fn usage<K: Sink>(sink: &mut K) -> Outcome
    ensures ended { (result.status ≡ Status.Usage) ⊎ (result.status ≡ Status.WriteFault) }
    ensures network { result.network ≡ None }
    ensures written { result.status ≡ Status.Usage → Appends (K.held sink.old) (K.held sink.new) usage_line }
    ensures fault { result.status ≡ Status.WriteFault → Rose (K.faults sink.old) (K.faults sink.new) }
    ensures begun { result.status ≡ Status.WriteFault → AddsBeginning (K.held sink.old) (K.held sink.new) usage_line }
{
    match write_all(sink, USAGE.as_bytes()) {
        Ok(()) => ended(Status::Usage),
        Err(_) => ended(Status::WriteFault),
    }
}

/// Writes the refusal line, in memory of `alloc`.
pub(crate) fn refuse<K: Sink>(alloc: Global, refusal: Refusal, sink: &mut K) -> Outcome
    ensures ended { (result.status ≡ Status.Refused refusal) ⊎ (result.status ≡ Status.WriteFault) ⊎ (result.status ≡ Status.OutOfMemory) }
    ensures refusal { (told : Refusal) → result.status ≡ Status.Refused told → told ≡ refusal }
    ensures network { result.network ≡ None }
    ensures written { result.status ≡ Status.Refused refusal → Appends (K.held sink.old) (K.held sink.new) (refusal_line refusal) }
    ensures fault { result.status ≡ Status.WriteFault → Rose (K.faults sink.old) (K.faults sink.new) }
    ensures begun { result.status ≡ Status.WriteFault → AddsBeginning (K.held sink.old) (K.held sink.new) (refusal_line refusal) }
    ensures nothing { result.status ≡ Status.OutOfMemory → Keeps (K.held sink.old) (K.held sink.new) }
{
    let Ok(text) = refusal_text(alloc, refusal) else {
        return ended(Status::OutOfMemory);
    };
    match write_all(sink, &text) {
        Ok(()) => ended(Status::Refused(refusal)),
        Err(_) => ended(Status::WriteFault),
    }
}
