// The command `make`.
ghost use Rattle.std.specs.Prelude.{ℕ, List, Option};
ghost use Rattle.command_words.specs.Words.{IsSize};
ghost use Rattle.qprop_cli.specs.Ending.{Ends};

use crate::command_error::CommandError;
use crate::io::writing::write_all;
use crate::{Command, Size};
use document_generator::make_document;
use settle_core::Network;
use std::alloc::Global;
use svc_value::Sink;

/// Makes a document of this size and writes it. It reads nothing, so its end is told beside any source.
#[tactic(auto, using(crate::proofs::DueLemmas::made_due))]
pub(crate) fn make<K: Sink>(
    alloc: Global,
    size: Size,
    sink: &mut K,
) -> Result<Option<Network>, CommandError>
    requires { IsSize size }
    ensures ends { (left : Option (List ℕ)) (faults : ℕ) →
        Ends (Command.Make size) left left faults faults (K.held sink.old) (K.held sink.new)
        (K.faults sink.old) (K.faults sink.new) result }
{
    let text = make_document(alloc, size.services, size.changes, size.start)?;
    write_all(sink, &text)?;
    Ok(None)
}
