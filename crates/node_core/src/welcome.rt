// What a new reader is told.
ghost use Rattle.std.specs.Prelude.{◌≡◌, ◌≤◌, ◌<◌, ◌∷◌, [], length, IfOk, Some};
ghost use Rattle.propagation.specs.Logs.{Emission as TheEmission, welcome as welcome_to};
ghost use Rattle.service_machine.specs.Steps.{sends_to};
ghost use Rattle.svc_value.specs.declared.value.Value.{Value};
ghost use Rattle.node_core.specs.Outgoing.{Says};
ghost use Rattle.node_core.specs.View.{SameKept};

use crate::journal::Journal;
use crate::outgoing::Outgoing;
use crate::scratch::Scratch;
use crate::telling::tell_in_full;
use pred_queue::Emission;
use std::alloc::Global;
use svc_value::{Clock, OutOfMemory, ServiceId};

// The last emission in full, if there is one.
fn welcome(
    alloc: Global,
    reader: ServiceId,
    epoch: Clock,
    last: &Option<Emission>,
    scratch: &mut Scratch,
) -> Result<Outgoing, OutOfMemory>
    requires epoch { 1 ≤ epoch }
    requires some { (m : TheEmission Value) → last.now ≡ Some m → 0 < length m.stamps }
    ensures { IfOk result (λ outgoing. Says outgoing (sends_to reader (welcome_to epoch last.now))) }
{
    match last {
        None => Ok(Outgoing::new(alloc)),
        Some(emission) => tell_in_full(alloc, &[(reader, epoch)], emission, scratch),
    }
}

// The same, with room for it and for an entry before it.
pub(crate) fn staged_welcome(
    alloc: Global,
    journal: &mut Journal,
    reader: ServiceId,
    epoch: Clock,
    last: &Option<Emission>,
    scratch: &mut Scratch,
) -> Result<Outgoing, OutOfMemory>
    requires epoch { 1 ≤ epoch }
    requires some { (m : TheEmission Value) → last.now ≡ Some m → 0 < length m.stamps }
    ensures says { IfOk result (λ outgoing. Says outgoing (sends_to reader (welcome_to epoch last.now))) }
    ensures same { SameKept journal.old journal.new }
    ensures entries { IfOk result (λ outgoing. length outgoing < journal.new.entry_room) }
    ensures outgoing_frames { IfOk result (λ outgoing. length outgoing ≤ journal.new.outgoing_frame_room) }
{
    let outgoing = welcome(alloc, reader, epoch, last, scratch)?;
    journal.reserve(outgoing.len())?;
    Ok(outgoing)
}
