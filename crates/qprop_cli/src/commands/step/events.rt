// The step lines of a leg, made as events.
ghost use Rattle.std.specs.Prelude.{◌≡◌, ◌++◌, [], length, OnOk};
ghost use Rattle.settle_core.specs.Events.{AreDeclared, note_of};
ghost use Rattle.settle_core.specs.Legs.{IsNoted};
ghost use Rattle.trace_text.specs.Blocks.{if_wanted};
ghost use Rattle.trace_text.specs.Named.{naming};
ghost use Rattle.trace_text.specs.Notes.{IsNoteOf, note_of as written_note, step_line};
ghost use Rattle.qprop_cli.specs.Inside.StepLines.{ordered, AreNamed, Makes, HasStepped};

use settle_core::{Event, Happened, Network};
use svc_graph::Book;
use svc_plan::{StepEvent, StepLine};
use svc_value::OutOfMemory;
use trace_text::{StepNote, step_text};

// The event that a step line orders.
fn ordered(event: StepEvent) -> Event
    ensures { result ≡ ordered event }
{
    match event {
        StepEvent::Do(id) => Event::Do(id),
        StepEvent::Take(reader, sender) => Event::Take { reader, sender },
        StepEvent::Turn(id) => Event::Turn(id),
    }
}

// The note of what happened.
fn note(happened: Happened) -> StepNote
    ensures { written_note result ≡ note_of happened }
{
    match happened {
        Happened::Did => StepNote::Did,
        Happened::Took => StepNote::Took,
        Happened::Turned(answer) => StepNote::Turned(answer),
        Happened::Idle => StepNote::Idle,
    }
}

// Appends the line of a note, if it is wanted.
fn append_note(
    book: &Book,
    line: u32,
    note: StepNote,
    is_wanted: bool,
    out: &mut Vec<u8>,
) -> Result<(), OutOfMemory>
    requires { IsNoteOf (length book.now) (written_note note) }
    ensures { OnOk result (out.new.items ≡ out.old.items ++ if_wanted is_wanted (step_line (naming book.now) line (written_note note))) }
{
    if is_wanted {
        step_text(book, line, note, out)?;
    }
    Ok(())
}

// Makes the event of a step line, and appends the line of its note, if it is wanted.
fn make_step(
    network: &mut Network,
    step: &StepLine,
    is_wanted: bool,
    out: &mut Vec<u8>,
) -> Result<(), OutOfMemory>
    requires { AreDeclared (length network.old.rows) (ordered step.now.event) }
    ensures rows { network.new.rows ≡ network.old.rows }
    ensures makes { OnOk result (Makes is_wanted step.now network.old network.new out.old.items out.new.items) }
{
    network.kept();
    match network.event(ordered(step.event)) {
        Ok(happened) => append_note(network.book(), step.line, note(happened), is_wanted, out),
        Err(error) => Err(error),
    }
}

/// Makes the events of the step lines, in order, in a leg that begins, and appends the lines of their notes to `out`, if they are
/// wanted. After `OutOfMemory` some of the first events were made.
pub(crate) fn make_steps(
    network: &mut Network,
    steps: &[StepLine],
    is_wanted: bool,
    out: &mut Vec<u8>,
) -> Result<(), OutOfMemory>
    requires named { AreNamed (length network.old.rows) steps.now }
    requires begun { IsNoted network.old [] }
    ensures { OnOk result (HasStepped is_wanted steps.now network.old network.new out.old.items out.new.items) }
{
    for step in steps {
        make_step(network, step, is_wanted, out)?;
    }
    Ok(())
}
