// A document drives a network, leg by leg: its step lines are events in their order, and then the network is drained.
ghost use Rattle.std.specs.Prelude.{◌≡◌, ◌<◌, [], length, true, OnOk};
ghost use Rattle.settle_core.specs.Quiet.{is_quiet};
ghost use Rattle.settle_core.specs.Events.{AreDeclared};
ghost use Rattle.svc_plan.specs.Rows.{rows_after, IsLegAfter, AreLegsAfter};

use document_reading::read_document;
use node_core::Turned;
use settle_core::{Event, Happened, Network};
use std::alloc::Global;
use std::test::Fail;
use svc_plan::{Leg, Mode, StepEvent, StepLine};
use svc_value::{OutOfMemory, ServiceId};

/// What the event of a step line turned out to do.
#[derive(Clone, Copy)]
pub(crate) enum Note {
    Did,
    Took,
    Idle,
    Computed,
    Advanced,
    Still,
    Empty(ServiceId),
    Lags(ServiceId, ServiceId),
}

/// A step line, and its note.
#[derive(Clone, Copy)]
pub(crate) struct Step {
    pub(crate) line: u32,
    pub(crate) note: Note,
}

/// Sees a network after each leg.
pub(crate) trait Observer {
    /// A leg is drained; its step lines had these notes.
    fn settled(&mut self, network: &Network, steps: &[Step]) -> Result<(), Fail>;
}

// Whether a service is declared.
fn is_declared(network: &Network, id: ServiceId) -> bool
    ensures { result ≡ true → id < length network.now.rows }
{
    usize::from(id.0) < network.book().len()
}

// Whether the services of an event are.
fn are_declared(network: &Network, event: &Event) -> bool
    ensures { result ≡ true → AreDeclared (length network.now.rows) event.now }
{
    match *event {
        Event::Do(id) | Event::Turn(id) => is_declared(network, id),
        Event::Take { reader, sender } => {
            is_declared(network, reader) && is_declared(network, sender)
        }
    }
}

fn event_of(event: StepEvent) -> Event {
    match event {
        StepEvent::Do(id) => Event::Do(id),
        StepEvent::Take(reader, sender) => Event::Take { reader, sender },
        StepEvent::Turn(id) => Event::Turn(id),
    }
}

fn turn_note(turned: Turned) -> Note {
    match turned {
        Turned::Computed => Note::Computed,
        Turned::Advanced => Note::Advanced,
        Turned::Still => Note::Still,
        Turned::Empty(sender) => Note::Empty(sender),
        Turned::Lags { sender, key } => Note::Lags(sender, key),
    }
}

fn note_of(happened: Happened) -> Note {
    match happened {
        Happened::Did => Note::Did,
        Happened::Took => Note::Took,
        Happened::Idle => Note::Idle,
        Happened::Turned(turned) => turn_note(turned),
    }
}

// Makes an event.
fn make(network: &mut Network, event: Event) -> Result<Note, OutOfMemory>
    requires { AreDeclared (length network.old.rows) event }
    ensures { network.new.rows ≡ network.old.rows }
{
    match network.event(event) {
        Ok(happened) => Ok(note_of(happened)),
        Err(error) => Err(error),
    }
}

// Makes an event. Where it finds no memory, it has not happened, and is made once more.
fn happen(network: &mut Network, event: &Event) -> Result<Note, OutOfMemory>
    requires { AreDeclared (length network.old.rows) event.now }
    ensures { network.new.rows ≡ network.old.rows }
{
    match make(network, *event) {
        Ok(note) => Ok(note),
        Err(OutOfMemory) => make(network, *event),
    }
}

// Makes the event of a step line.
fn take_step(network: &mut Network, event: StepEvent) -> Result<Note, Fail>
    ensures { network.new.rows ≡ network.old.rows }
{
    let event = event_of(event);
    if !are_declared(network, &event) {
        return Err("a service is not declared".into());
    }
    Ok(happen(network, &event)?)
}

fn take_steps(alloc: Global, network: &mut Network, lines: &[StepLine]) -> Result<Vec<Step>, Fail>
    ensures { network.new.rows ≡ network.old.rows }
{
    let mut steps = Vec::with_capacity(alloc, lines.len())?;
    for line in lines {
        let note = take_step(network, line.event)?;
        steps.push(Step {
            line: line.line,
            note,
        })?;
    }
    Ok(steps)
}

// Opens a leg, where it finds no memory once more.
fn open(network: &mut Network, leg: &Leg) -> Result<(), OutOfMemory>
    requires quiet { is_quiet network.old ≡ true }
    requires leg { IsLegAfter network.old.rows leg.now }
    ensures { OnOk result (network.new.rows ≡ rows_after network.old.rows leg.now) }
{
    match network.open_leg(leg) {
        Ok(()) => Ok(()),
        Err(OutOfMemory) => network.open_leg(leg),
    }
}

// Drains, where it finds no memory once more.
fn drain(network: &mut Network) -> Result<(), OutOfMemory>
    ensures rows { network.new.rows ≡ network.old.rows }
    ensures quiet { OnOk result (is_quiet network.new ≡ true) }
{
    match network.drain() {
        Ok(()) => Ok(()),
        Err(OutOfMemory) => network.drain(),
    }
}

fn play_leg<O: Observer>(
    alloc: Global,
    network: &mut Network,
    leg: &Leg,
    observer: &mut O,
) -> Result<(), Fail>
    requires quiet { is_quiet network.old ≡ true }
    requires leg { IsLegAfter network.old.rows leg.now }
    ensures rows { OnOk result (network.new.rows ≡ rows_after network.old.rows leg.now) }
    ensures quiet { OnOk result (is_quiet network.new ≡ true) }
{
    open(network, leg)?;
    let steps = take_steps(alloc, network, leg.steps.as_slice())?;
    drain(network)?;
    observer.settled(network, steps.as_slice())
}

fn play_legs<O: Observer>(
    alloc: Global,
    network: &mut Network,
    legs: &[Leg],
    observer: &mut O,
) -> Result<(), Fail>
    requires quiet { is_quiet network.old ≡ true }
    requires legs { AreLegsAfter network.old.rows legs.now }
{
    for leg in legs {
        play_leg(alloc, network, leg, observer)?;
    }
    Ok(())
}

fn play_all<O: Observer>(alloc: Global, legs: &[Leg], observer: &mut O) -> Result<(), Fail>
    requires { AreLegsAfter [] legs.now }
{
    let mut network = Network::new(alloc);
    play_legs(alloc, &mut network, legs, observer)
}

/// Plays the legs of a document in a new network.
pub(crate) fn play<O: Observer>(
    alloc: Global,
    document: &str,
    observer: &mut O,
) -> Result<(), Fail> {
    let plan = read_document(alloc, document.as_bytes(), Mode::Step)?;
    play_all(alloc, plan.legs.as_slice(), observer)
}
