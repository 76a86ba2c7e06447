// Frames longer than a piece, and a ring that is full for long, since its reader is held: nothing is lost.
ghost use Rattle.std.specs.Prelude.{◌≡◌, [], true};
ghost use Rattle.settle_core.specs.Quiet.{is_quiet};
ghost use Rattle.svc_plan.specs.Rows.{AreLegsAfter};

use crate::legs::run_legs;
use crate::logs::all_taken;
use document_reading::read_document;
use node_core::Node;
use node_threads::Gate;
use settle_core::Network;
use std::alloc::Global;
use std::sync::atomic::{AtomicBool, AtomicU32, Ordering};
use std::test::Fail;
use std::thread;
use std::thread::Threads;
use svc_plan::{Leg, Mode};

// So many changes the writer makes, each with a text of so many characters; until so many turns of it the reader is held.
const CHANGES: u32 = 300;

const CHARACTERS: usize = 250;

const TURNS: u32 = 250;

const LOOKS: u32 = 100_000_000;

const WRITER: u16 = 0;

const READER: u16 = 1;

// Holds the writer at its second turn until the reader has subscribed, and the reader at its third until the writer has taken many.
#[derive(Drop)]
struct Damming {
    writer: AtomicU32,
    reader: AtomicU32,
    is_late: AtomicBool,
}

impl Damming {
    fn new() -> Damming {
        Damming {
            writer: AtomicU32::new(0),
            reader: AtomicU32::new(0),
            is_late: AtomicBool::new(false),
        }
    }

    // Waits until this turn of the other has come.
    fn hold(&self, other: &AtomicU32, number: u32) {
        for _ in 0..LOOKS {
            if other.load(Ordering::SeqCst) >= number {
                return;
            }
            thread::yield_now();
        }
        self.is_late.store(true, Ordering::SeqCst);
    }
}

impl Gate for Damming {
    fn at_turn(&self, service: u16, number: u32, _node: &Node) {
        if service == WRITER {
            self.writer.store(number, Ordering::SeqCst);
            if number == 2 {
                self.hold(&self.reader, 2);
            }
        }
        if service == READER {
            self.reader.store(number, Ordering::SeqCst);
            if number == 3 {
                self.hold(&self.writer, TURNS);
            }
        }
    }
}

// A text of this number, as a literal.
fn push_text(text: &mut String, number: u32) -> Result<(), Fail> {
    text.push_str("\"")?;
    let letter = (b'a' + (number % 26) as u8) as char;
    for _ in 0..CHARACTERS {
        text.push(letter)?;
    }
    text.push_str("\"\n")?;
    Ok(())
}

fn document(alloc: Global) -> Result<String, Fail> {
    let mut text = String::from_str(alloc, "input t : text = ")?;
    push_text(&mut text, 0)?;
    text.push_str("derived u : text rank 1 = t ++ \"!\"\n")?;
    for number in 1..CHANGES {
        text.push_str("set t = ")?;
        push_text(&mut text, number)?;
    }
    text.push_str("settle\n")?;
    Ok(text)
}

// Runs the legs, and tells how long the text of their values is, whether the reader took all that the writer sent to it, and how many
// frames it took.
fn run_and_tell<R: Threads + Sync>(
    rt: &R,
    alloc: Global,
    network: &mut Network,
    legs: &[Leg],
    gate: &Damming,
) -> Result<(usize, bool, u32), Fail>
    requires quiet { is_quiet network.old ≡ true }
    requires legs { AreLegsAfter network.old.rows legs.now }
{
    let values = run_legs(rt, alloc, network, legs, gate)?;
    let (is_all, taken) = all_taken(alloc, network, WRITER, READER)?;
    Ok((values.len(), is_all, taken))
}

// So for legs in a new network.
fn told_of_legs<R: Threads + Sync>(
    rt: &R,
    alloc: Global,
    legs: &[Leg],
    gate: &Damming,
) -> Result<(usize, bool, u32), Fail>
    requires { AreLegsAfter [] legs.now }
{
    let mut network = Network::new(alloc);
    run_and_tell(rt, alloc, &mut network, legs, gate)
}

// And for a document.
fn told<R: Threads + Sync>(
    rt: &R,
    alloc: Global,
    document: &str,
    gate: &Damming,
) -> Result<(usize, bool, u32), Fail> {
    let plan = read_document(alloc, document.as_bytes(), Mode::Plain)?;
    told_of_legs(rt, alloc, plan.legs.as_slice(), gate)
}

#[test]
fn a_full_ring_loses_nothing(rt: HostRuntime) -> Result<(), Fail> {
    let gate = Damming::new();
    let document = document(rt.alloc())?;
    let (len, is_all, taken) = told(&rt, rt.alloc(), document.as_str(), &gate)?;
    assert_eq!(rt; len, 2 * (CHARACTERS + 3) + 2);
    assert!(rt; !gate.is_late.load(Ordering::SeqCst));
    assert!(rt; is_all);
    assert!(rt; taken > 100);
    Ok(())
}
