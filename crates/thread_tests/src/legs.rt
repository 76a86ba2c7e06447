// Legs of documents: run by workers, and drained.
ghost use Rattle.std.specs.Prelude.{◌≡◌, [], true, OnOk};
ghost use Rattle.settle_core.specs.Quiet.{is_quiet};
ghost use Rattle.svc_plan.specs.Rows.{rows_after, IsLegAfter, AreLegsAfter};

use document_reading::read_document;
use node_threads::{Gate, run_leg};
use settle_core::Network;
use std::alloc::Global;
use std::mem;
use std::test::Fail;
use std::thread::Threads;
use svc_plan::{Leg, Mode};
use svc_value::{OutOfMemory, print_value};

/// Three services, one of which adds the values of the others.
pub(crate) const SUM: &str = "\
input a : int = 3
input b : int = 4
derived total : int rank 1 = a + b
settle
";

// Opens a leg, which workers then run.
fn run<R: Threads + Sync, G: Gate>(
    rt: &R,
    alloc: Global,
    network: &mut Network,
    leg: &Leg,
    gate: &G,
) -> Result<(), OutOfMemory>
    requires quiet { is_quiet network.old ≡ true }
    requires leg { IsLegAfter network.old.rows leg.now }
    ensures rows { OnOk result (network.new.rows ≡ rows_after network.old.rows leg.now) }
    ensures quiet { OnOk result (is_quiet network.new ≡ true) }
{
    network.open_leg(leg)?;
    let opened = mem::replace(network, Network::new(alloc));
    *network = run_leg(rt, alloc, opened, gate)?;
    Ok(())
}

// Opens a leg, and drains the network.
fn drain(network: &mut Network, leg: &Leg) -> Result<(), OutOfMemory>
    requires quiet { is_quiet network.old ≡ true }
    requires leg { IsLegAfter network.old.rows leg.now }
    ensures rows { OnOk result (network.new.rows ≡ rows_after network.old.rows leg.now) }
    ensures quiet { OnOk result (is_quiet network.new ≡ true) }
{
    network.open_leg(leg)?;
    network.drain()
}

// Appends the values of a network, a line for each, and then an empty line.
fn append_values(network: &Network, text: &mut Vec<u8>) -> Result<(), Fail>
    requires { is_quiet network.now ≡ true }
{
    for value in network.values()? {
        print_value(&value, text)?;
        text.push(b'\n')?;
    }
    text.push(b'\n')?;
    Ok(())
}

/// Runs the legs in a network, and answers the values after each.
pub(crate) fn run_legs<R: Threads + Sync, G: Gate>(
    rt: &R,
    alloc: Global,
    network: &mut Network,
    legs: &[Leg],
    gate: &G,
) -> Result<Vec<u8>, Fail>
    requires quiet { is_quiet network.old ≡ true }
    requires legs { AreLegsAfter network.old.rows legs.now }
{
    let mut text = Vec::new(alloc);
    for leg in legs {
        run(rt, alloc, network, leg, gate)?;
        append_values(network, &mut text)?;
    }
    Ok(text)
}

// Drains the legs in a network, and answers the values after each.
fn drain_legs(alloc: Global, network: &mut Network, legs: &[Leg]) -> Result<Vec<u8>, Fail>
    requires quiet { is_quiet network.old ≡ true }
    requires legs { AreLegsAfter network.old.rows legs.now }
{
    let mut text = Vec::new(alloc);
    for leg in legs {
        drain(network, leg)?;
        append_values(network, &mut text)?;
    }
    Ok(text)
}

// Runs the legs in a new network.
fn run_all<R: Threads + Sync, G: Gate>(
    rt: &R,
    alloc: Global,
    legs: &[Leg],
    gate: &G,
) -> Result<Vec<u8>, Fail>
    requires { AreLegsAfter [] legs.now }
{
    let mut network = Network::new(alloc);
    run_legs(rt, alloc, &mut network, legs, gate)
}

// Drains the legs in a new network.
fn drain_all(alloc: Global, legs: &[Leg]) -> Result<Vec<u8>, Fail>
    requires { AreLegsAfter [] legs.now }
{
    let mut network = Network::new(alloc);
    drain_legs(alloc, &mut network, legs)
}

/// The values after each leg of a document that workers run.
pub(crate) fn run_document<R: Threads + Sync, G: Gate>(
    rt: &R,
    alloc: Global,
    document: &str,
    gate: &G,
) -> Result<Vec<u8>, Fail> {
    let plan = read_document(alloc, document.as_bytes(), Mode::Plain)?;
    run_all(rt, alloc, plan.legs.as_slice(), gate)
}

/// The values after each leg of a document that is drained.
pub(crate) fn drain_document(alloc: Global, document: &str) -> Result<Vec<u8>, Fail> {
    let plan = read_document(alloc, document.as_bytes(), Mode::Plain)?;
    drain_all(alloc, plan.legs.as_slice())
}
