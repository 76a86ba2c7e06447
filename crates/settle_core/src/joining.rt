// Joining workers: what is in flight in their rings goes into the links of a network, and then what they have not handed over.
ghost use Rattle.std.specs.Prelude.{◌≡◌, ◌≢◌, ◌*◌, ◌<◌, ◌≤◌, ◌++◌, ℕ, [], ◌∷◌, length, map, option_to_list, IfOk, OnOk};
ghost use Rattle.node_core.specs.Outbox.{waiting};
ghost use Rattle.settle_core.specs.Inside.Joining.{AddsFrames, AllKept, AreGathered, EachLinked, HandedBelow, HandsRest, Joins, Rejoins, TakesEnds};
ghost use Rattle.settle_core.specs.Inside.Working.{from_in, to_in, wired_nodes};
ghost use Rattle.settle_core.specs.Net.{place_of};
ghost use Rattle.settle_core.specs.Rings.{handed_to, received_from, IsTied};
ghost use Rattle.settle_core.specs.Workers.{AreTied};

use crate::Worker;
use crate::links::{Links, push, reserve};
use crate::wired::WiredNode;
use link_fifo::{PieceIn, PieceOut, rejoin_pieces};
use node_core::Node;
use std::alloc::Global;
use svc_value::limits::MAX_SERVICES;
use svc_value::{Bytes, OutOfMemory, ServiceId};

// Puts a frame behind those in its link.
fn append(
    links: &mut Links,
    reader: ServiceId,
    sender: ServiceId,
    bytes: Bytes,
) -> Result<(), OutOfMemory>
    requires sender { sender < MAX_SERVICES }
    requires there { place_of reader sender < length links.old.items }
    ensures { OnOk result (AddsFrames reader sender (bytes ∷ []) links.old.items links.new.items) }
{
    reserve(links, reader, sender)?;
    push(links, reader, sender, bytes);
    Ok(())
}

// Does so with each of these.
fn append_all(
    links: &mut Links,
    reader: ServiceId,
    sender: ServiceId,
    frames: Vec<Bytes>,
) -> Result<(), OutOfMemory>
    requires sender { sender < MAX_SERVICES }
    requires there { place_of reader sender < length links.old.items }
    ensures { OnOk result (AddsFrames reader sender frames.items links.old.items links.new.items) }
{
    for bytes in frames {
        append(links, reader, sender, bytes)?;
    }
    Ok(())
}

// What is in flight between two ring ends; nothing where there are none.
fn in_flight(
    alloc: Global,
    out: Option<PieceOut>,
    into: Option<PieceIn>,
) -> Result<Vec<Bytes>, OutOfMemory>
    requires { IsTied out into }
    ensures { IfOk result (λ rest. received_from into ++ rest.items ≡ handed_to out) }
{
    match (out, into) {
        (Some(out), Some(into)) => Ok(rejoin_pieces(alloc, out, into)?.into_vec()),
        _ => Ok(Vec::new(alloc)),
    }
}

// Takes out the ends of the ring to a reader from a sender, and the frame that the reader holds.
fn take_ends(
    all: &mut Vec<WiredNode>,
    reader: ServiceId,
    sender: ServiceId,
) -> (Option<PieceOut>, Option<PieceIn>, Option<Bytes>)
    requires few { length all.old.items ≤ MAX_SERVICES }
    requires reader { reader < length all.old.items }
    requires sender { sender < length all.old.items }
    ensures { TakesEnds reader sender all.old.items all.new.items result.0 result.1 result.2 }
{
    let (n, p) = (usize::from(reader.0), usize::from(sender.0));
    let out = all[p].to[n].take();
    let into = all[n].from[p].take();
    let held = all[n].held[p].take();
    (out, into, held)
}

// Puts the frame that a reader held, if it held one, and then these behind those in the link.
fn append_behind(
    links: &mut Links,
    reader: ServiceId,
    sender: ServiceId,
    held: Option<Bytes>,
    frames: Vec<Bytes>,
) -> Result<(), OutOfMemory>
    requires sender { sender < MAX_SERVICES }
    requires there { place_of reader sender < length links.old.items }
    ensures { OnOk result (AddsFrames reader sender (option_to_list held ++ frames.items) links.old.items links.new.items) }
{
    if let Some(bytes) = held {
        append(links, reader, sender, bytes)?;
    }
    append_all(links, reader, sender, frames)
}

// What is in flight in the ring to a reader from a sender goes into its link, behind the frame that the reader holds.
fn rejoin(
    alloc: Global,
    all: &mut Vec<WiredNode>,
    links: &mut Links,
    reader: ServiceId,
    sender: ServiceId,
) -> Result<(), OutOfMemory>
    requires few { length all.old.items ≤ MAX_SERVICES }
    requires reader { reader < length all.old.items }
    requires sender { sender < length all.old.items }
    requires there { place_of reader sender < length links.old.items }
    requires tied { IsTied (to_in all.old.items sender reader) (from_in all.old.items reader sender) }
    ensures { OnOk result (Rejoins reader sender all.old.items all.new.items links.old.items links.new.items) }
{
    let (out, into, held) = take_ends(all, reader, sender);
    let rest = in_flight(alloc, out, into)?;
    append_behind(links, reader, sender, held, rest)
}

// Does so with each pair of services.
fn rejoin_all(alloc: Global, all: &mut Vec<WiredNode>, links: &mut Links) -> Result<(), OutOfMemory>
    requires few { length all.old.items ≤ MAX_SERVICES }
    requires table { length links.old.items ≡ length all.old.items * MAX_SERVICES }
    requires tied { (a b : ℕ) → IsTied (to_in all.old.items a b) (from_in all.old.items b a) }
    ensures { OnOk result (AreGathered all.old.items all.new.items links.old.items links.new.items) }
{
    for place in 0..all.len() * MAX_SERVICES {
        let (n, p) = (place / MAX_SERVICES, place % MAX_SERVICES);
        if p < all.len() {
            rejoin(alloc, all, links, ServiceId(n as u16), ServiceId(p as u16))?;
        }
    }
    Ok(())
}

// Moves what the node has not handed over into its links.
fn hand_rest(node: &mut Node, links: &mut Links, from: ServiceId) -> Result<(), OutOfMemory>
    requires from { from < MAX_SERVICES }
    requires there { (q : ℕ) → waiting q node.old.outbox ≢ [] → place_of q from < length links.old.items }
    ensures { OnOk result (HandsRest from node.old node.new links.old.items links.new.items) }
{
    while let Some(outgoing_frame) = node.pop_out() {
        let (to, bytes) = outgoing_frame;
        append(links, to, from, bytes)?;
    }
    Ok(())
}

// The nodes, of which each has handed over the rest.
fn handed_nodes(
    alloc: Global,
    all: Vec<WiredNode>,
    links: &mut Links,
) -> Result<Vec<Node>, OutOfMemory>
    requires few { length all.items ≤ MAX_SERVICES }
    requires there { EachLinked (wired_nodes all.items) (length links.old.items) }
    ensures { IfOk result (λ nodes. HandedBelow (length all.items) (wired_nodes all.items) nodes.items links.old.items links.new.items) }
{
    let mut nodes = Vec::with_capacity(alloc, all.len())?;
    let mut number = 0u16;
    for wired in all {
        let mut node = wired.node;
        hand_rest(&mut node, links, ServiceId(number))?;
        nodes.push(node)?;
        number += 1;
    }
    Ok(nodes)
}

// The workers as wired nodes.
fn wired_of(alloc: Global, workers: Vec<Worker>) -> Result<Vec<WiredNode>, OutOfMemory>
    ensures same { IfOk result (λ all. map (λ worker. worker.wired) workers.items ≡ all.items) }
    ensures kept { IfOk result (λ all. AllKept all.items) }
{
    let mut all = Vec::with_capacity(alloc, workers.len())?;
    for worker in workers {
        all.push(worker.wired)?;
    }
    Ok(all)
}

/// The nodes of workers whose rings are tied, and the links of a network: what each service sent to each other, and the other did not take,
/// stands in their link.
pub(crate) fn join(alloc: Global, workers: Vec<Worker>) -> Result<(Vec<Node>, Links), OutOfMemory>
    requires few { length workers.items ≤ MAX_SERVICES }
    requires tied { AreTied workers.items }
    ensures { IfOk result (λ joined. Joins workers.items joined.0.items joined.1.items) }
{
    let count = workers.len();
    let mut links = Links::new(alloc);
    links.make_room(count)?;
    links.add(alloc, count);
    let mut all = wired_of(alloc, workers)?;
    rejoin_all(alloc, &mut all, &mut links)?;
    let nodes = handed_nodes(alloc, all, &mut links)?;
    Ok((nodes, links))
}
