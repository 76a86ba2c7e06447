// Parting the nodes of a network, each with the ends of its rings.
ghost use Rattle.std.specs.Prelude.{◌≡◌, ◌+◌, ◌<◌, ◌≤◌, ◌++◌, ℕ, List, length, map, slice_index_or, IfOk, OnOk, IsSome, IsTrue, None};
ghost use Rattle.propagation.specs.Lists.{Has};
ghost use Rattle.service_machine.specs.Steps.{targets};
ghost use Rattle.svc_graph.specs.History.{dependencies, history_of};
ghost use Rattle.svc_graph.specs.Lent.{definition_lent};
ghost use Rattle.settle_core.specs.Inside.Parting.{ArePaired, AreRead, AreUnwired, AreWorkers, HasParts, IsServed, IsUnwired, Lays, LaysAll, LaysRing, ReadWithin, MoreRings};
ghost use Rattle.settle_core.specs.Inside.Working.{to_in, wired_nodes};
ghost use Rattle.settle_core.specs.Rings.{ringed};
ghost use Rattle.settle_core.specs.Workers.{nodes_of, AreTied};

use crate::Worker;
use crate::wired::WiredNode;
use link_fifo::{PieceIn, PieceOut, RingLink};
use node_core::Node;
use std::alloc::Global;
use svc_graph::{Book, DefinitionRef, History};
use svc_value::limits::{MAX_CLOCK, MAX_SERVICES};
use svc_value::{Clock, OutOfMemory, ServiceId};

// Nothing, at the place of each service.
fn nothing<T: Drop>(alloc: Global) -> Result<Vec<Option<T>>, OutOfMemory>
    ensures len { IfOk result (λ all. length all.items ≡ MAX_SERVICES) }
    ensures none { IfOk result (λ all. (q : ℕ) → slice_index_or all.items q None ≡ None) }
{
    let mut all = Vec::with_capacity(alloc, MAX_SERVICES)?;
    for _ in 0..MAX_SERVICES {
        all.push(None)?;
    }
    Ok(all)
}

// The node without rings.
fn unwired(alloc: Global, node: Node) -> Result<WiredNode, OutOfMemory>
    ensures { IfOk result (IsUnwired node) }
{
    Ok(WiredNode {
        node,
        to: nothing(alloc)?,
        from: nothing(alloc)?,
        held: nothing(alloc)?,
    })
}

// The nodes without rings.
fn all_unwired(alloc: Global, nodes: Vec<Node>) -> Result<Vec<WiredNode>, OutOfMemory>
    ensures { IfOk result (λ all. AreUnwired nodes.items all.items) }
{
    let mut all = Vec::with_capacity(alloc, nodes.len())?;
    for node in nodes {
        all.push(unwired(alloc, node)?)?;
    }
    Ok(all)
}

// Lays a new ring from `sender` to `reader`.
fn lay_ring(
    alloc: Global,
    all: &mut Vec<WiredNode>,
    sender: ServiceId,
    reader: ServiceId,
) -> Result<(), OutOfMemory>
    requires few { length all.old.items ≤ MAX_SERVICES }
    requires sender { sender < length all.old.items }
    requires reader { reader < length all.old.items }
    ensures { OnOk result (LaysRing sender reader all.old.items all.new.items) }
{
    let (a, b) = (usize::from(sender.0), usize::from(reader.0));
    let (out, into) = RingLink::new(alloc)?.split();
    all[a].to[b] = Some(PieceOut::new(out));
    all[b].from[a] = Some(PieceIn::new(alloc, into));
    Ok(())
}

// Whether there is a ring from `sender` to `reader`.
fn has_ring(all: &[WiredNode], sender: ServiceId, reader: ServiceId) -> bool
    requires few { length all.now ≤ MAX_SERVICES }
    requires sender { sender < length all.now }
    requires reader { reader < length all.now }
    ensures { IsTrue result → IsSome (to_in all.now sender reader) }
{
    all[usize::from(sender.0)].to[usize::from(reader.0)].is_some()
}

// Lays the rings between two services, unless they are there.
fn lay(
    alloc: Global,
    all: &mut Vec<WiredNode>,
    id: ServiceId,
    other: ServiceId,
) -> Result<(), OutOfMemory>
    requires few { length all.old.items ≤ MAX_SERVICES }
    requires id { id < length all.old.items }
    requires other { other < length all.old.items }
    ensures { OnOk result (Lays id other all.old.items all.new.items) }
{
    if has_ring(all.as_slice(), id, other) {
        return Ok(());
    }
    lay_ring(alloc, all, id, other)?;
    lay_ring(alloc, all, other, id)
}

// Lays the rings between a service and each of these, unless they are there.
fn lay_all(
    alloc: Global,
    all: &mut Vec<WiredNode>,
    id: ServiceId,
    others: &[ServiceId],
) -> Result<(), OutOfMemory>
    requires few { length all.old.items ≤ MAX_SERVICES }
    requires id { id < length all.old.items }
    requires others { (q : ℕ) → Has others.now q → q < length all.old.items }
    ensures { OnOk result (LaysAll id others.now all.old.items all.new.items) }
{
    for other in others {
        lay(alloc, all, id, *other)?;
    }
    Ok(())
}

// Appends the services that a definition names.
fn append_named(definition: DefinitionRef<'_>, ids: &mut Vec<ServiceId>) -> Result<(), OutOfMemory>
    ensures { OnOk result (ids.new.items ≡ ids.old.items ++ dependencies (definition_lent definition.entry)) }
{
    match definition {
        DefinitionRef::Input(_) => Ok(()),
        DefinitionRef::Derived(formula) => {
            ids.extend_from_slice(formula.fixed)?;
            ids.extend_from_slice(formula.members)?;
            Ok(())
        }
    }
}

// The services that these edges go to.
fn targets_of(alloc: Global, edges: &[(ServiceId, Clock)]) -> Result<Vec<ServiceId>, OutOfMemory>
    ensures { IfOk result (λ ids. ids.items ≡ targets edges.now) }
{
    let mut ids = Vec::with_capacity(alloc, edges.len())?;
    for edge in edges {
        ids.push(edge.0)?;
    }
    Ok(ids)
}

// The services that a node reads in its leg: by its edges, and by the definitions to come, which stand in the history behind its clock.
fn read_in_leg(alloc: Global, node: &Node, history: &History) -> Result<Vec<ServiceId>, OutOfMemory>
    requires { length history.now ≤ MAX_CLOCK }
    ensures { IfOk result (λ ids. (count : ℕ) → AreRead count (targets node.now.state.edges) node.now.state.own history.now (length history.now + 1) ids.items) }
{
    let mut ids = targets_of(alloc, node.edges())?;
    for clock in node.clock().0 as usize + 1..history.len() + 1 {
        if let Some(definition) = history.at(clock) {
            append_named(definition, &mut ids)?;
        }
    }
    Ok(ids)
}

// Lays all rings of a leg: between each service and those that it reads in it.
fn lay_rings(alloc: Global, book: &Book, all: &mut Vec<WiredNode>) -> Result<(), OutOfMemory>
    requires count { length all.old.items ≡ length book.now }
    requires few { length all.old.items ≤ MAX_SERVICES }
    requires within { ReadWithin book.now (wired_nodes all.old.items) }
    ensures wires { OnOk result (MoreRings all.old.items all.new.items) }
    ensures rings { OnOk result (ArePaired all.old.items → (n : ℕ) → n < length book.now → IsServed n (history_of book.now n) all.new.items) }
{
    for number in 0..all.len() {
        let id = ServiceId(number as u16);
        let ids = read_in_leg(alloc, &all[number].node, book.history(id))?;
        lay_all(alloc, all, id, ids.as_slice())?;
    }
    Ok(())
}

// The numbers of the places that have a ring end.
fn ringed(alloc: Global, ends: &[Option<PieceOut>]) -> Result<Vec<ServiceId>, OutOfMemory>
    requires { length ends.now ≤ MAX_SERVICES }
    ensures { IfOk result (λ peers. peers.items ≡ ringed 0 ends.now) }
{
    let mut peers = Vec::new(alloc);
    for number in 0..ends.len() {
        if ends[number].is_some() {
            peers.push(ServiceId(number as u16))?;
        }
    }
    Ok(peers)
}

// The wired nodes as workers.
fn workers_of(alloc: Global, all: Vec<WiredNode>) -> Result<Vec<Worker>, OutOfMemory>
    requires few { length all.items ≤ MAX_SERVICES }
    requires each { AreWorkers all.items }
    ensures { IfOk result (λ workers. map (λ worker. worker.wired) workers.items ≡ all.items) }
{
    let mut workers = Vec::with_capacity(alloc, all.len())?;
    let mut number = 0u16;
    for wired in all {
        let peers = ringed(alloc, wired.to.as_slice())?;
        workers.push(Worker {
            id: ServiceId(number),
            wired,
            peers,
        })?;
        number += 1;
    }
    Ok(workers)
}

/// The workers of a network of this book and these nodes, whose leg has begun.
pub(crate) fn part(alloc: Global, book: &Book, nodes: Vec<Node>) -> Result<Vec<Worker>, OutOfMemory>
    requires { HasParts book.now nodes.items }
    ensures nodes { IfOk result (λ workers. nodes_of workers.items ≡ nodes.items) }
    ensures tied { IfOk result (λ workers. AreTied workers.items) }
{
    let mut all = all_unwired(alloc, nodes)?;
    lay_rings(alloc, book, &mut all)?;
    workers_of(alloc, all)
}
