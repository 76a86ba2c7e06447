// What a change makes of the edges and the slots of a service.
ghost use Rattle.std.specs.Prelude.{◌≡◌, ◌≤◌, ◌+◌, ◌++◌, [], ℕ, Some, None, All, unwrap_or, length, vec_len, vec_capacity, IfOk, OnOk};
ghost use Rattle.propagation.specs.Lists.{without, is_among, AreDistinct};
ghost use Rattle.propagation.specs.Logs.{sends};
ghost use Rattle.propagation.specs.Logs.Frame.{Subscribe as TheSubscribe, Unsubscribe as TheUnsubscribe};
ghost use Rattle.service_machine.specs.States.{epoch_in, slot_at, cut, edges_to};
ghost use Rattle.service_machine.specs.Steps.{targets, cut_to, cut_others};
ghost use Rattle.svc_graph.specs.History.{dependencies};
ghost use Rattle.node_core.specs.Coming.{next};
ghost use Rattle.node_core.specs.Outgoing.{Says};
ghost use Rattle.node_core.specs.View.{senders};
ghost use Rattle.node_core.specs.Rewiring.{left_without, cut_rest, rewired_frames};

use crate::definitions::{dependencies_of, has, next_definition};
use crate::outgoing::Outgoing;
use pred_queue::Slot;
use rewire_core::Edges;
use std::alloc::Global;
use svc_graph::{Change, Definition};
use svc_value::{Clock, OutOfMemory, ServiceId};

// Unsubscribe to each dependency that is not among these services.
fn outgoing_leaving(
    alloc: Global,
    edges: &Edges,
    ids: &[ServiceId],
) -> Result<Outgoing, OutOfMemory>
    requires { All (λ edge. 1 ≤ edge.1) edges.now }
    ensures { IfOk result (λ outgoing. Says outgoing (sends (λ p. TheUnsubscribe (unwrap_or (epoch_in edges.now p) 0)) (without (targets edges.now) ids.now))) }
{
    let mut outgoing = Outgoing::new(alloc);
    for edge in edges.as_slice() {
        if has(ids, edge.0) {
            continue;
        }
        let epoch = edges.epoch(edge.0).unwrap_or(Clock(0));
        outgoing.unsubscribe(edge.0, epoch)?;
    }
    Ok(outgoing)
}

// And Subscribe to each of these services that is no dependency yet.
pub(crate) fn outgoing_rewiring(
    alloc: Global,
    edges: &Edges,
    ids: &[ServiceId],
    clock: Clock,
) -> Result<Outgoing, OutOfMemory>
    requires epochs { All (λ edge. 1 ≤ edge.1) edges.now }
    requires clock { 1 ≤ clock }
    ensures { IfOk result (λ outgoing. Says outgoing (rewired_frames edges.now clock ids.now)) }
{
    let mut outgoing = outgoing_leaving(alloc, edges, ids)?;
    for id in ids {
        if edges.epoch(*id).is_some() {
            continue;
        }
        outgoing.subscribe(*id, clock)?;
    }
    Ok(outgoing)
}

// The slots of these dependencies first, in their order, and then the others, all cut at the clock. There is room for them.
pub(crate) fn rewire_slots(
    alloc: Global,
    mut old: Vec<Slot>,
    mut new: Vec<Slot>,
    edges: &Edges,
    clock: Clock,
) -> Vec<Slot>
    requires empty { new.items ≡ [] }
    requires room { length edges.now + length old.items ≤ vec_capacity new }
    requires apart { AreDistinct (senders old.items) }
    requires targets { AreDistinct (targets edges.now) }
    ensures { result.items ≡ cut_to edges.now clock old.items ++ cut_others (targets edges.now) clock old.items }
{
    for i in 0..edges.len() {
        let edge = edges.as_slice()[i];
        let slot = take_slot(alloc, &mut old, edge.0, edge.1, clock);
        new.push_reserved(slot);
    }
    cut_all(&mut new, old, clock);
    new
}

// Puts these slots, cut at the clock without an edge, behind the others, for which there is room.
#[tactic(auto, using(crate::proofs::CutLemmas::rest_snoc))]
fn cut_all(new: &mut Vec<Slot>, old: Vec<Slot>, clock: Clock)
    requires { vec_len new.old + length old.items ≤ vec_capacity new.old }
    ensures { new.new.items ≡ new.old.items ++ cut_rest clock old.items }
{
    for mut slot in old {
        slot.cut(clock, None);
        new.push_reserved(slot);
    }
}

// What a change brings: the definition, the edges, the frames, and room for the slots.
#[derive(Drop)]
pub(crate) struct Rewired {
    pub(crate) definition: Definition,
    pub(crate) edges: Edges,
    pub(crate) outgoing: Outgoing,
    pub(crate) room: Vec<Slot>,
}

// What the change brings at the clock, for a service with this definition, these edges and so many slots.
pub(crate) fn prepare_change(
    alloc: Global,
    current: &Option<Definition>,
    change: &Change,
    edges: &Edges,
    slots: usize,
    clock: Clock,
) -> Result<Rewired, OutOfMemory>
    requires epochs { All (λ edge. 1 ≤ edge.1) edges.now }
    requires clock { 1 ≤ clock }
    ensures definition { IfOk result (λ r. r.definition ≡ next current.now change.now) }
    ensures edges { IfOk result (λ r. r.edges ≡ edges_to edges.now clock (dependencies (next current.now change.now))) }
    ensures outgoing { IfOk result (λ r. Says r.outgoing (rewired_frames edges.now clock (dependencies (next current.now change.now)))) }
    ensures empty { IfOk result (λ r. r.room.items ≡ []) }
    ensures room { IfOk result (λ r. length r.edges + slots ≤ vec_capacity r.room) }
{
    let definition = next_definition(alloc, current, change)?;
    let ids = dependencies_of(alloc, &definition)?;
    let next = edges.rewired(ids.as_slice(), clock)?;
    let outgoing = outgoing_rewiring(alloc, edges, ids.as_slice(), clock)?;
    let count = next.len().checked_add(slots);
    let room = Vec::with_capacity(alloc, count.ok_or(OutOfMemory)?)?;
    Ok(Rewired {
        definition,
        edges: next,
        outgoing,
        room,
    })
}

// Takes out the slot of a sender, or makes one, and cuts it at the clock for the edge under this epoch.
fn take_slot(
    alloc: Global,
    slots: &mut Vec<Slot>,
    id: ServiceId,
    epoch: Clock,
    clock: Clock,
) -> Slot
    ensures slot { result ≡ cut (Some epoch) clock (slot_at slots.old.items id) }
    ensures left { slots.new.items ≡ left_without id slots.old.items }
    ensures len { vec_len slots.new ≤ vec_len slots.old }
{
    for i in 0..slots.len() {
        let slot = &slots[i];
        if slot.sender() == id {
            let mut slot = slots.remove(i);
            slot.cut(clock, Some(epoch));
            return slot;
        }
    }
    Slot::new(alloc, id, Some(epoch))
}
