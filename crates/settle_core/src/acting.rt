// What one node does in a network: it makes room in its links, does an event of its own, and hands over what it sent.
ghost use Rattle.std.specs.Prelude.{◌≡◌, ◌≢◌, ◌↔◌, ◌+◌, ◌<◌, ◌≤◌, ◌==◌, if◌then◌else◌, ℕ, suc, [], ◌∷◌, ◌++◌, length, slice_get, option_map, IfOk, IfErr, OnOk, OnErr, IsTrue, IsFalse, Some};
ghost use Rattle.propagation.specs.Lists.{AreDistinct, Has};
ghost use Rattle.service_machine.specs.States.{services};
ghost use Rattle.service_machine.specs.Steps.{choice_of, after_changing, done_log, targets, after_turning as turned_in, turn_log};
ghost use Rattle.svc_graph.specs.declared.definition.Definition.{Definition as TheDefinition};
ghost use Rattle.svc_graph.specs.History.{at_clock, dependencies, meaning_of};
ghost use Rattle.node_core.specs.Answers.{IsAnswer};
ghost use Rattle.node_core.specs.Outbox.{waiting};
ghost use Rattle.node_core.specs.View.{Grows};
ghost use Rattle.settle_core.specs.Inside.Acting.{NodeActs, CanTurn, CanDo, CanTake, TakesIn};
ghost use Rattle.settle_core.specs.Net.{place_of, waits};
ghost use Rattle.settle_core.specs.Inside.Table.{link_in, waiting_in, SameWaiting};

use crate::links::{Links, pop, push, put_back, reserve};
use crate::room::{reserve_all, reserve_named};
use node_core::{Node, TakeRefusal, Turned};
use std::marker::Brand;
use std::sync::ledger::{Blank, Ledger};
use svc_graph::History;
use svc_value::limits::MAX_SERVICES;
use svc_value::{OutOfMemory, ServiceId, Steps};

// Moves what the node sent into its links, which have room for it.
pub(crate) fn hand_over(node: &mut Node, links: &mut Links, from: ServiceId)
    requires from { from < MAX_SERVICES }
    requires room { (q : ℕ) → length (waiting q node.old.outbox) ≤ (link_in links.old.items q from).spare }
    ensures node { node.new ≡ record node.old { outbox = []; handed = node.old.handed + length node.old.outbox } }
    ensures links { (q p : ℕ) → p < MAX_SERVICES → waits (waiting_in links.new.items) q p ≡ waits (waiting_in links.old.items) q p ++ (if p == from then waiting q node.old.outbox else []) }
    ensures len { length links.new.items ≡ length links.old.items }
{
    while let Some(outgoing_frame) = node.pop_out() {
        let (to, bytes) = outgoing_frame;
        push(links, to, from, bytes);
    }
}

// Takes a turn, and counts its moves and looks in these books.
fn turned_by<M: Ledger, L: Ledger>(
    node: &mut Node,
    moves: Blank,
    looks: Blank,
) -> Result<Turned, OutOfMemory>
    requires moves_name { moves.name ≡ M.name }
    requires moves_parts { moves.parts ≡ M.parts }
    requires moves_some { 0 < moves.parts }
    requires looks_name { looks.name ≡ L.name }
    requires looks_parts { looks.parts ≡ L.parts }
    requires looks_some { 0 < looks.parts }
    ensures state { OnOk result (node.new.state ≡ turned_in meaning_of node.old.state) }
    ensures log { OnOk result (Grows node.old node.new (turn_log meaning_of node.old.state)) }
    ensures answer { IfOk result (IsAnswer (choice_of node.old.state)) }
    ensures err { OnErr result (node.new ≡ node.old) }
{
    let mut moves = Steps::<M>::new(moves);
    let mut looks = Steps::<L>::new(looks);
    node.turn(&mut moves, &mut looks)
}

/// Takes a turn whose moves and looks nobody counts.
pub(crate) fn turned(node: &mut Node) -> Result<Turned, OutOfMemory>
    ensures state { OnOk result (node.new.state ≡ turned_in meaning_of node.old.state) }
    ensures log { OnOk result (Grows node.old node.new (turn_log meaning_of node.old.state)) }
    ensures answer { IfOk result (IsAnswer (choice_of node.old.state)) }
    ensures err { OnErr result (node.new ≡ node.old) }
{
    turned_by::<Brand, Brand>(node, Blank::new(1), Blank::new(1))
}

/// The node takes a turn.
pub(crate) fn turn(node: &mut Node, links: &mut Links, id: ServiceId) -> Result<Turned, OutOfMemory>
    requires { CanTurn id node.old (length links.old.items) }
    ensures acts { OnOk result (NodeActs id (turned_in meaning_of node.old.state) (turn_log meaning_of node.old.state) node.old node.new (waiting_in links.old.items) (waiting_in links.new.items)) }
    ensures answer { IfOk result (IsAnswer (choice_of node.old.state)) }
    ensures err { OnErr result ((node.new ≡ node.old) × (waiting_in links.new.items ≡ waiting_in links.old.items)) }
{
    reserve_all(links, node.readers(), id)?;
    let answer = turned(node)?;
    hand_over(node, links, id);
    Ok(answer)
}

/// The node does its next change, whose definition `history` has; false exactly where none is left.
pub(crate) fn do_next(
    node: &mut Node,
    links: &mut Links,
    id: ServiceId,
    history: &History,
) -> Result<bool, OutOfMemory>
    requires { CanDo id node.old history.now (length links.old.items) }
    ensures acts { OnOk result (NodeActs id (after_changing dependencies node.old.state) (done_log dependencies node.old.state) node.old node.new (waiting_in links.old.items) (waiting_in links.new.items)) }
    ensures answer { IfOk result (λ is_done. IsTrue is_done ↔ (node.old.state.left ≢ [])) }
    ensures idle { IfOk result (λ is_done. IsFalse is_done → (node.new ≡ node.old) × (waiting_in links.new.items ≡ waiting_in links.old.items)) }
    ensures err { OnErr result ((node.new ≡ node.old) × (waiting_in links.new.items ≡ waiting_in links.old.items)) }
{
    if !node.has_change() {
        return Ok(false);
    }
    let clock = node.clock();
    reserve_all(links, node.edges(), id)?;
    reserve_named(links, history.at(clock.0 as usize + 1), id)?;
    let is_done = node.do_next()?;
    hand_over(node, links, id);
    Ok(is_done)
}

// The one refusal of a frame that is accepted: out of memory.
fn of_memory(refusal: TakeRefusal) -> OutOfMemory
    requires { refusal ≡ TakeRefusal.OutOfMemory }
{
    match refusal {
        TakeRefusal::OutOfMemory => OutOfMemory,
        _ => unreachable!(),
    }
}

/// The node takes the first frame in the link from `sender`, which it accepts; false exactly where the link is empty.
pub(crate) fn take(
    node: &mut Node,
    links: &mut Links,
    id: ServiceId,
    sender: ServiceId,
) -> Result<bool, OutOfMemory>
    requires { CanTake id sender node.old (waiting_in links.old.items) }
    ensures takes { IfOk result (TakesIn id sender node.old node.new (waiting_in links.old.items) (waiting_in links.new.items)) }
    ensures idle { IfOk result (λ is_taken. IsFalse is_taken → (node.new ≡ node.old) × (waiting_in links.new.items ≡ waiting_in links.old.items)) }
    ensures err { OnErr result ((node.new ≡ node.old) × (waiting_in links.new.items ≡ waiting_in links.old.items)) }
{
    reserve(links, sender, id)?;
    let Some(bytes) = pop(links, id, sender) else {
        return Ok(false);
    };
    match node.take(sender, bytes) {
        Ok(()) => {
            hand_over(node, links, id);
            Ok(true)
        }
        Err((refusal, bytes)) => {
            put_back(links, id, sender, bytes);
            Err(of_memory(refusal))
        }
    }
}
