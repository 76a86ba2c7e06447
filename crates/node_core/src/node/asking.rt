// What a network asks of a node, and hands to it.
ghost use Rattle.std.specs.Prelude.{◌≡◌, ◌+◌, ◌<◌, ◌≤◌, ◌↔◌, ◌≢◌, [], ◌∷◌, length, option_to_list, IfSome, IsNone, IsTrue};
ghost use Rattle.propagation.specs.Logs.{stamps_of};
ghost use Rattle.propagation.specs.Lists.{Has};
ghost use Rattle.service_machine.specs.Draining.{is_work};
ghost use Rattle.service_machine.specs.Openings.{opened_with};
ghost use Rattle.service_machine.specs.Steps.{choice_of};
ghost use Rattle.svc_graph.specs.Book.{IsDefinitionOf};
ghost use Rattle.svc_graph.specs.declared.definition.Definition.{Definition as TheDefinition};
ghost use Rattle.node_core.specs.Coming.{coming};

use super::Node;
use crate::slots::{begin_all, inputs_of};
use stamp_match::Choice;
use std::sync::ledger::Ledger;
use svc_graph::{Change, Roster};
use svc_value::limits::{MAX_CLOCK, MAX_FRAME_LEN, MAX_SERVICES};
use svc_value::{Bytes, Clock, ServiceId, Steps};

impl Node {
    ghost use Rattle.node_core.specs.View.{IsLastOut, told_all};

    /// The own clock: how many changes were done.
    pub fn clock(&self) -> Clock
        ensures { result ≡ self.now.state.own }
    {
        self.own
    }

    /// The dependencies in order, each with the epoch of its edge, lent.
    pub fn edges(&self) -> &[(ServiceId, Clock)]
        ensures { result.now ≡ self.now.state.edges }
    {
        self.edges.as_slice()
    }

    /// The readers in the order of their Subscribes, each with its epoch, lent. Each was told the last emission last.
    pub fn readers(&self) -> &[(ServiceId, Clock)]
        ensures { told_all (stamps_of self.now.state.last) result.now ≡ self.now.state.readers }
    {
        self.readers.as_slice()
    }

    /// Whether a change of the leg is left to do.
    pub fn has_change(&self) -> bool
        ensures { IsTrue result ↔ (self.now.state.left ≢ []) }
    {
        self.done < self.changes.len()
    }

    /// Whether a turn would take a value or compute. No memory is taken.
    pub fn has_turn<L: Ledger>(&self, looks: &mut Steps<L>) -> bool
        ensures { result ≡ is_work (choice_of self.now.state) }
    {
        let inputs = inputs_of(&self.edges, self.slots.as_slice());
        match self.matcher.choice(inputs, &self.floor, self.due, looks) {
            Choice::Advance(_) | Choice::Ready => true,
            Choice::Empty(_) | Choice::Lags { .. } | Choice::Still => false,
        }
    }

    /// The oldest frame that is not yet handed over, with its receiver, which is handed over by this; None exactly where
    /// there is none. The frame has at most 585 bytes, and can be given back at once. No memory is taken.
    pub fn pop_out(&mut self) -> Option<(ServiceId, Bytes)>
        ensures some { IfSome result (λ outgoing_frame. self.old.outbox ≡ outgoing_frame ∷ self.new.outbox) }
        ensures none { IsNone result → self.old.outbox ≡ [] }
        ensures kept { IsNone result → self.new ≡ self.old }
        ensures last { IfSome result (λ outgoing_frame. IsLastOut outgoing_frame.0 outgoing_frame.1 self.new.entries self.new.outbox) }
        ensures short { IfSome result (λ outgoing_frame. length outgoing_frame.1 ≤ MAX_FRAME_LEN) }
        ensures rest { self.new ≡ record self.old { outbox = self.new.outbox; handed = self.old.handed + length (option_to_list result) } }
    {
        self.journal.pop_out()
    }

    /// A leg begins, as `open_leg` says, with a roster of the node's own. No memory is taken.
    pub fn begin_leg(&mut self, roster: Roster, changes: Vec<Change>)
        requires done { self.old.state.left ≡ [] }
        requires log { self.old.entries ≡ [] }
        requires few { length roster ≤ MAX_SERVICES }
        requires known { self.old.state.id < length roster }
        requires accepted { (d : TheDefinition) → Has (coming self.old.state.definition changes.items) d → IsDefinitionOf roster self.old.state.id d }
        requires clock { self.old.state.own + length changes.items ≤ MAX_CLOCK }
        ensures { self.new ≡ record self.old { state = opened_with (coming self.old.state.definition changes.items) self.old.state; roster = roster; changes = changes.items } }
    {
        begin_all(&mut self.slots, self.journal.entries());
        self.roster = roster;
        self.changes = changes;
        self.done = 0;
    }

    /// A leg begins, as `open_leg` says, with the roster of the leg before. No memory is taken.
    pub fn begin_leg_with_same_roster(&mut self, changes: Vec<Change>)
        requires done { self.old.state.left ≡ [] }
        requires log { self.old.entries ≡ [] }
        requires known { self.old.state.id < length self.old.roster }
        requires accepted { (d : TheDefinition) → Has (coming self.old.state.definition changes.items) d → IsDefinitionOf self.old.roster self.old.state.id d }
        requires clock { self.old.state.own + length changes.items ≤ MAX_CLOCK }
        ensures { self.new ≡ record self.old { state = opened_with (coming self.old.state.definition changes.items) self.old.state; changes = changes.items } }
    {
        begin_all(&mut self.slots, self.journal.entries());
        self.changes = changes;
        self.done = 0;
    }
}
