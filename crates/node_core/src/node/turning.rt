// Turns of a service.
ghost use Rattle.std.specs.Prelude.{◌≡◌, ◌+◌, ◌<◌, ◌≤◌, true, IfOk, OnOk, OnErr, length};
ghost use Rattle.service_machine.specs.States.{has_next, slot_at};
ghost use Rattle.service_machine.specs.Steps.{after_computing, computed_log, after_moving, choice_of, after_turning, turn_log};
ghost use Rattle.stamp_match.specs.Named.{sender_at};
ghost use Rattle.svc_graph.specs.History.{meaning_of};

use super::Node;
use crate::computing::{computation_of, emission_over};
use crate::slots::{advance_at, inputs_of, raise_over};
use crate::telling::tell_all;
use crate::{Entry, Turned};
use stamp_match::Choice;
use std::mem;
use std::sync::ledger::Ledger;
use svc_value::{OutOfMemory, ServiceId, Steps};

impl Node {
    ghost use Rattle.node_core.specs.View.{Grows, LogsComputation};
    ghost use Rattle.node_core.specs.declared.turned.Turned.TheVariants.{Computed};
    ghost use Rattle.node_core.specs.Answers.{IsAnswer, IsIdle, moves_of};

    // Computes by the present definition, if there is one, and tells the readers.
    fn compute<L: Ledger>(&mut self, looks: &mut Steps<L>) -> Result<(), OutOfMemory>
        ensures state { OnOk result (self.new.state ≡ after_computing meaning_of self.old.state self.old.state.definition) }
        ensures log { OnOk result (Grows self.old self.new (computed_log meaning_of self.old.state self.old.state.definition)) }
        ensures computed { OnOk result (LogsComputation self.old self.new) }
        ensures err { OnErr result (self.new ≡ self.old) }
    {
        let Some(definition) = &self.definition else {
            return Ok(());
        };
        let inputs = inputs_of(&self.edges, self.slots.as_slice());
        let scratch = &mut self.scratch;
        let emission = emission_over(self.alloc, self.id, self.own, definition, inputs, scratch)?;
        let computation = computation_of(self.alloc, &emission, inputs)?;
        let readers = self.readers.as_slice();
        let outgoing = tell_all(self.alloc, readers, &self.last, &emission, scratch)?;
        self.journal.reserve(outgoing.len())?;
        let outgoing = self.journal.record(Entry::Computed(computation), outgoing);
        scratch.keep_outgoing(outgoing);
        self.due = false;
        let inputs = inputs_of(&self.edges, self.slots.as_slice());
        let (matcher, floor) = (&mut self.matcher, &mut self.floor);
        raise_over(matcher, floor, self.id, self.own, inputs, looks);
        let last = mem::replace(&mut self.last, Some(emission));
        scratch.keep_stamps(last);
        Ok(())
    }

    // The next value of the dependency at a place becomes its head.
    fn advance<M: Ledger, L: Ledger>(
        &mut self,
        place: usize,
        moves: &mut Steps<M>,
        looks: &mut Steps<L>,
    )
        requires place { place < length self.old.state.edges }
        requires next { has_next (slot_at self.old.state.slots (sender_at self.old.state.slots place)) ≡ true }
        ensures state { self.new ≡ record self.old { state = after_moving (sender_at self.old.state.slots place) self.old.state } }
        ensures moves { moves.new ≡ moves.old + 1 }
    {
        let _entries = self.journal.entries().len();
        let (slots, matcher) = (&mut self.slots, &mut self.matcher);
        let count = self.edges.len();
        advance_at(slots, count, place, matcher, &self.floor, moves, looks);
        self.due = true;
    }

    /// One turn: the first case of the turn table that applies. It takes one step of `moves` exactly where it answers
    /// `Advanced`. `looks` counts comparisons of clocks; how many there are is not said. `Empty`, `Lags` and `Still` leave the
    /// node as it was, and so does `OutOfMemory`.
    pub fn turn<M: Ledger, L: Ledger>(
        &mut self,
        moves: &mut Steps<M>,
        looks: &mut Steps<L>,
    ) -> Result<Turned, OutOfMemory>
        ensures state { OnOk result (self.new.state ≡ after_turning meaning_of self.old.state) }
        ensures log { OnOk result (Grows self.old self.new (turn_log meaning_of self.old.state)) }
        ensures computed { IfOk result (λ answer. answer ≡ Computed → LogsComputation self.old self.new) }
        ensures answer { IfOk result (IsAnswer (choice_of self.old.state)) }
        ensures idle { IfOk result (λ answer. IsIdle answer → self.new ≡ self.old) }
        ensures moves { moves.new ≡ moves.old + moves_of result }
        ensures err { OnErr result (self.new ≡ self.old) }
    {
        let inputs = inputs_of(&self.edges, self.slots.as_slice());
        match self.matcher.choice(inputs, &self.floor, self.due, looks) {
            Choice::Advance(place) => {
                self.advance(place, moves, looks);
                Ok(Turned::Advanced)
            }
            Choice::Ready => {
                self.compute(looks)?;
                Ok(Turned::Computed)
            }
            Choice::Empty(place) => Ok(Turned::Empty(self.sender(place))),
            Choice::Lags { slot, key } => Ok(Turned::Lags {
                sender: self.sender(slot),
                key,
            }),
            Choice::Still => Ok(Turned::Still),
        }
    }

    // The sender of the slot at a place.
    fn sender(&self, place: usize) -> ServiceId
        requires { place < length self.now.state.slots }
        ensures { result ≡ sender_at self.now.state.slots place }
    {
        let slot = &self.slots[place];
        slot.sender()
    }
}
