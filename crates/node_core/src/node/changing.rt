// Changes of a service.
ghost use Rattle.std.specs.Prelude.{◌≡◌, ◌≢◌, ◌↔◌, ◌+◌, ◌-◌, ◌^◌, ◌<◌, [], IfOk, IsTrue, OnOk, OnErr};
ghost use Rattle.service_machine.specs.Steps.{after_changing as done_in, done_log};
ghost use Rattle.svc_graph.specs.History.{dependencies};
ghost use Rattle.node_core.specs.declared.entry.Entry.TheVariants.{Did};

use super::Node;
use crate::Entry;
use crate::rewiring::{Rewired, prepare_change, rewire_slots};
use crate::slots::inputs_of;
use stamp_match::Matcher;
use std::mem;
use svc_value::{Clock, OutOfMemory};

// The clock after this one.
fn next_clock(clock: Clock) -> Clock
    requires { clock < 2 ^ 32 - 1 }
    ensures { result ≡ clock + 1 }
{
    Clock(clock.0 + 1)
}

impl Node {
    ghost use Rattle.node_core.specs.View.{Grows, Logs};

    /// Does the next change of the leg: false exactly where none is left. The own clock rises, and the service is due. Each
    /// dependency that went is sent Unsubscribe, and each that came Subscribe. After `OutOfMemory` the node is as it was.
    pub fn do_next(&mut self) -> Result<bool, OutOfMemory>
        ensures answer { IfOk result (λ is_done. IsTrue is_done ↔ (self.old.state.left ≢ [])) }
        ensures state { OnOk result (self.new.state ≡ done_in dependencies self.old.state) }
        ensures log { OnOk result (Grows self.old self.new (done_log dependencies self.old.state)) }
        ensures did { IfOk result (λ is_done. IsTrue is_done → Logs (Did self.new.state.own) self.old self.new) }
        ensures err { OnErr result (self.new ≡ self.old) }
    {
        if self.done == self.changes.len() {
            return Ok(false);
        }
        let change = &self.changes[self.done];
        let clock = next_clock(self.own);
        let slots = self.slots.len();
        let Rewired {
            definition,
            edges,
            outgoing,
            room,
        } = prepare_change(
            self.alloc,
            &self.definition,
            change,
            &self.edges,
            slots,
            clock,
        )?;
        self.journal.reserve(outgoing.len())?;
        let _ = self.journal.record(Entry::Did(clock.0), outgoing);
        let old = mem::replace(&mut self.slots, Vec::new(self.alloc));
        self.slots = rewire_slots(self.alloc, old, room, &edges, clock);
        let _ = mem::replace(&mut self.edges, edges);
        let _ = mem::replace(&mut self.definition, Some(definition));
        let inputs = inputs_of(&self.edges, self.slots.as_slice());
        self.matcher = Matcher::of(inputs, &self.floor);
        self.own = clock;
        self.done += 1;
        self.due = true;
        Ok(true)
    }
}
