// The floor: for each service the greatest clock that was emitted.
ghost use Rattle.std.specs.Prelude.{◌≡◌, ◌↔◌, ◌<◌, [], IfOk, IfSome, IsNone, IsOk};
ghost use Rattle.propagation.specs.Stamps.{clock_of};
ghost use Rattle.service_machine.specs.States.{raise, raise_one as raised_one};
ghost use Rattle.service_machine.specs.Turning.{lag};
ghost use Rattle.stamp_clock.specs.Beside.{AreStamps};

use crate::Stamps;
use std::marker::Model;
use svc_value::limits::MAX_SERVICES;
use svc_value::{Clock, OutOfMemory, ServiceId};

/// For each service below 64 the greatest clock that was raised, or 0. Contracts see it as stamps, in which a service that
/// no raise had is missing.
#[derive(Clone, Copy, Debug)]
pub struct Floor {
    clocks: [Clock; MAX_SERVICES],
}

impl Model for Floor {
    ghost use Rattle.std.specs.Prelude.{List, ℕ, ◌≡◌, length};
    ghost use Rattle.svc_value.specs.declared.limits.TheConstants.{MAX_SERVICES};

    ghost Value = { List (ℕ × ℕ) };

    ghost use Rattle.stamp_clock.specs.Table.{raised_clocks};
    ghost use Rattle.stamp_clock.specs.TableOf.{table_of, table_of-floor};

    ghost view = { λ floor. raised_clocks 0 floor.clocks };

    ghost invariant = { λ floor. length floor.clocks ≡ MAX_SERVICES };

    ghost inverse = { λ stamps. record { clocks = table_of MAX_SERVICES 0 stamps } };

    ghost inverse_ok = { λ a h. table_of-floor a h };
}

impl Floor {
    /// The floor that nothing has raised.
    pub fn new() -> Floor
        ensures { result ≡ [] }
    {
        Floor {
            clocks: [Clock(0); MAX_SERVICES],
        }
    }

    /// Takes for each key the greater clock of the floor and the stamps. It never wants memory.
    pub fn raise(&mut self, stamps: &Stamps) -> Result<(), OutOfMemory>
        ensures raised { self.new ≡ raise self.old stamps.now }
        ensures ok { IsOk result }
    {
        for (key, clock) in stamps.iter() {
            self.raise_one(key, clock);
        }
        Ok(())
    }

    /// Takes for the service `id`, below 64, the greater clock of the floor and `clock`, at least 1.
    pub fn raise_one(&mut self, id: ServiceId, clock: Clock)
        requires below { id < MAX_SERVICES }
        requires positive { 0 < clock }
        ensures { self.new ≡ raised_one self.old id clock }
    {
        let place = id.0 as usize;
        self.clocks[place] = self.clocks[place].max(clock);
    }

    /// The greatest clock of the service `id`; None exactly where no raise had it.
    pub fn get(&self, id: ServiceId) -> Option<Clock>
        ensures clock { IfSome result (λ clock. clock ≡ clock_of self.now id) }
        ensures none { IsNone result ↔ (clock_of self.now id ≡ 0) }
    {
        let clocks = &self.clocks;
        let place = id.0 as usize;
        if place >= clocks.len() {
            return None;
        }
        let clock = clocks[place];
        if clock == Clock(0) { None } else { Some(clock) }
    }

    /// The least key whose clock in the stamps is below the floor's; None exactly where there is none.
    pub fn lags(&self, stamps: &Stamps) -> Option<ServiceId>
        ensures { result ≡ lag self.now stamps.now }
    {
        for (key, clock) in stamps.iter() {
            if clock < self.clock(key) {
                return Some(key);
            }
        }
        None
    }

    /// An equal floor. The keys of a floor rise and are below 64, and their clocks are at least 1. It never wants memory.
    pub fn copy(&self) -> Result<Floor, OutOfMemory>
        ensures copied { IfOk result (λ floor. floor ≡ self.now) }
        ensures ok { IsOk result }
        ensures stamps { AreStamps self.now }
    {
        Ok(Floor {
            clocks: self.clocks,
        })
    }

    // The greatest clock of a service, or 0.
    fn clock(&self, id: ServiceId) -> Clock
        requires { id < MAX_SERVICES }
        ensures { result ≡ clock_of self.now id }
    {
        self.clocks[id.0 as usize]
    }
}
