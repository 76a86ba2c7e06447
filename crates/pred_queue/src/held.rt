// Emissions with the epochs under which they came.
ghost use Rattle.std.specs.Prelude.{◌≡◌, IfOk};

use crate::Emission;
use std::marker::Model;
use svc_value::{Clock, OutOfMemory};

/// An emission that waits, with its epoch.
#[derive(Debug, Drop)]
pub(crate) struct Waiting {
    pub(crate) epoch: Clock,
    pub(crate) emission: Emission,
}

impl Model for Waiting {
    ghost use Rattle.std.specs.Prelude.{ℕ};
    ghost use Rattle.propagation.specs.Logs.{Emission as TheEmission};
    ghost use Rattle.svc_value.specs.declared.value.Value.{Value as TheValue};

    ghost Value = { ℕ × TheEmission TheValue };

    ghost view = { λ waiting. (waiting.epoch, waiting.emission) };
}

impl Waiting {
    // An equal one.
    pub(crate) fn copy(&self) -> Result<Waiting, OutOfMemory>
        ensures { IfOk result (λ waiting. waiting ≡ self.now) }
    {
        Ok(Waiting {
            epoch: self.epoch,
            emission: self.emission.copy()?,
        })
    }
}

/// The emission that is computed with: its epoch, and its number among those that came in the leg under that epoch, from 1
/// on. The one held when the leg began has the number 0.
#[derive(Debug, Drop)]
pub(crate) struct Held {
    pub(crate) epoch: Clock,
    pub(crate) number: u64,
    pub(crate) emission: Emission,
}

impl Model for Held {
    ghost use Rattle.svc_value.specs.declared.value.Value.{Value as TheValue};
    ghost use Rattle.service_machine.specs.States.{Head};

    ghost Value = { Head TheValue };

    ghost view = { λ held. record { epoch = held.epoch; number = held.number; emission = held.emission } };
}

impl Held {
    // An equal one.
    pub(crate) fn copy(&self) -> Result<Held, OutOfMemory>
        ensures { IfOk result (λ held. held ≡ self.now) }
    {
        Ok(Held {
            epoch: self.epoch,
            number: self.number,
            emission: self.emission.copy()?,
        })
    }
}
