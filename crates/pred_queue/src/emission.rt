// What a service emits.
ghost use Rattle.std.specs.Prelude.{◌≡◌, IfOk};

use stamp_clock::Stamps;
use std::marker::Model;
use svc_value::{OutOfMemory, Value};

/// A value with the clocks that it rests on.
#[derive(Debug, Drop)]
pub struct Emission {
    /// The value.
    pub value: Value,
    /// The clocks.
    pub stamps: Stamps,
}

impl Model for Emission {
    ghost use Rattle.propagation.specs.Logs.{Emission as TheEmission};
    ghost use Rattle.svc_value.specs.declared.value.Value.{Value as TheValue};

    ghost Value = { TheEmission TheValue };

    ghost view = { λ emission. record { value = emission.value; stamps = emission.stamps } };
}

impl Emission {
    /// An equal emission; `OutOfMemory` where there is no memory for it.
    pub fn copy(&self) -> Result<Emission, OutOfMemory>
        ensures { IfOk result (λ emission. emission ≡ self.now) }
    {
        Ok(Emission {
            value: self.value.copy()?,
            stamps: self.stamps.copy()?,
        })
    }
}
