// Documents for trials: large ones, made from three numbers.
ghost use Rattle.std.specs.Prelude.{◌≡◌, ◌≤◌, ℕ, IfOk};
ghost use Rattle.svc_plan.specs.declared.plan.Mode.TheVariants.{Plain};
ghost use Rattle.document_reading.specs.Document.{IsAccepted};
ghost use Rattle.document_generator.specs.Generator.{inputs_of, generated};

use crate::draft::Draft;
use std::alloc::Global;
use svc_value::OutOfMemory;
use svc_value::limits::{MAX_CHANGES, MAX_SERVICES};

// How many of the services are inputs.
fn inputs_of(services: u16) -> u16
    ensures { result ≡ inputs_of services }
{
    (services / 4).max(1)
}

/// The document of the generator with so many services and changes, births among them, in memory of `alloc`. Every choice in it is
/// drawn, beginning with `start`.
pub fn make_document(
    alloc: Global,
    services: u16,
    changes: u16,
    start: u32,
) -> Result<Vec<u8>, OutOfMemory>
    requires some { 2 ≤ services }
    requires most { services ≤ MAX_SERVICES }
    requires births { services ≤ changes }
    requires changes { changes ≤ MAX_CHANGES }
    requires start { start ≤ 65536 }
    ensures { IfOk result (λ text. text.items ≡ generated services changes start) }
{
    let inputs = inputs_of(services);
    let mut draft = Draft::new(alloc, start);
    for k in 0..inputs {
        draft.add_input(k + 1)?;
    }
    for n in 0..services - inputs {
        draft.add_derived(inputs, n)?;
    }
    for _ in 0..changes - services {
        draft.add_change(inputs, services)?;
    }
    draft.finish()
}

/// The document of the generator is accepted, whatever the start.
pub fn made_is_accepted()
    ensures { (services changes start : ℕ) → 2 ≤ services → services ≤ MAX_SERVICES → services ≤ changes → changes ≤ MAX_CHANGES → IsAccepted Plain (generated services changes start) }
{}
