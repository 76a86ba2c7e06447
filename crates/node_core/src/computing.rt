// What a service computes.
ghost use Rattle.std.specs.Prelude.{◌≡◌, ◌≤◌, ◌<◌, ◌++◌, ◌∷◌, [], map, take, drop, length, IfOk, OnOk};
ghost use Rattle.service_machine.specs.States.{raise_all};
ghost use Rattle.service_machine.specs.Turning.{heads};
ghost use Rattle.service_machine.specs.Steps.{picks};
ghost use Rattle.svc_graph.specs.History.{meaning_of};
ghost use Rattle.node_core.specs.Computing.{emission_over};

use crate::scratch::Scratch;
use crate::{Computation, Picks};
use pred_queue::{Emission, Slot};
use stamp_clock::Stamps;
use std::alloc::Global;
use std::mem;
use svc_expr::eval;
use svc_graph::Definition;
use svc_value::limits::{MAX_DEPENDENCIES, MAX_SERVICES};
use svc_value::{Clock, OutOfMemory, ServiceId, Value};

// The values of the heads, in place of those in the list.
#[tactic(auto, using(crate::proofs::HeadLemmas::values_some, crate::proofs::HeadLemmas::values_none, crate::proofs::HeadLemmas::values_done))]
fn values_of(slots: &[Slot], values: &mut Vec<Value>) -> Result<(), OutOfMemory>
    ensures { OnOk result (values.new.items ≡ map (λ head. head.value) (heads slots.now)) }
{
    values.clear();
    for i in 0..slots.len() {
        let slot = &slots[i];
        let Some(head) = slot.head() else {
            continue;
        };
        values.push(head.value.copy()?)?;
    }
    Ok(())
}

// The meaning of a definition over the values of the heads, which are put into the list.
fn value_by(
    alloc: Global,
    definition: &Definition,
    slots: &[Slot],
    values: &mut Vec<Value>,
) -> Result<Value, OutOfMemory>
    requires few { length slots.now ≤ MAX_DEPENDENCIES }
    ensures { IfOk result (λ value. value ≡ meaning_of definition.now (map (λ head. head.value) (heads slots.now))) }
{
    match definition {
        Definition::Input(value) => value.copy(),
        Definition::Derived(formula) => {
            values_of(slots, values)?;
            let count = formula.fixed.len().min(values.len());
            let (given, members) = values.as_slice().split_at(count);
            eval(alloc, &formula.expr, given, members)
        }
    }
}

// The union of the stamps of the heads with the own clock, in memory that is used again.
#[tactic(auto, using(crate::proofs::HeadLemmas::union_some, crate::proofs::HeadLemmas::union_none, crate::proofs::HeadLemmas::union_done))]
fn union_of(
    id: ServiceId,
    own: Clock,
    slots: &[Slot],
    scratch: &mut Scratch,
) -> Result<Stamps, OutOfMemory>
    requires below { id < MAX_SERVICES }
    requires positive { 0 < own }
    ensures { IfOk result (λ stamps. stamps ≡ raise_all ((id, own) ∷ []) (heads slots.now)) }
{
    let mut joined = scratch.take_joined();
    let mut stamps = Stamps::one_in(scratch.take_stamps(), id, own)?;
    for i in 0..slots.len() {
        let slot = &slots[i];
        let Some(head) = slot.head() else {
            continue;
        };
        let both = stamps.join_in(&head.stamps, joined)?;
        joined = mem::replace(&mut stamps, both).into_clocks();
    }
    scratch.keep_joined(joined);
    Ok(stamps)
}

// The numbers of the heads.
#[tactic(auto, using(crate::proofs::HeadLemmas::picks_next, crate::proofs::HeadLemmas::picks_done))]
fn picks_of(alloc: Global, slots: &[Slot]) -> Result<Picks, OutOfMemory>
    ensures { IfOk result (λ numbers. numbers ≡ picks slots.now) }
{
    let mut numbers = Vec::with_capacity(alloc, slots.len())?;
    for i in 0..slots.len() {
        let slot = &slots[i];
        numbers.push(slot.number())?;
    }
    Ok(Picks::from_vec(numbers))
}

// What a service of this number, clock and definition emits over the heads.
#[tactic(auto, using(crate::proofs::HeadLemmas::union_is_some))]
pub(crate) fn emission_over(
    alloc: Global,
    id: ServiceId,
    own: Clock,
    definition: &Definition,
    slots: &[Slot],
    scratch: &mut Scratch,
) -> Result<Emission, OutOfMemory>
    requires below { id < MAX_SERVICES }
    requires positive { 0 < own }
    requires few { length slots.now ≤ MAX_DEPENDENCIES }
    ensures emission { IfOk result (λ m. m ≡ emission_over id own definition.now slots.now) }
    ensures some { IfOk result (λ m. 0 < length m.stamps) }
{
    let value = value_by(alloc, definition, slots, &mut scratch.values)?;
    let stamps = union_of(id, own, slots, scratch)?;
    Ok(Emission { value, stamps })
}

// The entry of an emission over the heads.
pub(crate) fn computation_of(
    alloc: Global,
    emission: &Emission,
    slots: &[Slot],
) -> Result<Computation, OutOfMemory>
    ensures value { IfOk result (λ c. c.value ≡ emission.now.value) }
    ensures stamps { IfOk result (λ c. c.stamps ≡ emission.now.stamps) }
    ensures picks { IfOk result (λ c. c.picks ≡ picks slots.now) }
{
    let value = emission.value.copy()?;
    let stamps = emission.stamps.copy()?;
    let picks = picks_of(alloc, slots)?;
    Ok(Computation {
        value,
        stamps,
        picks,
    })
}
