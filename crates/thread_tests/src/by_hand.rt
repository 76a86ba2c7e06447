// Workers that work one after another, on one thread.
ghost use Rattle.std.specs.Prelude.{◌≡◌, ◌<◌, [], length, IfOk};
ghost use Rattle.settle_core.specs.Workers.{AllGoOn, HasBegun};
ghost use Rattle.svc_plan.specs.Rows.{AreLegsAfter, IsLegAfter};

use crate::legs::SUM;
use document_reading::read_document;
use node_threads::{NoGate, work};
use settle_core::{Crew, Network, Worker};
use std::alloc::Global;
use std::sync::atomic::AtomicU64;
use std::test::Fail;
use svc_plan::{Leg, Mode};
use svc_value::{OutOfMemory, ServiceId, Value};

// The worker at this place works.
fn work_at(workers: &mut Vec<Worker>, place: usize, hint: &AtomicU64) -> Result<(), OutOfMemory>
    requires { place < length workers.old.items }
    ensures { AllGoOn workers.old.items workers.new.items }
{
    work(&mut workers[place], &NoGate, hint)
}

// The workers at these places work, in this order.
fn work_in_order(workers: &mut Vec<Worker>, order: &[usize]) -> Result<(), Fail>
    ensures { AllGoOn workers.old.items workers.new.items }
{
    let hint = AtomicU64::new(1_000);
    for place in order {
        if *place >= workers.len() {
            return Err("there is no such worker".into());
        }
        work_at(workers, *place, &hint)?;
    }
    Ok(())
}

// The workers of a crew do so.
fn worked(crew: Crew, order: &[usize]) -> Result<Crew, Fail>
    ensures book { IfOk result (λ after. after.book ≡ crew.book) }
    ensures go_on { IfOk result (λ after. AllGoOn crew.workers.items after.workers.items) }
{
    let Crew { book, mut workers } = crew;
    work_in_order(&mut workers, order)?;
    Ok(Crew { book, workers })
}

// The network that is put together after that, without a drain.
fn gathered(alloc: Global, network: Network, order: &[usize]) -> Result<Network, Fail>
    requires { HasBegun network }
{
    network.kept();
    let crew = network.into_workers()?;
    let after = worked(crew, order)?;
    Ok(Network::from_workers(alloc, after)?)
}

// The first leg of a new network, opened.
fn opened(alloc: Global, leg: &Leg) -> Result<Network, OutOfMemory>
    requires { IsLegAfter [] leg.now }
    ensures { IfOk result HasBegun }
{
    let mut network = Network::new(alloc);
    network.open_leg(leg)?;
    Ok(network)
}

// Whether the service has this value.
fn has_value(network: &Network, id: ServiceId, expected: i64) -> bool {
    if usize::from(id.0) >= network.book().len() {
        return false;
    }
    match network.node(id).value() {
        Some(Value::Int(number)) => *number == expected,
        _ => false,
    }
}

// Whether `total` has its value after the workers of `total`, `a`, `b` and again `total` worked.
fn total_is_there(alloc: Global, legs: &[Leg]) -> Result<bool, Fail>
    requires { AreLegsAfter [] legs.now }
{
    if legs.is_empty() {
        return Err("there is no leg".into());
    }
    let network = gathered(alloc, opened(alloc, &legs[0])?, &[2, 0, 1, 2])?;
    Ok(has_value(&network, ServiceId(2), 7))
}

// So for the first leg of the sum.
fn sum_is_there(alloc: Global) -> Result<bool, Fail> {
    let plan = read_document(alloc, SUM.as_bytes(), Mode::Plain)?;
    total_is_there(alloc, plan.legs.as_slice())
}

#[test]
fn workers_work_by_hand(rt: HostRuntime) -> Result<(), Fail> {
    assert!(rt; sum_is_there(rt.alloc())?);
    Ok(())
}
