// What a new reader is answered.
use super::events::{Event, Happened, change_all, derive, happen, open, unborn};
use super::offering::{offer, sends};
use super::services::Service;
use super::written::input;
use node_core::Turned;
use std::alloc::Global;
use std::process::Abort;
use std::test::Fail;
use svc_value::ServiceId;

const SERVICES: [(&'static str, u16); 2] = [("x", 0), ("n", 1)];

// The input 0, which is born as 3, and the service 1, which names it.
fn born(alloc: Global, services: &mut [Service]) -> Result<(), Fail> {
    open(services, 0, &[input(3)])?;
    derive(alloc, services, 1, "x", &[ServiceId(0)], &[])?;
    change_all(services)
}

const COMPUTED: [(Event, Happened); 1] = [(Event::Turn(0), Happened::Turned(Turned::Computed))];

const SUBSCRIBE: [u8; 5] = [1, 0, 0, 0, 1];

// The second asks, and the first answers.
fn answered(rt: &impl Abort, alloc: Global, services: &mut [Service]) -> Result<(), Fail> {
    let [first, second] = services else {
        return Err("there are not two services".into());
    };
    sends(rt, second, 0, &SUBSCRIBE);
    offer(rt, alloc, first, &[(1, &SUBSCRIBE, None)])?;
    sends(rt, first, 1, &[3, 0, 0, 0, 1, 1, 0, 0]);
    sends(
        rt,
        first,
        1,
        &[5, 0, 0, 0, 1, 1, 0, 0, 0, 0, 0, 0, 0, 3, 1, 0, 0, 0, 0, 1],
    );
    sends(rt, first, 1, &[]);
    Ok(())
}

// All of it.
fn played(rt: &impl Abort, alloc: Global, services: &mut [Service]) -> Result<(), Fail> {
    born(alloc, services)?;
    happen(rt, services, &COMPUTED)?;
    answered(rt, alloc, services)
}

#[test]
fn new_readers_are_answered(rt: HostRuntime) -> Result<(), Fail> {
    let mut services = unborn(rt.alloc(), &SERVICES)?;
    played(&rt, rt.alloc(), &mut services)
}
