// A formula that comes in place of another keeps the edges that both have, drops the others, and adds its own.
use super::events::{
    Event, Happened, change_all, derive, happen, log, open, redefine, settle, unborn,
};
use super::logs::{Done, Row, begins, computes};
use super::services::Service;
use super::written::input;
use std::alloc::Global;
use std::process::Abort;
use std::test::Fail;
use svc_value::ServiceId;

const SERVICES: [(&'static str, u16); 4] = [("x", 0), ("y", 0), ("a", 1), ("n", 2)];

const X: ServiceId = ServiceId(0);

const Y: ServiceId = ServiceId(1);

const A: ServiceId = ServiceId(2);

// The inputs `x` and `y` are 2 and 5, `a` is `x + 1`, and `n` is the sum of `a` and `y`; all are at rest.
fn settled(alloc: Global, services: &mut [Service]) -> Result<(), Fail> {
    open(services, 0, &[input(2)])?;
    open(services, 1, &[input(5)])?;
    derive(alloc, services, 2, "x + 1", &[X], &[])?;
    derive(alloc, services, 3, "sum()", &[], &[A, Y])?;
    change_all(services)?;
    settle(services, 4)
}

// In the next leg `n` is the number of its members and `y`, and its member is `x`.
fn opened(alloc: Global, services: &mut [Service]) -> Result<(), Fail> {
    open(services, 0, &[])?;
    open(services, 1, &[])?;
    open(services, 2, &[])?;
    redefine(alloc, services, 3, "count() + y", &[Y], &[X])
}

const SENT: [Done<'static>; 3] = [
    Done::Did(2),
    Done::Sent(2, &[2, 0, 0, 0, 1]),
    Done::Sent(0, &[1, 0, 0, 0, 2]),
];

const COMPUTED: [Row<'static>; 1] = [(6, &[(0, 1), (1, 1), (3, 2)], &[0, 1])];

// The two legs.
fn played(rt: &impl Abort, alloc: Global, services: &mut [Service]) -> Result<(), Fail> {
    settled(alloc, services)?;
    opened(alloc, services)?;
    happen(rt, services, &[(Event::Do(3), Happened::Did)])?;
    settle(services, 4)?;
    assert!(rt; begins(log(services, 3), &SENT));
    assert!(rt; computes(log(services, 3), &COMPUTED));
    Ok(())
}

#[test]
fn a_formula_comes_in_place_of_another(rt: HostRuntime) -> Result<(), Fail> {
    let mut services = unborn(rt.alloc(), &SERVICES)?;
    played(&rt, rt.alloc(), &mut services)
}
