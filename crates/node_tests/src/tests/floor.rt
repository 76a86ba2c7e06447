// What a service saw through another one does not fall when it changes what it reads.
use super::events::{Event, Happened, change_all, derive, happen, log, open, settle, unborn};
use super::logs::{Row, computes};
use super::services::Service;
use super::written::{add, input, set, take_out};
use node_core::Turned;
use std::alloc::Global;
use std::process::Abort;
use std::test::Fail;
use svc_value::ServiceId;

const X: u16 = 0;

const B: u16 = 1;

const C: u16 = 2;

const N: u16 = 3;

const SERVICES: [(&'static str, u16); 4] = [("x", 0), ("b", 1), ("c", 1), ("n", 2)];

// The input `x` is 1, `b` is `x`, `c` is `x * 100`, and `n` is the sum of `b`; all are at rest.
fn settled(alloc: Global, services: &mut [Service]) -> Result<(), Fail> {
    let x = ServiceId(X);
    open(services, X, &[input(1)])?;
    derive(alloc, services, B, "x", &[x], &[])?;
    derive(alloc, services, C, "x * 100", &[x], &[])?;
    derive(alloc, services, N, "sum()", &[], &[ServiceId(B)])?;
    change_all(services)?;
    settle(services, 4)
}

// In the next leg `x` becomes 2, and `n` drops `b` and adds `c`.
fn opened(services: &mut [Service]) -> Result<(), Fail> {
    open(services, X, &[set(2)])?;
    open(services, B, &[])?;
    open(services, C, &[])?;
    open(services, N, &[take_out(ServiceId(B)), add(ServiceId(C))])
}

const EVENTS: [(Event, Happened); 15] = [
    (Event::Do(X), Happened::Did),
    (Event::Turn(X), Happened::Turned(Turned::Computed)),
    (Event::Take(B, X), Happened::Took),
    (Event::Turn(B), Happened::Turned(Turned::Advanced)),
    (Event::Turn(B), Happened::Turned(Turned::Computed)),
    (Event::Take(N, B), Happened::Took),
    (Event::Turn(N), Happened::Turned(Turned::Advanced)),
    (Event::Turn(N), Happened::Turned(Turned::Computed)),
    (Event::Do(N), Happened::Did),
    (Event::Do(N), Happened::Did),
    (Event::Take(C, N), Happened::Took),
    (Event::Take(N, C), Happened::Took),
    (Event::Take(N, C), Happened::Took),
    (Event::Turn(N), Happened::Turned(Turned::Advanced)),
    (
        Event::Turn(N),
        Happened::Turned(Turned::Lags {
            sender: ServiceId(C),
            key: ServiceId(X),
        }),
    ),
];

const BEFORE: [Row<'static>; 1] = [(2, &[(X, 2), (B, 1), (N, 1)], &[1])];

const AFTER: [Row<'static>; 2] = [
    (2, &[(X, 2), (B, 1), (N, 1)], &[1]),
    (200, &[(X, 2), (C, 1), (N, 3)], &[2]),
];

// The two legs.
fn played(rt: &impl Abort, alloc: Global, services: &mut [Service]) -> Result<(), Fail> {
    settled(alloc, services)?;
    opened(services)?;
    happen(rt, services, &EVENTS)?;
    assert!(rt; computes(log(services, N), &BEFORE));
    settle(services, 4)?;
    assert!(rt; computes(log(services, N), &AFTER));
    Ok(())
}

#[test]
fn stamps_do_not_fall(rt: HostRuntime) -> Result<(), Fail> {
    let mut services = unborn(rt.alloc(), &SERVICES)?;
    played(&rt, rt.alloc(), &mut services)
}
