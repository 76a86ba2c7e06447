// A formula keeps two of four edges, drops two, adds two, and names them all in another order.
use super::events::{
    Event, Happened, change_all, derive, happen, log, open, redefine, settle, unborn,
};
use super::logs::{Done, Row, begins, computes};
use super::services::Service;
use super::written::{input, set};
use node_core::Turned;
use std::alloc::Global;
use std::process::Abort;
use std::test::Fail;
use svc_value::ServiceId;

const SERVICES: [(&'static str, u16); 7] = [
    ("a", 0),
    ("b", 0),
    ("c", 0),
    ("d", 0),
    ("e", 0),
    ("f", 0),
    ("n", 1),
];

const A: u16 = 0;

const B: u16 = 1;

const C: u16 = 2;

const D: u16 = 3;

const E: u16 = 4;

const F: u16 = 5;

const N: u16 = 6;

// The inputs are 1, 2, 3, 5, 7 and 11.
fn inputs(services: &mut [Service]) -> Result<(), Fail> {
    open(services, A, &[input(1)])?;
    open(services, B, &[input(2)])?;
    open(services, C, &[input(3)])?;
    open(services, D, &[input(5)])?;
    open(services, E, &[input(7)])?;
    open(services, F, &[input(11)])
}

// And `n` is by `d`, `b`, `c` and `a`; all are at rest.
fn settled(alloc: Global, services: &mut [Service]) -> Result<(), Fail> {
    let (fixed, members) = ([ServiceId(D), ServiceId(B)], [ServiceId(C), ServiceId(A)]);
    inputs(services)?;
    derive(alloc, services, N, "d * b + sum()", &fixed, &members)?;
    change_all(services)?;
    settle(services, 7)
}

// In the next leg `b` is 13, and `n` is by `f`, `c`, `e` and `b`.
fn opened(alloc: Global, services: &mut [Service]) -> Result<(), Fail> {
    let (fixed, members) = ([ServiceId(F), ServiceId(C)], [ServiceId(E), ServiceId(B)]);
    redefine(alloc, services, N, "f * c - sum()", &fixed, &members)?;
    open(services, B, &[set(13)])?;
    for id in [A, C, D, E, F] {
        open(services, id, &[])?;
    }
    Ok(())
}

const SENT: [Done<'static>; 5] = [
    Done::Did(2),
    Done::Sent(D, &[2, 0, 0, 0, 1]),
    Done::Sent(A, &[2, 0, 0, 0, 1]),
    Done::Sent(F, &[1, 0, 0, 0, 2]),
    Done::Sent(E, &[1, 0, 0, 0, 2]),
];

const CHANGES: [(Event, Happened); 4] = [
    (Event::Do(N), Happened::Did),
    (Event::Do(B), Happened::Did),
    (Event::Turn(B), Happened::Turned(Turned::Computed)),
    (Event::Take(N, B), Happened::Took),
];

const ANSWERS: [(Event, Happened); 10] = [
    (
        Event::Turn(N),
        Happened::Turned(Turned::Empty(ServiceId(F))),
    ),
    (Event::Take(F, N), Happened::Took),
    (Event::Take(N, F), Happened::Took),
    (Event::Take(N, F), Happened::Took),
    (Event::Turn(N), Happened::Turned(Turned::Advanced)),
    (
        Event::Turn(N),
        Happened::Turned(Turned::Empty(ServiceId(E))),
    ),
    (Event::Take(E, N), Happened::Took),
    (Event::Take(N, E), Happened::Took),
    (Event::Take(N, E), Happened::Took),
    (Event::Turn(N), Happened::Turned(Turned::Advanced)),
];

const TURNS: [(Event, Happened); 4] = [
    (Event::Turn(N), Happened::Turned(Turned::Computed)),
    (Event::Turn(N), Happened::Turned(Turned::Advanced)),
    (Event::Turn(N), Happened::Turned(Turned::Computed)),
    (Event::Turn(N), Happened::Turned(Turned::Still)),
];

const COMPUTED: [Row<'static>; 2] = [
    (24, &[(B, 1), (C, 1), (E, 1), (F, 1), (N, 2)], &[1, 0, 1, 0]),
    (13, &[(B, 2), (C, 1), (E, 1), (F, 1), (N, 2)], &[1, 0, 1, 1]),
];

// The two legs.
fn played(rt: &impl Abort, alloc: Global, services: &mut [Service]) -> Result<(), Fail> {
    settled(alloc, services)?;
    opened(alloc, services)?;
    happen(rt, services, &CHANGES)?;
    assert!(rt; begins(log(services, N), &SENT));
    happen(rt, services, &ANSWERS)?;
    happen(rt, services, &TURNS)?;
    settle(services, 7)?;
    assert!(rt; computes(log(services, N), &COMPUTED));
    Ok(())
}

#[test]
fn edges_take_another_order(rt: HostRuntime) -> Result<(), Fail> {
    let mut services = unborn(rt.alloc(), &SERVICES)?;
    played(&rt, rt.alloc(), &mut services)
}
