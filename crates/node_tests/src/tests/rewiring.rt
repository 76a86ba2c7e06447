// An edge that comes, goes and comes again in one leg.
use super::events::{Event, Happened, change_all, derive, happen, log, open, settle, unborn};
use super::logs::{Done, Row, computes, makes};
use super::services::Service;
use super::written::{add, input, take_out};
use node_core::Turned;
use std::alloc::Global;
use std::process::Abort;
use std::test::Fail;
use svc_value::ServiceId;

const P: u16 = 0;

const N: u16 = 1;

const SERVICES: [(&'static str, u16); 2] = [("p", 0), ("n", 1)];

// The input `p`, born as 5, and the sum `n` of no members have computed.
fn settled(alloc: Global, services: &mut [Service]) -> Result<(), Fail> {
    open(services, P, &[input(5)])?;
    derive(alloc, services, N, "sum()", &[], &[])?;
    change_all(services)?;
    settle(services, 2)
}

// In the next leg `n` adds, drops and adds `p`.
fn opened(services: &mut [Service]) -> Result<(), Fail> {
    let p = ServiceId(P);
    open(services, P, &[])?;
    open(services, N, &[add(p), take_out(p), add(p)])
}

const EVENTS: [(Event, Happened); 14] = [
    (Event::Do(N), Happened::Did),
    (Event::Take(P, N), Happened::Took),
    (Event::Do(N), Happened::Did),
    (Event::Do(N), Happened::Did),
    (Event::Take(P, N), Happened::Took),
    (Event::Take(P, N), Happened::Took),
    (Event::Take(N, P), Happened::Took),
    (Event::Take(N, P), Happened::Took),
    (Event::Take(N, P), Happened::Took),
    (Event::Take(N, P), Happened::Took),
    (Event::Take(N, P), Happened::Idle),
    (Event::Turn(N), Happened::Turned(Turned::Advanced)),
    (Event::Turn(N), Happened::Turned(Turned::Computed)),
    (Event::Turn(N), Happened::Turned(Turned::Still)),
];

// What `n` did and sent.
const ASKED: [Done<'static>; 6] = [
    Done::Did(2),
    Done::Sent(P, &[1, 0, 0, 0, 2]),
    Done::Did(3),
    Done::Sent(P, &[2, 0, 0, 0, 2]),
    Done::Did(4),
    Done::Sent(P, &[1, 0, 0, 0, 4]),
];

// What `p` answered.
const ANSWERED: [Done<'static>; 4] = [
    Done::Sent(N, &[3, 0, 0, 0, 2, 1, 0, 0]),
    Done::Sent(
        N,
        &[5, 0, 0, 0, 2, 1, 0, 0, 0, 0, 0, 0, 0, 5, 1, 0, 0, 0, 0, 1],
    ),
    Done::Sent(N, &[3, 0, 0, 0, 4, 1, 0, 0]),
    Done::Sent(
        N,
        &[5, 0, 0, 0, 4, 1, 0, 0, 0, 0, 0, 0, 0, 5, 1, 0, 0, 0, 0, 1],
    ),
];

const COMPUTED: [Row<'static>; 1] = [(5, &[(P, 1), (N, 4)], &[1])];

// The two legs.
fn played(rt: &impl Abort, alloc: Global, services: &mut [Service]) -> Result<(), Fail> {
    settled(alloc, services)?;
    opened(services)?;
    happen(rt, services, &EVENTS)?;
    assert!(rt; makes(log(services, N), &ASKED));
    assert!(rt; makes(log(services, P), &ANSWERED));
    assert!(rt; computes(log(services, N), &COMPUTED));
    Ok(())
}

#[test]
fn edges_come_and_go(rt: HostRuntime) -> Result<(), Fail> {
    let mut services = unborn(rt.alloc(), &SERVICES)?;
    played(&rt, rt.alloc(), &mut services)
}
