// Values under an epoch that is still to come wait for the change that brings the edge.
use super::events::{Event, Happened, change_all, derive, happen, log, open, settle, unborn};
use super::logs::{Row, computes};
use super::offering::{Offer, offer};
use super::services::Service;
use super::written::{add, input};
use node_core::Turned;
use std::alloc::Global;
use std::process::Abort;
use std::test::Fail;
use svc_value::ServiceId;

const P: u16 = 0;

const N: u16 = 1;

const SERVICES: [(&'static str, u16); 2] = [("p", 0), ("n", 1)];

// The input `p` and the sum `n` of no members have computed, and in the next leg `n` adds `p`.
fn opened(alloc: Global, services: &mut [Service]) -> Result<(), Fail> {
    open(services, P, &[input(4)])?;
    derive(alloc, services, N, "sum()", &[], &[])?;
    change_all(services)?;
    settle(services, 2)?;
    open(services, N, &[add(ServiceId(P))])
}

// Under the present clock of `n`, which has no such edge, the value 4; and under the next one 5 and 6.
const OFFERS: [Offer<'static>; 5] = [
    (P, &[3, 0, 0, 0, 1, 1, 0, 0], None),
    (
        P,
        &[5, 0, 0, 0, 1, 1, 0, 0, 0, 0, 0, 0, 0, 4, 1, 0, 0, 0, 0, 1],
        None,
    ),
    (P, &[3, 0, 0, 0, 2, 1, 0, 0], None),
    (
        P,
        &[5, 0, 0, 0, 2, 1, 0, 0, 0, 0, 0, 0, 0, 5, 1, 0, 0, 0, 0, 2],
        None,
    ),
    (
        P,
        &[5, 0, 0, 0, 2, 1, 0, 0, 0, 0, 0, 0, 0, 6, 1, 0, 0, 0, 0, 3],
        None,
    ),
];

const EVENTS: [(Event, Happened); 7] = [
    (Event::Turn(N), Happened::Turned(Turned::Still)),
    (Event::Do(N), Happened::Did),
    (Event::Turn(N), Happened::Turned(Turned::Advanced)),
    (Event::Turn(N), Happened::Turned(Turned::Computed)),
    (Event::Turn(N), Happened::Turned(Turned::Advanced)),
    (Event::Turn(N), Happened::Turned(Turned::Computed)),
    (Event::Turn(N), Happened::Turned(Turned::Still)),
];

const COMPUTED: [Row<'static>; 2] = [(5, &[(P, 2), (N, 2)], &[1]), (6, &[(P, 3), (N, 2)], &[2])];

// The frames are offered to `n`.
fn offered(rt: &impl Abort, alloc: Global, services: &mut [Service]) -> Result<(), Fail> {
    let [_, n] = services else {
        return Err("there are not two services".into());
    };
    offer(rt, alloc, n, &OFFERS)
}

// The two legs.
fn played(rt: &impl Abort, alloc: Global, services: &mut [Service]) -> Result<(), Fail> {
    opened(alloc, services)?;
    offered(rt, alloc, services)?;
    happen(rt, services, &EVENTS)?;
    assert!(rt; computes(log(services, N), &COMPUTED));
    Ok(())
}

#[test]
fn values_wait_for_their_edge(rt: HostRuntime) -> Result<(), Fail> {
    let mut services = unborn(rt.alloc(), &SERVICES)?;
    played(&rt, rt.alloc(), &mut services)
}
