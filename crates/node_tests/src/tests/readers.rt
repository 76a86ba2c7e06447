// A reader that comes, goes and comes again in one leg, and frames to it that are given back.
use super::offering::{Offer, offer, sends};
use super::services::Service;
use super::written::input;
use node_core::{TakeRefusal, Turned};
use rewire_core::ReaderError;
use std::alloc::Global;
use std::process::Abort;
use std::test::Fail;
use svc_value::{Clock, ServiceId, ValueType};

const SERVICES: [(&'static str, u16); 2] = [("x", 0), ("r", 1)];

const SUBSCRIBE: [Offer<'static>; 1] = [(1, &[1, 0, 0, 0, 2], None)];

const UNSUBSCRIBE: [Offer<'static>; 1] = [(1, &[2, 0, 0, 0, 2], None)];

// Under the epoch that it had, and under one before.
const AGAIN: [Offer<'static>; 2] = [
    (
        1,
        &[1, 0, 0, 0, 2],
        Some(TakeRefusal::Reader(ReaderError::EpochBack { had: Clock(2) })),
    ),
    (
        1,
        &[1, 0, 0, 0, 1],
        Some(TakeRefusal::Reader(ReaderError::EpochBack { had: Clock(2) })),
    ),
];

const LATER: [Offer<'static>; 1] = [(1, &[1, 0, 0, 0, 3], None)];

// The input, unborn.
fn first(alloc: Global) -> Result<Service, Fail> {
    Service::new(alloc, ServiceId(0), ValueType::Int, &SERVICES)
}

// It has computed 3.
fn computed(rt: &impl Abort, service: &mut Service) -> Result<(), Fail> {
    service.open(&[input(3)])?;
    service.change()?;
    assert_eq!(rt; service.turn()?, Turned::Computed);
    Ok(())
}

// The last emission is sent under the epoch, and nothing else.
fn told(rt: &impl Abort, service: &mut Service, epoch: u8) {
    sends(rt, service, 1, &[3, 0, 0, 0, epoch, 1, 0, 0]);
    sends(
        rt,
        service,
        1,
        &[
            5, 0, 0, 0, epoch, 1, 0, 0, 0, 0, 0, 0, 0, 3, 1, 0, 0, 0, 0, 1,
        ],
    );
    sends(rt, service, 1, &[]);
}

// The reader comes, goes and comes again.
fn comes_again(rt: &impl Abort, alloc: Global, service: &mut Service) -> Result<(), Fail> {
    computed(rt, service)?;
    offer(rt, alloc, service, &SUBSCRIBE)?;
    told(rt, service, 2);
    offer(rt, alloc, service, &UNSUBSCRIBE)?;
    offer(rt, alloc, service, &AGAIN)?;
    sends(rt, service, 1, &[]);
    offer(rt, alloc, service, &LATER)?;
    told(rt, service, 3);
    Ok(())
}

#[test]
fn a_reader_comes_again(rt: HostRuntime) -> Result<(), Fail> {
    let mut service = first(rt.alloc())?;
    comes_again(&rt, rt.alloc(), &mut service)
}

// A frame that is given back is handed over next.
fn goes_back(rt: &impl Abort, alloc: Global, service: &mut Service) -> Result<(), Fail> {
    computed(rt, service)?;
    assert!(rt; !service.give_back(ServiceId(1)));
    offer(rt, alloc, service, &SUBSCRIBE)?;
    assert!(rt; service.give_back(ServiceId(1)));
    told(rt, service, 2);
    assert!(rt; !service.give_back(ServiceId(1)));
    Ok(())
}

#[test]
fn a_frame_goes_back(rt: HostRuntime) -> Result<(), Fail> {
    let mut service = first(rt.alloc())?;
    goes_back(&rt, rt.alloc(), &mut service)
}
