// Of several reasons to refuse a frame, the first is told: most rows meet the conditions of the next ones too.
use super::middle::{born, middle};
use super::offering::{Offer, offer, sends};
use super::services::Service;
use node_core::{TakeRefusal, Turned};
use pred_queue::SlotError;
use rewire_core::ReaderError;
use std::alloc::Global;
use std::process::Abort;
use std::test::Fail;
use svc_value::{Clock, ServiceId};
use wire_frame::FrameReason;

// The key of the service 0 under the epoch 1, the value 3 with it, and the key under the epoch 2.
const FIRST: [Offer<'static>; 2] = [
    (0, &[3, 0, 0, 0, 1, 1, 0, 0], None),
    (
        0,
        &[5, 0, 0, 0, 1, 1, 0, 0, 0, 0, 0, 0, 0, 3, 1, 0, 0, 0, 0, 1],
        None,
    ),
];

const AGAIN: [Offer<'static>; 1] = [(0, &[3, 0, 0, 0, 2, 1, 0, 0], None)];

// The first frames are taken, and the subscribe is handed over.
fn taken(rt: &impl Abort, alloc: Global, service: &mut Service) -> Result<(), Fail> {
    sends(rt, service, 0, &[1, 0, 0, 0, 1]);
    offer(rt, alloc, service, &FIRST)
}

// The value is computed with.
fn computed(rt: &impl Abort, service: &mut Service) -> Result<(), Fail> {
    assert_eq!(rt; service.turn()?, Turned::Advanced);
    assert_eq!(rt; service.turn()?, Turned::Computed);
    Ok(())
}

// The service in the middle has computed 3, of the service 0, which then announced its key under the epoch 2. Nothing waits to
// be handed over.
fn settled(rt: &impl Abort, alloc: Global, service: &mut Service) -> Result<(), Fail> {
    born(alloc, service)?;
    taken(rt, alloc, service)?;
    computed(rt, service)?;
    offer(rt, alloc, service, &AGAIN)
}

// Nothing waits to be handed over to the service before or behind.
fn silent(rt: &impl Abort, service: &mut Service) {
    sends(rt, service, 0, &[]);
    sends(rt, service, 2, &[]);
}

// These are refused, and nothing is sent.
fn refused(
    rt: &impl Abort,
    alloc: Global,
    service: &mut Service,
    offers: &[Offer<'_>],
) -> Result<(), Fail> {
    silent(rt, service);
    offer(rt, alloc, service, offers)?;
    silent(rt, service);
    Ok(())
}

// The settled service refuses these.
fn settled_refuses(
    rt: &impl Abort,
    alloc: Global,
    service: &mut Service,
    offers: &[Offer<'_>],
) -> Result<(), Fail> {
    settled(rt, alloc, service)?;
    refused(rt, alloc, service, offers)
}

// A new one does.
fn refuses(rt: &impl Abort, alloc: Global, offers: &[Offer<'_>]) -> Result<(), Fail> {
    let mut service = middle(alloc)?;
    settled_refuses(rt, alloc, &mut service, offers)
}

// Keys of a service that is not below, which are not its own, and of which one is unknown; keys without the sender's, of which one
// is not below, under an epoch before; the same with the sender's, where two are not below; and its own alone, under that epoch.
const SOURCES: [Offer<'static>; 4] = [
    (2, &[3, 0, 0, 0, 1, 1, 0, 7], Some(TakeRefusal::NotBelow)),
    (0, &[3, 0, 0, 0, 1, 1, 0, 1], Some(TakeRefusal::NoSelf)),
    (
        0,
        &[3, 0, 0, 0, 1, 3, 0, 0, 0, 1, 0, 2],
        Some(TakeRefusal::KeyRank { key: ServiceId(1) }),
    ),
    (
        0,
        &[3, 0, 0, 0, 1, 1, 0, 0],
        Some(TakeRefusal::Slot(SlotError::EpochBack { had: Clock(2) })),
    ),
];

#[test]
fn the_first_reason_is_told_of_sources(rt: HostRuntime) -> Result<(), Fail> {
    refuses(&rt, rt.alloc(), &SOURCES)
}

// Values of a service that is not below, of another type, without keys; of another type, under another epoch, with a place that is
// none of the keys'; of that epoch, with two such places, which are more than the keys; with two such places; and with none.
const VALUES: [Offer<'static>; 5] = [
    (
        2,
        &[5, 0, 0, 0, 1, 2, 0, 1, 97, 1, 1, 0, 0, 0, 1],
        Some(TakeRefusal::NotBelow),
    ),
    (
        0,
        &[5, 0, 0, 0, 1, 2, 0, 1, 97, 1, 1, 0, 0, 0, 1],
        Some(TakeRefusal::WrongType),
    ),
    (
        0,
        &[
            5, 0, 0, 0, 1, 1, 0, 0, 0, 0, 0, 0, 0, 3, 2, 1, 0, 0, 0, 1, 2, 0, 0, 0, 1,
        ],
        Some(TakeRefusal::Slot(SlotError::NoSources)),
    ),
    (
        0,
        &[
            5, 0, 0, 0, 2, 1, 0, 0, 0, 0, 0, 0, 0, 3, 3, 0, 0, 0, 0, 1, 1, 0, 0, 0, 1, 2, 0, 0, 0,
            1,
        ],
        Some(TakeRefusal::Slot(SlotError::WrongPlace {
            announced: 1,
            place: 1,
        })),
    ),
    (
        0,
        &[5, 0, 0, 0, 2, 1, 0, 0, 0, 0, 0, 0, 0, 3, 0],
        Some(TakeRefusal::Slot(SlotError::NotWhole {
            announced: 1,
            carried: 0,
        })),
    ),
];

#[test]
fn the_first_reason_is_told_of_values(rt: HostRuntime) -> Result<(), Fail> {
    refuses(&rt, rt.alloc(), &VALUES)
}

// Bytes of no kind; a value of version 1, of another type and of a service that is not below, with a byte behind it, and without;
// and frames of the other kinds with a byte behind them, each of which would be refused without it too.
const FRAMES: [Offer<'static>; 7] = [
    (
        2,
        &[6, 0, 0, 0, 1, 0],
        Some(TakeRefusal::Frame {
            place: 0,
            reason: FrameReason::Kind,
        }),
    ),
    (
        2,
        &[4, 0, 0, 0, 1, 2, 0, 1, 97, 1, 0, 0, 0, 1, 0],
        Some(TakeRefusal::Frame {
            place: 14,
            reason: FrameReason::Rest,
        }),
    ),
    (
        2,
        &[4, 0, 0, 0, 1, 2, 0, 1, 97, 1, 0, 0, 0, 1],
        Some(TakeRefusal::Old),
    ),
    (
        0,
        &[1, 0, 0, 0, 1, 0],
        Some(TakeRefusal::Frame {
            place: 5,
            reason: FrameReason::Rest,
        }),
    ),
    (
        2,
        &[2, 0, 0, 0, 1, 0],
        Some(TakeRefusal::Frame {
            place: 5,
            reason: FrameReason::Rest,
        }),
    ),
    (
        2,
        &[3, 0, 0, 0, 1, 1, 0, 7, 0],
        Some(TakeRefusal::Frame {
            place: 8,
            reason: FrameReason::Rest,
        }),
    ),
    (
        2,
        &[5, 0, 0, 0, 1, 2, 0, 1, 97, 1, 1, 0, 0, 0, 1, 0],
        Some(TakeRefusal::Frame {
            place: 15,
            reason: FrameReason::Rest,
        }),
    ),
];

#[test]
fn the_first_reason_is_told_of_frames(rt: HostRuntime) -> Result<(), Fail> {
    refuses(&rt, rt.alloc(), &FRAMES)
}

// The service behind reads under the epoch 5.
const READS: [Offer<'static>; 1] = [(2, &[1, 0, 0, 0, 5], None)];

// Then one before asks to read, the one behind asks again under an epoch before, and it no longer reads under an epoch that it
// does not read under.
const READING: [Offer<'static>; 3] = [
    (
        0,
        &[1, 0, 0, 0, 1],
        Some(TakeRefusal::Reader(ReaderError::RankNotHigher)),
    ),
    (
        2,
        &[1, 0, 0, 0, 3],
        Some(TakeRefusal::Reader(ReaderError::Twice)),
    ),
    (
        2,
        &[2, 0, 0, 0, 3],
        Some(TakeRefusal::Reader(ReaderError::Unknown)),
    ),
];

// It no longer reads.
const GOES: [Offer<'static>; 1] = [(2, &[2, 0, 0, 0, 5], None)];

// Then it asks under the same epoch, and no longer reads a second time.
const GONE: [Offer<'static>; 2] = [
    (
        2,
        &[1, 0, 0, 0, 5],
        Some(TakeRefusal::Reader(ReaderError::EpochBack { had: Clock(5) })),
    ),
    (
        2,
        &[2, 0, 0, 0, 5],
        Some(TakeRefusal::Reader(ReaderError::Unknown)),
    ),
];

// What `n` sends to a new reader.
fn told(rt: &impl Abort, service: &mut Service) {
    sends(rt, service, 2, &[3, 0, 0, 0, 5, 2, 0, 0, 0, 1]);
    sends(
        rt,
        service,
        2,
        &[
            5, 0, 0, 0, 5, 1, 0, 0, 0, 0, 0, 0, 0, 3, 2, 0, 0, 0, 0, 1, 1, 0, 0, 0, 1,
        ],
    );
}

// It reads, and all else is refused.
fn reads(rt: &impl Abort, alloc: Global, service: &mut Service) -> Result<(), Fail> {
    offer(rt, alloc, service, &READS)?;
    told(rt, service);
    refused(rt, alloc, service, &READING)
}

// It goes, and all else is refused.
fn goes(rt: &impl Abort, alloc: Global, service: &mut Service) -> Result<(), Fail> {
    offer(rt, alloc, service, &GOES)?;
    refused(rt, alloc, service, &GONE)
}

// A reader comes to the settled service, and goes.
fn comes_and_goes(rt: &impl Abort, alloc: Global, service: &mut Service) -> Result<(), Fail> {
    settled(rt, alloc, service)?;
    reads(rt, alloc, service)?;
    goes(rt, alloc, service)
}

#[test]
fn the_first_reason_is_told_of_readers(rt: HostRuntime) -> Result<(), Fail> {
    let mut service = middle(rt.alloc())?;
    comes_and_goes(&rt, rt.alloc(), &mut service)
}
