// Frames that are offered to a service in the middle, and why some are refused.
ghost use Rattle.std.specs.Prelude.{◌<◌};

use super::middle::{born, middle};
use super::offering::{Offer, offer};
use super::services::Service;
use node_core::TakeRefusal;
use pred_queue::SlotError;
use rewire_core::ReaderError;
use std::alloc::Global;
use std::process::Abort;
use std::test::Fail;
use svc_value::{Clock, ServiceId, ValueReason};
use wire_frame::FrameReason;

const SOURCES: [Offer<'static>; 5] = [
    (
        0,
        &[5, 0, 0, 0, 1, 1, 0, 0, 0, 0, 0, 0, 0, 3, 1, 0, 0, 0, 0, 1],
        Some(TakeRefusal::Slot(SlotError::NoSources)),
    ),
    (0, &[3, 0, 0, 0, 1, 1, 0, 1], Some(TakeRefusal::NoSelf)),
    (
        0,
        &[3, 0, 0, 0, 1, 2, 0, 0, 0, 1],
        Some(TakeRefusal::KeyRank { key: ServiceId(1) }),
    ),
    (7, &[3, 0, 0, 0, 1, 1, 0, 7], Some(TakeRefusal::NotBelow)),
    (0, &[3, 0, 0, 0, 1, 1, 0, 0], None),
];

const VALUES: [Offer<'static>; 7] = [
    (
        0,
        &[5, 0, 0, 0, 1, 1, 0, 0, 0, 0, 0, 0, 0, 3, 0],
        Some(TakeRefusal::Slot(SlotError::NotWhole {
            announced: 1,
            carried: 0,
        })),
    ),
    (
        0,
        &[5, 0, 0, 0, 1, 1, 0, 0, 0, 0, 0, 0, 0, 3, 1, 1, 0, 0, 0, 1],
        Some(TakeRefusal::Slot(SlotError::WrongPlace {
            announced: 1,
            place: 1,
        })),
    ),
    (
        0,
        &[5, 0, 0, 0, 1, 2, 0, 1, 97, 1, 0, 0, 0, 0, 1],
        Some(TakeRefusal::WrongType),
    ),
    (
        0,
        &[4, 0, 0, 0, 1, 1, 0, 0, 0, 0, 0, 0, 0, 3, 1, 0, 0, 0, 1],
        Some(TakeRefusal::Old),
    ),
    (
        0,
        &[1, 0, 0, 0, 1, 0],
        Some(TakeRefusal::Frame {
            place: 5,
            reason: FrameReason::Rest,
        }),
    ),
    (0, &[3, 0, 0, 0, 2, 1, 0, 0], None),
    (
        0,
        &[3, 0, 0, 0, 1, 1, 0, 0],
        Some(TakeRefusal::Slot(SlotError::EpochBack { had: Clock(2) })),
    ),
];

const READERS: [Offer<'static>; 6] = [
    (
        0,
        &[1, 0, 0, 0, 1],
        Some(TakeRefusal::Reader(ReaderError::RankNotHigher)),
    ),
    (
        2,
        &[2, 0, 0, 0, 1],
        Some(TakeRefusal::Reader(ReaderError::Unknown)),
    ),
    (2, &[1, 0, 0, 0, 1], None),
    (
        2,
        &[1, 0, 0, 0, 2],
        Some(TakeRefusal::Reader(ReaderError::Twice)),
    ),
    (2, &[2, 0, 0, 0, 1], None),
    (
        2,
        &[1, 0, 0, 0, 1],
        Some(TakeRefusal::Reader(ReaderError::EpochBack { had: Clock(1) })),
    ),
];

// All of them.
fn answered(rt: &impl Abort, alloc: Global, service: &mut Service) -> Result<(), Fail> {
    born(alloc, service)?;
    offer(rt, alloc, service, &SOURCES)?;
    offer(rt, alloc, service, &VALUES)?;
    offer(rt, alloc, service, &READERS)
}

#[test]
fn offered_frames_are_answered(rt: HostRuntime) -> Result<(), Fail> {
    let mut service = middle(rt.alloc())?;
    answered(&rt, rt.alloc(), &mut service)
}

const FIRST: [Offer<'static>; 1] = [(0, &[3, 0, 0, 0, 1, 1, 0, 0], None)];

const VALUE: [u8; 20] = [5, 0, 0, 0, 1, 1, 0, 0, 0, 0, 0, 0, 0, 3, 1, 0, 0, 0, 0, 1];

// Why the value is refused whose byte at the place is 255, if it is.
fn refusal_at(place: usize) -> Option<TakeRefusal> {
    let reason = match place {
        0 => FrameReason::Kind,
        5 => FrameReason::Value(ValueReason::Tag),
        14 => FrameReason::Count,
        15 => FrameReason::Places,
        1 | 2 | 3 | 4 => return Some(TakeRefusal::Slot(SlotError::NoSources)),
        _ => return None,
    };
    Some(TakeRefusal::Frame { place, reason })
}

// The service answers the value whose byte at the place is 255.
fn bent(rt: &impl Abort, alloc: Global, place: usize, service: &mut Service) -> Result<(), Fail>
    requires { place < 20 }
{
    born(alloc, service)?;
    offer(rt, alloc, service, &FIRST)?;
    let mut bytes = VALUE;
    bytes[place] = 0xff;
    offer(rt, alloc, service, &[(0, &bytes, refusal_at(place))])
}

// A new one does.
fn bent_at(rt: &impl Abort, alloc: Global, place: usize) -> Result<(), Fail>
    requires { place < 20 }
{
    let mut service = middle(alloc)?;
    bent(rt, alloc, place, &mut service)
}

#[test]
fn bent_frames_are_answered(rt: HostRuntime) -> Result<(), Fail> {
    for place in 0..20 {
        bent_at(&rt, rt.alloc(), place)?;
    }
    Ok(())
}
