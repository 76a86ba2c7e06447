// Tables of what comes to a slot, in each order of epochs.
ghost use Rattle.std.specs.Prelude.{◌≡◌, ◌<◌, length};
ghost use Rattle.propagation.specs.Stamps.{RisePairs};
ghost use Rattle.wire_frame.specs.Frames.{pairs};

use pred_queue::{Put, Slot, SlotError};
use std::alloc::Global;
use std::marker::Brand;
use std::process::Abort;
use std::sync::ledger::{Blank, Ledger};
use std::test::Fail;
use svc_value::{Clock, OutOfMemory, ServiceId, Steps, Value, put_value};
use wire_frame::{FrameRef, PlaceClock, read_frame_ref};

/// What comes. A value is a number; its clocks are all that number.
#[derive(Clone, Copy, Debug, PartialEq, Eq)]
enum Step {
    /// The keys 0 and 3 under an epoch.
    Keys { epoch: u32 },
    /// A value that names both places.
    Whole { own: u32, epoch: u32, number: u16 },
    /// A value that names the second place.
    Part { own: u32, epoch: u32, number: u16 },
    /// A value that names the third place.
    Outside { own: u32, epoch: u32, number: u16 },
    /// The next value becomes the head.
    Advance,
    /// The edge has this epoch at this clock.
    Edge { clock: u32, epoch: u32 },
    /// There is no edge at this clock.
    NoEdge { clock: u32 },
}

#[derive(Clone, Copy, Debug, PartialEq, Eq)]
enum Answer {
    Done,
    Kept,
    Dropped,
    Still,
    /// The bytes are no value of version 2.
    Unread,
    Refused(SlotError),
}

/// How the clocks of a value are lent.
#[derive(Clone, Copy)]
enum Way {
    /// As a list.
    List,
    /// By the bytes of a frame, in memory of this allocator.
    Bytes(Global),
}

fn answer_of(put: Result<Put, (SlotError, Value)>) -> Answer {
    match put {
        Ok(Put::Kept) => Answer::Kept,
        Ok(Put::Dropped) => Answer::Dropped,
        Err(refused) => Answer::Refused(refused.0),
    }
}

fn put(
    slot: &mut Slot,
    way: Way,
    own: u32,
    epoch: u32,
    number: u16,
    clocks: &[PlaceClock],
) -> Answer
    requires rise { RisePairs 0 (pairs clocks.now) }
    requires few { length clocks.now < 256 }
{
    let value = Value::Int(number as i64);
    match way {
        Way::List => answer_of(slot.put(Clock(own), Clock(epoch), value, clocks)),
        Way::Bytes(alloc) => match bytes_of(alloc, epoch, &value, clocks) {
            Ok(bytes) => put_bytes(alloc, slot, own, bytes.as_slice()),
            Err(OutOfMemory) => refused(SlotError::OutOfMemory),
        },
    }
}

fn put_bytes(alloc: Global, slot: &mut Slot, own: u32, bytes: &[u8]) -> Answer {
    match read_frame_ref(alloc, bytes) {
        Ok((FrameRef::Changed(delta), _)) => {
            answer_of(slot.put_places(Clock(own), delta.epoch, delta.value, delta.clocks))
        }
        _ => Answer::Unread,
    }
}

// The bytes of a value of version 2.
fn bytes_of(
    alloc: Global,
    epoch: u32,
    value: &Value,
    clocks: &[PlaceClock],
) -> Result<Vec<u8>, OutOfMemory>
    requires { length clocks.now < 256 }
{
    let mut bytes = Vec::from_slice(alloc, &[5])?;
    bytes.extend_from_slice(&epoch.to_be_bytes())?;
    put_value(value, &mut bytes)?;
    bytes.push(clocks.len() as u8)?;
    for named in clocks {
        bytes.push(named.place)?;
        bytes.extend_from_slice(&named.clock.0.to_be_bytes())?;
    }
    Ok(bytes)
}

fn named(place: u8, number: u16) -> PlaceClock
    ensures place { result.place ≡ place }
    ensures clock { 0 < result.clock }
{
    PlaceClock {
        place,
        clock: Clock(u32::from(number) + 1),
    }
}

fn advance_with<M: Ledger>(slot: &mut Slot, blank: Blank) -> Answer
    requires name { blank.name ≡ M.name }
    requires parts { blank.parts ≡ M.parts }
    requires some { 0 < blank.parts }
{
    let mut moves = Steps::<M>::new(blank);
    if !slot.has_next() {
        return Answer::Still;
    }
    slot.advance(&mut moves);
    Answer::Done
}

fn advance(slot: &mut Slot) -> Answer {
    advance_with::<Brand>(slot, Blank::new(1))
}

fn take(slot: &mut Slot, way: Way, step: Step) -> Answer {
    match step {
        Step::Keys { epoch } => match slot.announce(Clock(epoch), &[ServiceId(0), ServiceId(3)]) {
            Ok(()) => Answer::Done,
            Err(error) => Answer::Refused(error),
        },
        Step::Whole { own, epoch, number } => {
            put(
                slot,
                way,
                own,
                epoch,
                number,
                &[named(0, number), named(1, number)],
            )
        }
        Step::Part { own, epoch, number } => put(
            slot,
            way,
            own,
            epoch,
            number,
            &[named(1, number)],
        ),
        Step::Outside { own, epoch, number } => put(
            slot,
            way,
            own,
            epoch,
            number,
            &[named(2, number)],
        ),
        Step::Advance => advance(slot),
        Step::Edge { clock, epoch } => {
            slot.cut(Clock(clock), Some(Clock(epoch)));
            Answer::Done
        }
        Step::NoEdge { clock } => {
            slot.cut(Clock(clock), None);
            Answer::Done
        }
    }
}

// The head's number and clocks, 0 where they are missing: the number among those that came, the value, and the clocks of
// the keys 0 and 3.
fn head_of(slot: &Slot) -> (u64, i64, u32, u32) {
    match slot.head() {
        None => (0, 0, 0, 0),
        Some(head) => (
            slot.number(),
            match &head.value {
                Value::Int(number) => *number,
                _ => 0,
            },
            head.stamps.get(ServiceId(0)).unwrap_or(Clock(0)).0,
            head.stamps.get(ServiceId(3)).unwrap_or(Clock(0)).0,
        ),
    }
}

type Row<'a> = (&'a str, Step, Answer, (u64, i64, u32, u32));

fn run(rt: &impl Abort, slot: &mut Slot, way: Way, rows: &[Row<'_>]) {
    for (name, step, answer, head) in rows {
        assert_eq!(rt; take(slot, way, *step), *answer, "{name}");
        assert_eq!(rt; head_of(slot), *head, "the head, {name}");
    }
}

const NONE: (u64, i64, u32, u32) = (0, 0, 0, 0);

fn keys(epoch: u32) -> Step {
    Step::Keys { epoch }
}

fn whole(own: u32, epoch: u32, number: u16) -> Step {
    Step::Whole { own, epoch, number }
}

fn part(own: u32, epoch: u32, number: u16) -> Step {
    Step::Part { own, epoch, number }
}

fn outside(own: u32, epoch: u32, number: u16) -> Step {
    Step::Outside { own, epoch, number }
}

fn refused(error: SlotError) -> Answer {
    Answer::Refused(error)
}

fn back() -> Answer {
    refused(SlotError::EpochBack { had: Clock(4) })
}

fn beyond() -> Answer {
    refused(SlotError::WrongPlace {
        announced: 2,
        place: 2,
    })
}

fn half() -> Answer {
    refused(SlotError::NotWhole {
        announced: 2,
        carried: 1,
    })
}

fn unheard() -> Answer {
    refused(SlotError::NoSources)
}

#[test]
fn epochs_in_each_order(rt: HostRuntime) {
    each_order(&rt, rt.alloc(), Way::List);
    each_order(&rt, rt.alloc(), Way::Bytes(rt.alloc()));
}

fn each_order(rt: &impl Abort, alloc: Global, way: Way) {
    let mut slot = Slot::new(alloc, ServiceId(3), Some(Clock(2)));
    run(
        rt,
        &mut slot,
        way,
        &[
            ("nothing announced", whole(2, 2, 5), unheard(), NONE),
            ("keys", keys(2), Answer::Done, NONE),
            ("another epoch", whole(2, 1, 5), unheard(), NONE),
            ("a later epoch", whole(2, 3, 5), unheard(), NONE),
            ("a place too far", outside(2, 2, 5), beyond(), NONE),
            ("not whole", part(2, 2, 5), half(), NONE),
            ("nothing waits", Step::Advance, Answer::Still, NONE),
            ("whole", whole(2, 2, 5), Answer::Kept, NONE),
            ("a changed clock", part(2, 2, 6), Answer::Kept, NONE),
            ("first", Step::Advance, Answer::Done, (1, 5, 6, 6)),
            ("second", Step::Advance, Answer::Done, (2, 6, 6, 7)),
            ("no third", Step::Advance, Answer::Still, (2, 6, 6, 7)),
            ("a later epoch of keys", keys(4), Answer::Done, (2, 6, 6, 7)),
            ("an earlier one", keys(3), back(), (2, 6, 6, 7)),
            ("the same again", keys(4), Answer::Done, (2, 6, 6, 7)),
            ("clocks are forgotten", part(2, 4, 7), half(), (2, 6, 6, 7)),
            (
                "under a later epoch",
                whole(2, 4, 8),
                Answer::Kept,
                (2, 6, 6, 7),
            ),
            ("it is not next", Step::Advance, Answer::Still, (2, 6, 6, 7)),
        ],
    );
}

#[test]
fn cut_on_both_sides(rt: HostRuntime) -> Result<(), Fail> {
    both_sides(&rt, rt.alloc(), Way::List)?;
    both_sides(&rt, rt.alloc(), Way::Bytes(rt.alloc()))
}

fn both_sides(rt: &impl Abort, alloc: Global, way: Way) -> Result<(), Fail> {
    let mut slot = Slot::new(alloc, ServiceId(3), Some(Clock(2)));
    run(
        rt,
        &mut slot,
        way,
        &[
            ("keys under 2", keys(2), Answer::Done, NONE),
            ("of the edge", whole(2, 2, 5), Answer::Kept, NONE),
            ("of the edge again", whole(2, 2, 6), Answer::Kept, NONE),
            ("the head", Step::Advance, Answer::Done, (1, 5, 6, 6)),
            (
                "the edge stays",
                Step::Edge { clock: 3, epoch: 2 },
                Answer::Done,
                (1, 5, 6, 6),
            ),
            ("keys under 4", keys(4), Answer::Done, (1, 5, 6, 6)),
            (
                "above the clock",
                whole(3, 4, 7),
                Answer::Kept,
                (1, 5, 6, 6),
            ),
            (
                "the edge goes",
                Step::NoEdge { clock: 4 },
                Answer::Done,
                NONE,
            ),
            (
                "and what waited",
                Step::Edge { clock: 4, epoch: 4 },
                Answer::Done,
                NONE,
            ),
            ("nothing is left", Step::Advance, Answer::Still, NONE),
            ("of the new edge", part(4, 4, 8), Answer::Kept, NONE),
            ("without one", Step::NoEdge { clock: 3 }, Answer::Done, NONE),
            (
                "the edge is back",
                Step::Edge { clock: 4, epoch: 4 },
                Answer::Done,
                NONE,
            ),
            (
                "it came above the clock",
                Step::Advance,
                Answer::Done,
                (1, 8, 8, 9),
            ),
            (
                "neither edge nor above",
                whole(5, 4, 9),
                Answer::Kept,
                (1, 8, 8, 9),
            ),
            (
                "another edge",
                Step::Edge { clock: 5, epoch: 5 },
                Answer::Done,
                NONE,
            ),
            ("of a dead epoch", whole(5, 4, 9), Answer::Dropped, NONE),
        ],
    );
    assert!(rt; slot.is_idle());
    assert_eq!(rt; slot.sender(), ServiceId(3));
    let mut copy = slot.copy()?;
    copy.begin_leg();
    assert_eq!(rt; head_of(&copy), NONE);
    Ok(())
}

// The stamps of the head, as pairs of key and clock.
fn stamps_of(alloc: Global, slot: &Slot) -> Result<Vec<(u16, u32)>, OutOfMemory> {
    let mut pairs = Vec::new(alloc);
    if let Some(head) = slot.head() {
        for (key, clock) in head.stamps.iter() {
            pairs.push((key.0, clock.0))?;
        }
    }
    Ok(pairs)
}

#[test]
fn stamps_in_memory_used_again(rt: HostRuntime) -> Result<(), Fail> {
    let alloc = rt.alloc();
    let way = Way::Bytes(alloc);
    let mut slot = Slot::new(alloc, ServiceId(3), Some(Clock(2)));
    let keys = [ServiceId(0), ServiceId(3), ServiceId(5)];
    assert!(rt; slot.announce(Clock(2), &keys).is_ok());
    let all = [named(0, 5), named(1, 5), named(2, 5)];
    assert_eq!(rt; put(&mut slot, way, 2, 2, 5, &all), Answer::Kept);
    assert_eq!(rt; advance(&mut slot), Answer::Done);
    assert_eq!(rt; put(&mut slot, way, 2, 2, 6, &[named(2, 6)]), Answer::Kept);
    assert_eq!(rt; advance(&mut slot), Answer::Done);
    assert_eq!(rt; put(&mut slot, way, 2, 2, 7, &[named(0, 7)]), Answer::Kept);
    assert_eq!(rt; advance(&mut slot), Answer::Done);
    let stamps = stamps_of(alloc, &slot)?;
    assert_eq!(rt; stamps.as_slice(), [(0, 8), (3, 6), (5, 7)].as_slice());

    assert!(rt;
        slot.announce(Clock(2), &[ServiceId(1), ServiceId(4)])
            .is_ok()
    );
    assert_eq!(rt;
        put(&mut slot, way, 2, 2, 1, &[named(0, 1), named(1, 1)]),
        Answer::Kept
    );
    assert_eq!(rt; advance(&mut slot), Answer::Done);
    let stamps = stamps_of(alloc, &slot)?;
    assert_eq!(rt; stamps.as_slice(), [(1, 2), (4, 2)].as_slice());
    assert_eq!(rt; put(&mut slot, way, 2, 2, 2, &[named(1, 2)]), Answer::Kept);
    assert_eq!(rt; put(&mut slot, way, 2, 2, 3, &[]), Answer::Kept);
    assert_eq!(rt; advance(&mut slot), Answer::Done);
    assert_eq!(rt; advance(&mut slot), Answer::Done);
    let stamps = stamps_of(alloc, &slot)?;
    assert_eq!(rt; stamps.as_slice(), [(1, 2), (4, 3)].as_slice());
    Ok(())
}
