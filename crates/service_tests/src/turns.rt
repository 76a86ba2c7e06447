// The turn table on two slots. The first depends on the services 0 and 1, the second on 0 and 2.
ghost use Rattle.std.specs.Prelude.{◌≡◌, ◌<◌, ◌≤◌, IfOk, length};
ghost use Rattle.stamp_match.specs.Kept.{IsMatcherOf};

use pred_queue::Slot;
use stamp_clock::{Floor, Stamps};
use stamp_match::{Choice, Matcher, choose};
use std::alloc::Global;
use std::marker::Brand;
use std::process::Abort;
use std::sync::ledger::{Blank, Ledger};
use std::test::Fail;
use svc_value::{Clock, OutOfMemory, ServiceId, Steps, Value};
use wire_frame::PlaceClock;

fn choose_with<L: Ledger>(slots: &[Slot], floor: &Floor, due: bool, blank: Blank) -> Choice
    requires name { blank.name ≡ L.name }
    requires parts { blank.parts ≡ L.parts }
    requires some { 0 < blank.parts }
{
    let mut looks = Steps::<L>::new(blank);
    choose(slots, floor, due, &mut looks)
}

pub(crate) fn choice_of(slots: &[Slot], floor: &Floor, due: bool) -> Choice {
    choose_with::<Brand>(slots, floor, due, Blank::new(1))
}

fn kept_choice_with<L: Ledger>(
    matcher: &Matcher,
    slots: &[Slot],
    floor: &Floor,
    due: bool,
    blank: Blank,
) -> Choice
    requires name { blank.name ≡ L.name }
    requires parts { blank.parts ≡ L.parts }
    requires some { 0 < blank.parts }
    requires matcher { IsMatcherOf slots.now floor.now matcher.now }
{
    let mut looks = Steps::<L>::new(blank);
    matcher.choice(slots, floor, due, &mut looks)
}

pub(crate) fn kept_choice_of(matcher: &Matcher, slots: &[Slot], floor: &Floor, due: bool) -> Choice
    requires { IsMatcherOf slots.now floor.now matcher.now }
{
    kept_choice_with::<Brand>(matcher, slots, floor, due, Blank::new(1))
}

fn advance_with<M: Ledger>(slot: &mut Slot, blank: Blank)
    requires name { blank.name ≡ M.name }
    requires parts { blank.parts ≡ M.parts }
    requires some { 0 < blank.parts }
{
    let mut moves = Steps::<M>::new(blank);
    if slot.has_next() {
        slot.advance(&mut moves);
    }
}

fn advance(slot: &mut Slot) {
    advance_with::<Brand>(slot, Blank::new(1));
}

/// What a slot has: values under an epoch, each with the clocks of the service 0 and of the sender, and whether the first
/// of them is the head.
#[derive(Drop)]
pub(crate) struct Given<'a> {
    epoch: u32,
    values: &'a [(u32, u32)],
    has_head: bool,
}

pub(crate) fn slot_of(alloc: Global, sender: u16, given: &Given<'_>) -> Result<Slot, Fail>
    requires some { 0 < sender }
    requires below { sender < 64 }
{
    let mut slot = Slot::new(alloc, ServiceId(sender), Some(Clock(1)));
    slot.announce(Clock(given.epoch), &[ServiceId(0), ServiceId(sender)])?;
    for (first, own) in given.values {
        if *first > 0 && *own > 0 {
            let clocks = [
                PlaceClock {
                    place: 0,
                    clock: Clock(*first),
                },
                PlaceClock {
                    place: 1,
                    clock: Clock(*own),
                },
            ];
            let _ = slot.put(Clock(1), Clock(given.epoch), Value::Int(0), &clocks);
        }
    }
    if given.has_head {
        advance(&mut slot);
    }
    Ok(slot)
}

fn floor_of(alloc: Global, clock: u32) -> Result<Floor, OutOfMemory> {
    let mut floor = Floor::new();
    if clock > 0 {
        floor.raise(&Stamps::one(alloc, ServiceId(0), Clock(clock))?)?;
    }
    Ok(floor)
}

#[derive(Drop)]
struct Case<'a> {
    name: &'a str,
    first: Given<'a>,
    second: Given<'a>,
    // The floor's clock of the service 0.
    floor: u32,
    due: bool,
    choice: Choice,
}

fn run(rt: &impl Abort, alloc: Global, case: &Case<'_>) -> Result<(), Fail> {
    let slots = [
        slot_of(alloc, 1, &case.first)?,
        slot_of(alloc, 2, &case.second)?,
    ];
    let floor = floor_of(alloc, case.floor)?;
    assert_eq!(rt;
        choice_of(&slots, &floor, case.due),
        case.choice,
        "{}",
        case.name
    );
    let matcher = Matcher::of(&slots, &floor);
    assert_eq!(rt;
        kept_choice_of(&matcher, &slots, &floor, case.due),
        case.choice,
        "{}, kept",
        case.name
    );
    Ok(())
}

fn head(values: &[(u32, u32)]) -> Given<'_> {
    Given {
        epoch: 1,
        values,
        has_head: true,
    }
}

pub(crate) fn waits(epoch: u32, values: &[(u32, u32)]) -> Given<'_> {
    Given {
        epoch,
        values,
        has_head: false,
    }
}

pub(crate) fn lags(slot: usize) -> Choice {
    Choice::Lags {
        slot,
        key: ServiceId(0),
    }
}

fn row<'a>(
    name: &'a str,
    first: Given<'a>,
    second: Given<'a>,
    floor: u32,
    due: bool,
    choice: Choice,
) -> Case<'a> {
    Case {
        name,
        first,
        second,
        floor,
        due,
        choice,
    }
}

#[test]
fn lagging_heads(rt: HostRuntime) -> Result<(), Fail> {
    let cases = [
        row("lags", head(&[(2, 1)]), head(&[(1, 1)]), 0, false, lags(1)),
        row(
            "lags, due",
            head(&[(2, 1)]),
            head(&[(1, 1)]),
            0,
            true,
            lags(1),
        ),
        row(
            "queued",
            head(&[(2, 1)]),
            head(&[(1, 1), (2, 1)]),
            0,
            true,
            Choice::Advance(1),
        ),
        row(
            "ready",
            head(&[(2, 1)]),
            head(&[(2, 1)]),
            0,
            true,
            Choice::Ready,
        ),
        row(
            "still",
            head(&[(2, 1)]),
            head(&[(2, 1)]),
            0,
            false,
            Choice::Still,
        ),
        row(
            "below the floor",
            head(&[(2, 1)]),
            head(&[(2, 1)]),
            3,
            true,
            lags(0),
        ),
        row(
            "the first that lags",
            head(&[(1, 1)]),
            head(&[(2, 1)]),
            3,
            true,
            lags(0),
        ),
    ];
    for case in &cases {
        run(&rt, rt.alloc(), case)?;
    }
    Ok(())
}

#[test]
fn headless_and_waiting(rt: HostRuntime) -> Result<(), Fail> {
    let cases = [
        row(
            "no head",
            waits(1, &[]),
            head(&[(1, 1)]),
            0,
            true,
            Choice::Empty(0),
        ),
        row(
            "the second has none",
            head(&[(1, 1)]),
            waits(1, &[]),
            0,
            true,
            Choice::Empty(1),
        ),
        row(
            "one waits",
            waits(1, &[(1, 1)]),
            waits(1, &[]),
            0,
            true,
            Choice::Advance(0),
        ),
        row(
            "a later epoch",
            waits(2, &[(1, 1)]),
            waits(1, &[]),
            0,
            true,
            Choice::Empty(0),
        ),
        row(
            "due first",
            head(&[(1, 1), (1, 2)]),
            head(&[(1, 1)]),
            0,
            true,
            Choice::Ready,
        ),
        row(
            "then what waits",
            head(&[(1, 1)]),
            head(&[(1, 1), (1, 2)]),
            0,
            false,
            Choice::Advance(1),
        ),
        row(
            "a higher own clock",
            head(&[(1, 9)]),
            head(&[(1, 1)]),
            0,
            false,
            Choice::Still,
        ),
    ];
    for case in &cases {
        run(&rt, rt.alloc(), case)?;
    }
    Ok(())
}
