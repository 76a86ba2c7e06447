// A matcher through steps of two slots: after each it answers as `choose`. The first depends on the services 0 and 1, the
// second on 0 and 2.
ghost use Rattle.std.specs.Prelude.{◌≡◌, ◌<◌, ◌≤◌, length, IfOk};
ghost use Rattle.stamp_match.specs.Kept.{IsMatcherOf};

use crate::turns::{choice_of, kept_choice_of, lags, slot_of, waits};
use pred_queue::Slot;
use stamp_clock::{Floor, Stamps};
use stamp_match::{Choice, Matcher};
use std::alloc::Global;
use std::marker::Brand;
use std::process::Abort;
use std::sync::ledger::{Blank, Ledger};
use std::test::Fail;
use svc_value::{Clock, OutOfMemory, ServiceId, Steps};

#[derive(Clone, Copy, Debug, PartialEq, Eq)]
enum Step {
    Start,
    // The next value of this slot, if it has one, becomes its head.
    Advance(usize),
    // The floor takes this clock of the service 0.
    Raise(u32),
}

fn advance_with<M: Ledger, L: Ledger>(
    slots: &mut [Slot],
    place: usize,
    floor: &Floor,
    matcher: &mut Matcher,
    moved: Blank,
    looked: Blank,
)
    requires moved { (moved.name ≡ M.name) × (moved.parts ≡ M.parts) × (0 < moved.parts) }
    requires looked { (looked.name ≡ L.name) × (looked.parts ≡ L.parts) × (0 < looked.parts) }
    requires matcher { IsMatcherOf slots.old floor.now matcher.old }
    ensures { IsMatcherOf slots.new floor.now matcher.new }
{
    let mut moves = Steps::<M>::new(moved);
    let mut looks = Steps::<L>::new(looked);
    let count = slots.len();
    if place < count && slots[place].has_next() {
        matcher.advance(slots, count, place, floor, &mut moves, &mut looks);
    }
}

fn advance(slots: &mut [Slot], place: usize, floor: &Floor, matcher: &mut Matcher)
    requires { IsMatcherOf slots.old floor.now matcher.old }
    ensures { IsMatcherOf slots.new floor.now matcher.new }
{
    advance_with::<Brand, Brand>(slots, place, floor, matcher, Blank::new(1), Blank::new(1));
}

fn raise_with<L: Ledger>(
    slots: &[Slot],
    stamps: &Stamps,
    floor: &mut Floor,
    matcher: &mut Matcher,
    blank: Blank,
)
    requires looked { (blank.name ≡ L.name) × (blank.parts ≡ L.parts) × (0 < blank.parts) }
    requires matcher { IsMatcherOf slots.now floor.old matcher.old }
    ensures { IsMatcherOf slots.now floor.new matcher.new }
{
    let mut looks = Steps::<L>::new(blank);
    matcher.raise(floor, stamps, slots, &mut looks);
}

fn raise(slots: &[Slot], stamps: &Stamps, floor: &mut Floor, matcher: &mut Matcher)
    requires { IsMatcherOf slots.now floor.old matcher.old }
    ensures { IsMatcherOf slots.now floor.new matcher.new }
{
    raise_with::<Brand>(slots, stamps, floor, matcher, Blank::new(1));
}

fn take(
    alloc: Global,
    slots: &mut [Slot],
    floor: &mut Floor,
    matcher: &mut Matcher,
    step: Step,
) -> Result<(), OutOfMemory>
    requires { IsMatcherOf slots.old floor.old matcher.old }
    ensures { IfOk result (λ _. IsMatcherOf slots.new floor.new matcher.new) }
{
    match step {
        Step::Start => {}
        Step::Advance(place) => advance(slots, place, floor, matcher),
        Step::Raise(clock) => {
            if clock > 0 {
                let stamps = Stamps::one(alloc, ServiceId(0), Clock(clock))?;
                raise(slots, &stamps, floor, matcher);
            }
        }
    }
    Ok(())
}

fn run(
    rt: &impl Abort,
    alloc: Global,
    slots: &mut [Slot],
    rows: &[(Step, Choice)],
) -> Result<(), Fail>
    requires { length slots.old ≤ 16 }
{
    let mut floor = Floor::new();
    let mut matcher = Matcher::of(slots, &floor);
    for (step, choice) in rows {
        take(alloc, slots, &mut floor, &mut matcher, *step)?;
        assert_eq!(rt; choice_of(slots, &floor, true), *choice, "{step:?}");
        assert_eq!(rt;
            kept_choice_of(&matcher, slots, &floor, true),
            *choice,
            "{step:?}, kept"
        );
    }
    Ok(())
}

#[test]
fn a_clock_that_falls(rt: HostRuntime) -> Result<(), Fail> {
    let alloc = rt.alloc();
    let mut slots = [
        slot_of(alloc, 1, &waits(1, &[(3, 1), (1, 2), (2, 3)]))?,
        slot_of(alloc, 2, &waits(1, &[(2, 1), (3, 2)]))?,
    ];
    run(
        &rt,
        alloc,
        &mut slots,
        &[
            (Step::Start, Choice::Advance(0)),
            (Step::Advance(0), Choice::Advance(1)),
            (Step::Advance(1), Choice::Advance(1)),
            (Step::Advance(0), Choice::Advance(0)),
            (Step::Advance(0), Choice::Ready),
            (Step::Raise(2), Choice::Ready),
            (Step::Advance(1), lags(0)),
            (Step::Raise(4), lags(0)),
        ],
    )
}

#[test]
fn clocks_that_rise(rt: HostRuntime) -> Result<(), Fail> {
    let alloc = rt.alloc();
    let mut slots = [
        slot_of(alloc, 1, &waits(1, &[(1, 1), (2, 2), (5, 3)]))?,
        slot_of(alloc, 2, &waits(1, &[(1, 1), (2, 2)]))?,
    ];
    run(
        &rt,
        alloc,
        &mut slots,
        &[
            (Step::Start, Choice::Advance(0)),
            (Step::Advance(0), Choice::Advance(1)),
            (Step::Advance(1), Choice::Ready),
            (Step::Raise(1), Choice::Ready),
            (Step::Advance(0), Choice::Advance(1)),
            (Step::Advance(1), Choice::Ready),
            (Step::Raise(3), Choice::Advance(0)),
            (Step::Advance(0), lags(1)),
        ],
    )
}
