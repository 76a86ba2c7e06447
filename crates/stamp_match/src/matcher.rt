// What the turn table looks for, kept up to date.
ghost use Rattle.std.specs.Prelude.{◌≡◌, ◌+◌, ◌-◌, ◌*◌, ◌^◌, ◌<◌, ◌≤◌, ◌⊎◌, true, None, Some, [], ◌∷◌, length, take, slice_index_or, slice_set, IfSome, IfNone};
ghost use Rattle.propagation.specs.Stamps.{IsRising};
ghost use Rattle.service_machine.specs.States.{has_next, advanced, number_at_head, raise as raised, raise_all};
ghost use Rattle.service_machine.specs.Turning.{choice as chosen, head_lag, heads, lagging as first_that_lags, greatest_clocks as greatest};
ghost use Rattle.pred_queue.specs.Capped.{capped};
ghost use Rattle.stamp_match.specs.Falling.{AreReached, NoneFalls};
ghost use Rattle.stamp_match.specs.Kept.{IsMatcherOf, IsKept, head_stamps, slot_in};
ghost use Rattle.stamp_match.specs.Looks.{head_keys, keys_in, named_keys};
ghost use Rattle.stamp_match.specs.Named.{turn_of, IsAmong};
ghost use Rattle.stamp_match.specs.Moved.{IsRaised, IsMoved, Leads};

use crate::Choice;
use crate::following::{flags, head_lags, raise_key, raise_keys};
use crate::held::{falls_at, held_at};
use crate::slots::{first_headless, first_waiting, greatest_clocks};
use crate::walk::first_lag;
use pred_queue::Slot;
use stamp_clock::{Floor, KeySet, Stamps};
use std::marker::Brand;
use std::sync::ledger::{Blank, Ledger};
use svc_value::limits::{MAX_DEPENDENCIES, MAX_SERVICES};
use svc_value::{Clock, ServiceId, Steps};

/// What `choose` finds among at most 16 slots, kept up to date: for each key the greatest clock of the floor and of the heads,
/// and which heads lag. It rests on the floor and on the stamps of the heads alone, and holds no memory of its own.
#[derive(Clone, Copy, Debug)]
pub struct Matcher {
    greatest_clocks: Floor,
    lagging: [bool; MAX_DEPENDENCIES],
}

impl Matcher {
    /// The one of no slots under a floor that nothing has raised.
    pub fn new() -> Matcher
        ensures { IsKept [] [] result }
    {
        Matcher {
            greatest_clocks: Floor::new(),
            lagging: [false; MAX_DEPENDENCIES],
        }
    }

    /// The one of these slots, at most 16, under this floor. It walks over all clocks of the heads twice, and
    /// takes no memory.
    pub fn of(slots: &[Slot], floor: &Floor) -> Matcher
        requires few { length slots.now ≤ MAX_DEPENDENCIES }
        ensures { IsMatcherOf slots.now floor.now result }
    {
        Matcher::counted::<Brand>(slots, floor, Blank::new(1))
    }

    // The same, with looks that nobody counts.
    fn counted<L: Ledger>(slots: &[Slot], floor: &Floor, blank: Blank) -> Matcher
        requires few { length slots.now ≤ MAX_DEPENDENCIES }
        requires name { blank.name ≡ L.name }
        requires parts { blank.parts ≡ L.parts }
        requires some { 0 < blank.parts }
        ensures { IsMatcherOf slots.now floor.now result }
    {
        let mut looks = Steps::<L>::new(blank);
        Matcher::found(slots, floor, &mut looks)
    }

    // The one of these slots under this floor.
    fn found<L: Ledger>(slots: &[Slot], floor: &Floor, looks: &mut Steps<L>) -> Matcher
        requires few { length slots.now ≤ MAX_DEPENDENCIES }
        ensures matcher { IsMatcherOf slots.now floor.now result }
        ensures looks { looks.new ≤ looks.old + 2 * head_keys slots.now }
    {
        let greatest_clocks = greatest_clocks(slots, floor, looks);
        let lagging = flags(&greatest_clocks, slots, looks);
        Matcher {
            greatest_clocks,
            lagging,
        }
    }

    // The first slot whose head lags.
    fn first_lagging(&self, slots: &[Slot], floor: &Floor) -> Option<usize>
        requires { IsMatcherOf slots.now floor.now self.now }
        ensures greatest_clocks { first_that_lags (greatest slots.now floor.now) slots.now ≡ first_that_lags self.now.greatest_clocks slots.now }
        ensures some { IfSome result (Leads self.now.greatest_clocks slots.now) }
        ensures none { IfNone result (first_that_lags self.now.greatest_clocks slots.now ≡ None) }
    {
        for place in 0..slots.len() {
            if self.lagging[place] {
                return Some(place);
            }
        }
        None
    }

    // The least key on which the head of a slot lags.
    fn key_of<L: Ledger>(&self, slot: &Slot, looks: &mut Steps<L>) -> Option<ServiceId>
        ensures key { result ≡ head_lag self.now.greatest_clocks slot.now.head }
        ensures looks { looks.new ≤ looks.old + keys_in slot.now.head }
    {
        let head = slot.head()?;
        first_lag(&self.greatest_clocks, &head.stamps, looks)
    }

    /// What `choose` answers for these slots, this floor and `due`, where the matcher is theirs. It looks at no clock but those
    /// of the head that is named, where the answer is `Lags`.
    pub fn choice<L: Ledger>(
        &self,
        slots: &[Slot],
        floor: &Floor,
        due: bool,
        looks: &mut Steps<L>,
    ) -> Choice
        requires { IsMatcherOf slots.now floor.now self.now }
        ensures table { turn_of slots.now result ≡ chosen slots.now floor.now due }
        ensures slot { IsAmong (length slots.now) result }
        ensures looks { looks.new ≤ looks.old + named_keys slots.now result }
    {
        if let Some(place) = first_headless(slots) {
            let slot = &slots[place];
            return if slot.has_next() {
                Choice::Advance(place)
            } else {
                Choice::Empty(place)
            };
        }
        if let Some(place) = self.first_lagging(slots, floor) {
            let slot = &slots[place];
            if slot.has_next() {
                return Choice::Advance(place);
            }
            let key = self.key_of(slot, looks).unwrap();
            return Choice::Lags { slot: place, key };
        }
        if due {
            return Choice::Ready;
        }
        match first_waiting(slots) {
            Some(place) => Choice::Advance(place),
            None => Choice::Still,
        }
    }

    /// The floor takes for each key the greater clock of it and of the stamps, and the matcher, which is that of the slots and
    /// the floor, is so again. It takes one look for each key of the stamps, and no memory.
    pub fn raise<L: Ledger>(
        &mut self,
        floor: &mut Floor,
        stamps: &Stamps,
        slots: &[Slot],
        looks: &mut Steps<L>,
    )
        requires { IsMatcherOf slots.now floor.old self.old }
        ensures matcher { IsMatcherOf slots.now floor.new self.new }
        ensures floor { floor.new ≡ raised floor.old stamps.now }
        ensures looks { looks.new ≡ looks.old + length stamps.now }
    {
        let _ = floor.raise(stamps);
        raise_keys(
            &mut self.greatest_clocks,
            &mut self.lagging,
            slots,
            stamps,
            looks,
        );
    }

    /// The floor takes the clocks of all heads, and for the service `id`, below 64, `clock`, at least 1: it is raised by the
    /// union of their stamps with that clock. The matcher, which is that of the slots and the floor, is so again. It takes one
    /// look, and no memory.
    pub fn raise_over_heads<L: Ledger>(
        &mut self,
        floor: &mut Floor,
        id: ServiceId,
        clock: Clock,
        slots: &[Slot],
        looks: &mut Steps<L>,
    )
        requires matcher { IsMatcherOf slots.now floor.old self.old }
        requires below { id < MAX_SERVICES }
        requires positive { 0 < clock }
        ensures matcher { IsMatcherOf slots.now floor.new self.new }
        ensures floor { floor.new ≡ raised floor.old (raise_all ((id, clock) ∷ []) (heads slots.now)) }
        ensures looks { looks.new ≡ looks.old + 1 }
    {
        looks.tick();
        raise_key(
            &mut self.greatest_clocks,
            &mut self.lagging,
            slots,
            id,
            clock,
        );
        *floor = self.greatest_clocks;
    }

    // Takes the clocks of the head at a place.
    fn raise_head<L: Ledger>(&mut self, slots: &[Slot], place: usize, looks: &mut Steps<L>)
        requires place { place < length slots.now }
        requires few { length slots.now ≤ MAX_DEPENDENCIES }
        requires places { length self.old.lagging ≡ MAX_DEPENDENCIES }
        requires rising { IsRising 0 self.old.greatest_clocks }
        ensures raised { IsRaised (head_stamps slots.now) place self.old self.new }
        ensures looks { looks.new ≡ looks.old + keys_in (slot_in slots.now place).head }
    {
        let slot = &slots[place];
        let Some(head) = slot.head() else {
            return;
        };
        raise_keys(
            &mut self.greatest_clocks,
            &mut self.lagging,
            slots,
            &head.stamps,
            looks,
        );
    }

    // The head at a place came, and no greatest clock fell with the one before it.
    fn follow<L: Ledger>(&mut self, slots: &[Slot], place: usize, looks: &mut Steps<L>)
        requires place { place < length slots.now }
        requires few { length slots.now ≤ MAX_DEPENDENCIES }
        requires places { length self.old.lagging ≡ MAX_DEPENDENCIES }
        requires rising { IsRising 0 self.old.greatest_clocks }
        ensures moved { IsMoved (head_stamps slots.now) place self.old self.new }
        ensures looks { looks.new ≤ looks.old + 2 * keys_in (slot_in slots.now place).head }
    {
        self.raise_head(slots, place, looks);
        self.lagging[place] = head_lags(&self.greatest_clocks, &slots[place], looks);
    }

    /// The next value of the slot at `place`, which has one, becomes its head, with one step of `moves`, and the matcher, which
    /// is that of the first `count` slots and the floor, is so again; `place` is one of theirs. No memory is taken.
    ///
    /// Where the head that comes has no clock below the one of the head that goes, it takes at most two looks for each clock of
    /// these two. Else a greatest clock may have fallen, and it takes at most two for each clock of the one that goes and of all
    /// heads.
    pub fn advance<M: Ledger, L: Ledger>(
        &mut self,
        slots: &mut [Slot],
        count: usize,
        place: usize,
        floor: &Floor,
        moves: &mut Steps<M>,
        looks: &mut Steps<L>,
    )
        requires count { count ≤ length slots.old }
        requires place { place < count }
        requires next { has_next (slot_in slots.old place) ≡ true }
        requires matcher { IsMatcherOf (take count slots.old) floor.now self.old }
        ensures advanced { number_at_head (slot_in slots.old place).head < 2 ^ 64 - 1 → slots.new ≡ slice_set slots.old place (advanced (slot_in slots.old place)) }
        ensures slots { slots.new ≡ slice_set slots.old place (capped (advanced (slot_in slots.old place))) }
        ensures matcher { IsMatcherOf (take count slots.new) floor.now self.new }
        ensures moves { moves.new ≡ moves.old + 1 }
        ensures looks { NoneFalls (slice_index_or (head_stamps slots.old) place None) (slice_index_or (head_stamps slots.new) place None) →
            looks.new ≤ looks.old + 2 * keys_in (slot_in slots.old place).head + 2 * keys_in (slot_in slots.new place).head }
        ensures most { looks.new ≤ looks.old + 2 * keys_in (slot_in slots.old place).head + 2 * head_keys (take count slots.new) }
    {
        let held = held_at(&self.greatest_clocks, floor, &slots[..count], place, looks);
        let slot = &mut slots[place];
        slot.advance(moves);
        self.renew(held, &slots[..count], place, floor, looks);
    }

    // The head at a place came: the one before it had the greatest clocks of these keys.
    fn renew<L: Ledger>(
        &mut self,
        held: KeySet,
        slots: &[Slot],
        place: usize,
        floor: &Floor,
        looks: &mut Steps<L>,
    )
        requires place { place < length slots.now }
        requires few { length slots.now ≤ MAX_DEPENDENCIES }
        requires places { length self.old.lagging ≡ MAX_DEPENDENCIES }
        requires greatest_clocks { IsRising 0 self.old.greatest_clocks }
        ensures matcher { IsMatcherOf slots.now floor.now self.new ⊎ (AreReached self.old.greatest_clocks held (slice_index_or (head_stamps slots.now) place None) × IsMoved (head_stamps slots.now) place self.old self.new) }
        ensures looks { AreReached self.old.greatest_clocks held (slice_index_or (head_stamps slots.now) place None) →
            looks.new ≤ looks.old + length held + 2 * keys_in (slot_in slots.now place).head }
        ensures most { looks.new ≤ looks.old + length held + 2 * head_keys slots.now }
    {
        if falls_at(held, &self.greatest_clocks, slots, place, looks) {
            *self = Matcher::found(slots, floor, looks);
        } else {
            self.follow(slots, place, looks);
        }
    }
}
