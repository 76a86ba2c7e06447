// Stamps in dense form: one bit for each key, and the clocks alone in a list.
ghost use Rattle.std.specs.Prelude.{◌≡◌, ◌↔◌, ◌<◌, ◌⊎◌, [], ◌∷◌, All, map, max, length, find, nat_le, IsTrue, IfOk, IfSome, IsNone, slice_index};
ghost use Rattle.std.specs.List.{zip};
ghost use Rattle.propagation.specs.Lists.{Has};
ghost use Rattle.propagation.specs.Stamps.{Rise, Agree, clock_of, keys};
ghost use Rattle.service_machine.specs.States.{raise};

use crate::{KeySet, Pairs};
use std::alloc::Global;
use std::marker::Model;
use svc_value::limits::MAX_SERVICES;
use svc_value::{Clock, Clocks, OutOfMemory, ServiceId};

/// The clocks of services below 64, each at least 1. Contracts see the list of the pairs of key and clock, with rising keys.
#[derive(Debug, Drop)]
pub struct Stamps {
    keys: KeySet,
    clocks: Vec<Clock>,
}

impl Model for Stamps {
    ghost use Rattle.std.specs.Prelude.{List, ℕ};
    ghost use Rattle.std.specs.List.{zip};

    ghost Value = { List (ℕ × ℕ) };

    ghost use Rattle.stamp_clock.specs.Beside.{AreBeside};

    ghost view = { λ stamps. zip stamps.keys stamps.clocks.items };

    ghost invariant = { λ stamps. AreBeside stamps.keys stamps.clocks.items };
}

impl Stamps {
    ghost use Rattle.stamp_clock.specs.Beside.{AreStamps, clocks};
    ghost use Rattle.stamp_clock.specs.Places.{AreKeys};

    /// The stamps of one service: `id`, below 64, at `clock`, at least 1. `OutOfMemory` where `alloc` has none.
    pub fn one(alloc: Global, id: ServiceId, clock: Clock) -> Result<Stamps, OutOfMemory>
        requires below { id < MAX_SERVICES }
        requires positive { 0 < clock }
        ensures { IfOk result (λ stamps. stamps ≡ (id, clock) ∷ []) }
    {
        Stamps::one_in(Clocks::new(alloc), id, clock)
    }

    /// The stamps of one service: `id`, below 64, at `clock`, at least 1. They are made in the memory of `memory`, whose
    /// clocks are forgotten. `OutOfMemory` where it holds no clock and there is no more; the memory is then gone.
    pub fn one_in(memory: Clocks, id: ServiceId, clock: Clock) -> Result<Stamps, OutOfMemory>
        requires below { id < MAX_SERVICES }
        requires positive { 0 < clock }
        ensures { IfOk result (λ stamps. stamps ≡ (id, clock) ∷ []) }
    {
        Ok(Stamps {
            keys: KeySet::of(&[id]),
            clocks: refilled(memory, &[clock])?,
        })
    }

    /// The stamps of these keys, which rise strictly and are below 64, each with the clock at its place, which is at least 1.
    /// `OutOfMemory` where `alloc` has none.
    pub fn of(alloc: Global, keys: &[ServiceId], clocks: &[Clock]) -> Result<Stamps, OutOfMemory>
        requires lengths { length keys.now ≡ length clocks.now }
        requires rise { Rise 0 keys.now }
        requires below { All (λ key. key < MAX_SERVICES) keys.now }
        requires positive { All (λ clock. 0 < clock) clocks.now }
        ensures { IfOk result (λ stamps. stamps ≡ zip keys.now clocks.now) }
    {
        Ok(Stamps {
            keys: KeySet::of(keys),
            clocks: refilled(Clocks::new(alloc), clocks)?,
        })
    }

    /// The stamps of these keys, each with the clock at its place, which is at least 1. It takes no memory.
    pub fn over(keys: KeySet, clocks: Clocks) -> Stamps
        requires lengths { length keys ≡ length clocks }
        requires positive { All (λ clock. 0 < clock) clocks }
        ensures { result ≡ zip keys clocks }
    {
        prove!(keys.len() == clocks.len());
        Stamps {
            keys,
            clocks: clocks.into_vec(),
        }
    }

    /// The list of the clocks, by rising key, whose memory may be used again.
    pub fn into_clocks(self) -> Clocks
        ensures { result ≡ clocks self }
    {
        Clocks::from_vec(self.clocks)
    }

    /// The keys.
    pub fn keys(&self) -> KeySet
        ensures keys { result ≡ keys self.now }
        ensures are_keys { AreKeys result }
    {
        self.keys
    }

    /// The number of keys.
    pub fn len(&self) -> usize
        ensures len { result ≡ length self.now }
        ensures stamps { AreStamps self.now }
    {
        self.clocks.len()
    }

    /// The key at the place `i` in rising order, which is below the number of keys.
    pub fn key_at(&self, i: usize) -> ServiceId
        requires { i < length self.now }
        ensures { result ≡ slice_index (keys self.now) i }
    {
        self.keys.at(i)
    }

    /// The clock of the key at the place `i`, which is below the number of keys.
    pub fn clock_at(&self, i: usize) -> Clock
        requires { i < length self.now }
        ensures { result ≡ slice_index (clocks self.now) i }
    {
        self.clocks[i]
    }

    /// The clock of the key `id`; None exactly where the key is missing.
    pub fn get(&self, id: ServiceId) -> Option<Clock>
        ensures clock { IfSome result (λ clock. clock ≡ clock_of self.now id) }
        ensures none { IsNone result ↔ (clock_of self.now id ≡ 0) }
        ensures stamps { AreStamps self.now }
    {
        if self.keys.contains(id) {
            Some(self.clocks[self.keys.rank(id)])
        } else {
            None
        }
    }

    /// The pairs of key and clock, by rising key.
    pub fn iter(&self) -> Pairs<'_>
        ensures pairs { result ≡ self.now }
        ensures stamps { AreStamps self.now }
    {
        Pairs::new(self.keys, self.clocks.as_slice())
    }

    /// The least key at or above `start`; None exactly where there is none.
    pub fn next_key(&self, start: u16) -> Option<ServiceId>
        ensures key { result ≡ find (nat_le start) (keys self.now) }
        ensures stamps { AreStamps self.now }
    {
        self.keys.first_from(start)
    }

    /// Whether each key of both has equal clocks in both.
    pub fn agrees(&self, other: &Stamps) -> bool
        ensures { IsTrue result ↔ Agree self.now other.now }
    {
        let mut pairs = self.iter();
        let mut other_pairs = other.iter();
        for key in self.keys.union(other.keys) {
            let here = pairs.take_clock(key);
            let there = other_pairs.take_clock(key);
            if !clocks_agree(here, there) {
                return false;
            }
        }
        true
    }

    /// The union of the two: every key of either. A key of both, where the two do not agree, has the greater clock.
    /// `OutOfMemory` where there is no memory for it.
    pub fn join(&self, other: &Stamps) -> Result<Stamps, OutOfMemory>
        ensures { IfOk result (λ both. both ≡ raise self.now other.now) }
    {
        self.join_in(other, Clocks::new(*self.clocks.allocator()))
    }

    /// The union of the two, as of `join`, made in the memory of `memory`, whose clocks are forgotten. `OutOfMemory` where it
    /// holds too few clocks and there is no more; the memory is then gone.
    pub fn join_in(&self, other: &Stamps, memory: Clocks) -> Result<Stamps, OutOfMemory>
        ensures { IfOk result (λ both. both ≡ raise self.now other.now) }
    {
        let keys = self.keys.union(other.keys);
        let clocks = self.greater_clocks(other, keys, memory)?;
        Ok(Stamps { keys, clocks })
    }

    /// Stamps with the same keys and clocks; `OutOfMemory` where there is no memory for them.
    pub fn copy(&self) -> Result<Stamps, OutOfMemory>
        ensures { IfOk result (λ stamps. stamps ≡ self.now) }
    {
        self.copy_in(Clocks::new(*self.clocks.allocator()))
    }

    /// Stamps with the same keys and clocks, made in the memory of `memory`, whose clocks are forgotten. `OutOfMemory` where
    /// it holds too few clocks and there is no more; the memory is then gone.
    pub fn copy_in(&self, memory: Clocks) -> Result<Stamps, OutOfMemory>
        ensures { IfOk result (λ stamps. stamps ≡ self.now) }
    {
        Ok(Stamps {
            keys: self.keys,
            clocks: refilled(memory, self.clocks.as_slice())?,
        })
    }

    // For each of `keys`, among which are all keys of either, the greater clock of the two, where a missing one counts as 0.
    fn greater_clocks(
        &self,
        other: &Stamps,
        keys: KeySet,
        memory: Clocks,
    ) -> Result<Vec<Clock>, OutOfMemory>
        requires { (q : _) → (0 < clock_of self.now q) ⊎ (0 < clock_of other.now q) → Has keys q }
        ensures { IfOk result (λ clocks. clocks.items ≡ map (λ q. max (clock_of self.now q) (clock_of other.now q)) keys) }
    {
        let mut clocks = memory.into_vec();
        clocks.clear();
        clocks.reserve(keys.len())?;
        let mut pairs = self.iter();
        let mut other_pairs = other.iter();
        for key in keys {
            let here = pairs.take_clock(key);
            let there = other_pairs.take_clock(key);
            clocks.push(here.max(there))?;
        }
        Ok(clocks)
    }
}

// Whether two clocks are equal, or one of them is 0, as that of a missing key.
fn clocks_agree(here: Clock, there: Clock) -> bool
    ensures { IsTrue result ↔ (0 < here → 0 < there → here ≡ there) }
{
    here == Clock(0) || there == Clock(0) || here == there
}

// The clocks, in the memory of a list whose own are forgotten.
fn refilled(memory: Clocks, clocks: &[Clock]) -> Result<Vec<Clock>, OutOfMemory>
    ensures { IfOk result (λ list. list.items ≡ clocks.now) }
{
    let mut list = memory.into_vec();
    list.clear();
    list.extend_from_slice(clocks)?;
    Ok(list)
}
