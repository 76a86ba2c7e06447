// A set of services in one word.
ghost use Rattle.std.specs.Prelude.{◌≡◌, ◌↔◌, ◌<◌, ◌≤◌, ◌⊎◌, [], ◌∷◌, ◌++◌, All, length, find, nat_le, IsTrue, slice_index};
ghost use Rattle.propagation.specs.Lists.{Has};
ghost use Rattle.propagation.specs.Stamps.{Rise};

use std::marker::Model;
use svc_value::ServiceId;
use svc_value::limits::MAX_SERVICES;

/// A set of services below 64, as one bit for each. Contracts see the list of its keys, rising.
#[derive(Clone, Copy, Debug)]
pub struct KeySet {
    word: u64,
}

impl Model for KeySet {
    ghost use Rattle.std.specs.Prelude.{List, ℕ, ◌<◌, ◌^◌};

    ghost Value = { List ℕ };

    ghost use Rattle.stamp_clock.specs.Places.{places};
    ghost use Rattle.stamp_clock.specs.WordOf.{word_of, word_of-places};

    ghost view = { λ keys. places keys.word };

    ghost invariant = { λ keys. keys.word < 2 ^ 64 };

    ghost inverse = { λ keys. record { word = word_of keys } };

    ghost inverse_ok = { λ a h. word_of-places a h };
}

impl KeySet {
    ghost use Rattle.stamp_clock.specs.Places.{AreKeys};

    /// The set of no keys.
    pub fn new() -> KeySet
        ensures { result ≡ [] }
    {
        KeySet { word: 0 }
    }

    /// Adds `key`, which is below 64 and above every key of the set. It takes no memory.
    pub fn push(&mut self, key: ServiceId)
        requires below { key < MAX_SERVICES }
        requires above { All (λ before. before < key) self.old }
        ensures { self.new ≡ self.old ++ key ∷ [] }
    {
        self.word |= 1 << key.0;
    }

    /// The set of these keys, which rise strictly and are below 64.
    pub fn of(keys: &[ServiceId]) -> KeySet
        requires rise { Rise 0 keys.now }
        requires below { All (λ key. key < MAX_SERVICES) keys.now }
        ensures { result ≡ keys.now }
    {
        let mut set = KeySet::new();
        for key in keys {
            set.push(*key);
        }
        set
    }

    /// The number of keys.
    pub fn len(self) -> usize
        ensures len { result ≡ length self }
        ensures keys { AreKeys self }
    {
        self.word.count_ones() as usize
    }

    /// Whether `id` is a key.
    pub fn contains(self, id: ServiceId) -> bool
        ensures { IsTrue result ↔ Has self id }
    {
        id.0 < 64 && (self.word >> id.0) & 1 == 1
    }

    /// The number of keys below the key `id`.
    pub(crate) fn rank(self, id: ServiceId) -> usize
        requires { Has self id }
        ensures place { slice_index self result ≡ id }
        ensures within { result < length self }
    {
        let word = self.word;
        let below = (1 << id.0) - 1;
        (word & below).count_ones() as usize
    }

    /// The least key at or above `start`; None exactly where there is none.
    pub(crate) fn first_from(self, start: u16) -> Option<ServiceId>
        ensures { result ≡ find (nat_le start) self }
    {
        let word = self.word;
        if start >= 64 {
            return None;
        }
        let above = word >> start;
        if above == 0 {
            return None;
        }
        Some(ServiceId(start + above.trailing_zeros() as u16))
    }

    /// The key at the place `i` in rising order, which is below the number of keys.
    pub(crate) fn at(self, i: usize) -> ServiceId
        requires { i < length self }
        ensures { result ≡ slice_index self i }
    {
        let mut left = self;
        for _ in 0..i {
            let _ = left.next();
        }
        left.next().unwrap()
    }

    /// The keys of either set.
    pub(crate) fn union(self, other: KeySet) -> KeySet
        ensures either { (q : _) → Has result q ↔ (Has self q ⊎ Has other q) }
        ensures keys { AreKeys result }
    {
        KeySet {
            word: self.word | other.word,
        }
    }
}

impl Iterator for KeySet {
    type Item = ServiceId;

    ghost use Rattle.std.specs.Iterator.{YieldsFirst, item_count};

    ghost next_gives = { YieldsFirst (λ keys. keys) };

    ghost remaining = { item_count (λ keys. keys) };

    /// Takes the least key out; None exactly where there is none.
    fn next(&mut self) -> Option<ServiceId> {
        if self.word == 0 {
            return None;
        }
        let least = self.word.trailing_zeros();
        self.word &= !(1 << least);
        Some(ServiceId(least as u16))
    }
}
