// The pairs of stamps, one after the other.
ghost use Rattle.std.specs.Prelude.{◌≡◌, ◌<◌, ◌+◌};
ghost use Rattle.std.specs.List.{zip};
ghost use Rattle.propagation.specs.Stamps.{IsRising, clock_of};

use crate::KeySet;
use std::marker::Model;
use svc_value::{Clock, ServiceId};

/// The pairs of key and clock that are left of some stamps, by rising key. Contracts see the list of them.
#[derive(Drop)]
pub struct Pairs<'a> {
    keys: KeySet,
    clocks: &'a [Clock],
}

impl<'a> Model for Pairs<'a> {
    ghost use Rattle.std.specs.Prelude.{List, ℕ};
    ghost use Rattle.std.specs.List.{zip};

    ghost Value = { List (ℕ × ℕ) };

    ghost view = { λ pairs. zip pairs.keys pairs.clocks.now };
}

impl<'a> Pairs<'a> {
    /// Each key with the clock at its place.
    pub(crate) fn new(keys: KeySet, clocks: &'a [Clock]) -> Pairs<'a>
        ensures { result ≡ zip keys clocks.now }
    {
        Pairs { keys, clocks }
    }

    // Takes the clock of `key`, or gives 0 where it is not the first key left. No key left may be below it.
    pub(crate) fn take_clock(&mut self, key: ServiceId) -> Clock
        requires { IsRising key self.old }
        ensures clock { result ≡ clock_of self.old key }
        ensures rising { IsRising (key + 1) self.new }
        ensures others { (q : _) → key < q → clock_of self.new q ≡ clock_of self.old q }
    {
        let mut rest = Pairs {
            keys: self.keys,
            clocks: self.clocks,
        };
        let Some((first, clock)) = rest.next() else {
            return Clock(0);
        };
        if first != key {
            return Clock(0);
        }
        *self = rest;
        clock
    }
}

impl<'a> Iterator for Pairs<'a> {
    type Item = (ServiceId, Clock);

    ghost use Rattle.std.specs.Iterator.{YieldsFirst, item_count};

    ghost next_gives = { YieldsFirst (λ pairs. pairs) };

    ghost remaining = { item_count (λ pairs. pairs) };

    fn next(&mut self) -> Option<(ServiceId, Clock)> {
        let (clock, clocks) = self.clocks.split_first()?;
        let key = self.keys.next()?;
        self.clocks = clocks;
        Some((key, *clock))
    }
}
