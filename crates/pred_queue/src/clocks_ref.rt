// Clocks of places, lent as a list or by the bytes of a frame, and keys that the bytes lend.
ghost use Rattle.std.specs.Prelude.{◌≡◌, ◌<◌, All, Some, length, slice_get};
ghost use Rattle.propagation.specs.Stamps.{Rise};

use stamp_clock::KeySet;
use svc_value::limits::MAX_SERVICES;
use wire_frame::{KeysRef, PlaceClock, PlacesRef};

/// Clocks of places that somebody else holds.
pub(crate) trait ClocksRef {
    ghost use Rattle.std.specs.Prelude.{List};
    ghost use Rattle.wire_frame.specs.declared.place_clock.PlaceClock.{PlaceClock};

    /// The list of them.
    ghost named: { Self → List PlaceClock };

    /// How many they are.
    fn count(&self) -> usize
        ensures { result ≡ length (named self.now) };

    /// The one at `i`, which is below their number.
    fn nth(&self, i: usize) -> PlaceClock
        requires { i < length (named self.now) }
        ensures { slice_get (named self.now) i ≡ Some result };
}

impl ClocksRef for &[PlaceClock] {
    ghost named = { λ clocks. clocks.now };

    fn count(&self) -> usize {
        self.len()
    }

    fn nth(&self, i: usize) -> PlaceClock {
        self[i]
    }
}

impl<'a> ClocksRef for PlacesRef<'a> {
    ghost named = { λ clocks. clocks };

    fn count(&self) -> usize {
        self.len()
    }

    fn nth(&self, i: usize) -> PlaceClock {
        self.at(i)
    }
}

// The set of these keys.
pub(crate) fn set_of(keys: KeysRef<'_>) -> KeySet
    requires rise { Rise 0 keys }
    requires below { All (λ key. key < MAX_SERVICES) keys }
    ensures { result ≡ keys.entry }
{
    let mut set = KeySet::new();
    for key in keys {
        set.push(key);
    }
    set
}
