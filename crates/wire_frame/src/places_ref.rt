// Places with their clocks, lent by the bytes in which they stand.
ghost use Rattle.std.specs.Prelude.{◌≡◌, ◌<◌, ◌≤◌, ◌∷◌, Some, length, drop, slice_get, IfOk, IfSome, IfNone};
ghost use Rattle.wire_frame.specs.Lent.{named_in};

use crate::{PlaceClock, PlaceClocks};
use std::alloc::Global;
use std::marker::Model;
use svc_value::{Clock, OutOfMemory};

/// Places with their clocks, as they stand in the bytes of a frame. Contracts see the list of them. As an iterator they
/// come in their order. None of this takes memory, but for `to_list`.
#[derive(Drop)]
pub struct PlacesRef<'a> {
    bytes: &'a [u8],
}

impl<'a> Model for PlacesRef<'a> {
    ghost use Rattle.std.specs.Prelude.{List};
    ghost use Rattle.wire_frame.specs.declared.place_clock.PlaceClock.{PlaceClock};
    ghost use Rattle.wire_frame.specs.Lent.{named_in};

    ghost Value = { List PlaceClock };

    ghost view = { λ places. named_in places.bytes.now };
}

impl<'a> PlacesRef<'a> {
    /// The places in `bytes`, five bytes each.
    pub(crate) fn new(bytes: &'a [u8]) -> PlacesRef<'a>
        ensures { result ≡ named_in bytes.now }
    {
        PlacesRef { bytes }
    }

    /// How many places there are.
    #[tactic(auto, using(crate::proofs::Lending::named_length))]
    pub fn len(&self) -> usize
        ensures { result ≡ length self.now }
    {
        self.bytes.len() / 5
    }

    /// The place at `i`, which is below `len`, with its clock.
    #[tactic(auto, using(crate::proofs::Lending::named_length, crate::proofs::Lending::named_element))]
    pub fn at(&self, i: usize) -> PlaceClock
        requires { i < length self.now }
        ensures { slice_get self.now i ≡ Some result }
    {
        match first_of(&self.bytes[5 * i..]) {
            Some(named) => named,
            None => unreachable!(),
        }
    }

    /// An iterator over the places, beside which they stay as they are.
    pub fn iter(&self) -> PlacesRef<'a>
        ensures { result ≡ self.now }
    {
        PlacesRef { bytes: self.bytes }
    }

    /// The places with their clocks as a list, in memory of `alloc`; `OutOfMemory` where there is none.
    pub fn to_list(&self, alloc: Global) -> Result<PlaceClocks, OutOfMemory>
        ensures { IfOk result (λ list. list ≡ self.now) }
    {
        Ok(PlaceClocks::from_vec(self.iter().collect(alloc)?))
    }
}

impl<'a> Iterator for PlacesRef<'a> {
    type Item = PlaceClock;

    ghost use Rattle.std.specs.Iterator.{YieldsFirst, item_count};

    ghost next_gives = { YieldsFirst (λ places. places) };

    ghost remaining = { item_count (λ places. places) };

    fn next(&mut self) -> Option<PlaceClock> {
        let bytes = self.bytes;
        let named = first_of(bytes)?;
        self.bytes = &bytes[5..];
        Some(named)
    }

    fn size_hint(&self) -> (usize, Option<usize>) {
        let len = self.len();
        (len, Some(len))
    }
}

// The place in front of the bytes with its clock; none where there are less than five.
#[tactic(auto, using(crate::proofs::Lending::named_first))]
fn first_of(bytes: &[u8]) -> Option<PlaceClock>
    ensures some { IfSome result (λ named. named_in bytes.now ≡ named ∷ named_in (drop 5 bytes.now)) }
    ensures five { IfSome result (λ _. 5 ≤ length bytes.now) }
    ensures none { IfNone result (length bytes.now < 5) }
{
    match bytes {
        [place, a, b, c, d, ..] => Some(PlaceClock {
            place: *place,
            clock: Clock(u32::from_be_bytes([*a, *b, *c, *d])),
        }),
        _ => None,
    }
}
