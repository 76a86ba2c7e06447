// Keys, lent by the bytes in which they stand.
ghost use Rattle.std.specs.Prelude.{◌≡◌, ◌<◌, ◌≤◌, ◌∷◌, Some, length, drop, slice_get, IfOk, IfSome, IfNone};
ghost use Rattle.wire_frame.specs.Lent.{keys_in};

use std::alloc::Global;
use std::marker::Model;
use svc_value::{Ids, OutOfMemory, ServiceId};

/// Keys, as they stand in the bytes of a frame. Contracts see the list of them. As an iterator they come in their order.
/// None of this takes memory, but for `to_list`.
#[derive(Drop)]
pub struct KeysRef<'a> {
    bytes: &'a [u8],
}

impl<'a> Model for KeysRef<'a> {
    ghost use Rattle.std.specs.Prelude.{List, ℕ};
    ghost use Rattle.wire_frame.specs.Lent.{keys_in};

    ghost Value = { List ℕ };

    ghost view = { λ keys. keys_in keys.bytes.now };
}

impl<'a> KeysRef<'a> {
    /// The keys in `bytes`, two bytes each.
    pub(crate) fn new(bytes: &'a [u8]) -> KeysRef<'a>
        ensures { result ≡ keys_in bytes.now }
    {
        KeysRef { bytes }
    }

    /// How many keys there are.
    #[tactic(auto, using(crate::proofs::Lending::keys_length))]
    pub fn len(&self) -> usize
        ensures { result ≡ length self.now }
    {
        self.bytes.len() / 2
    }

    /// The key at `i`, which is below `len`.
    #[tactic(auto, using(crate::proofs::Lending::keys_length, crate::proofs::Lending::keys_element))]
    pub fn at(&self, i: usize) -> ServiceId
        requires { i < length self.now }
        ensures { slice_get self.now i ≡ Some result }
    {
        match first_of(&self.bytes[2 * i..]) {
            Some(key) => key,
            None => unreachable!(),
        }
    }

    /// An iterator over the keys, beside which they stay as they are.
    pub fn iter(&self) -> KeysRef<'a>
        ensures { result ≡ self.now }
    {
        KeysRef { bytes: self.bytes }
    }

    /// The keys as a list, in memory of `alloc`; `OutOfMemory` where there is none.
    pub fn to_list(&self, alloc: Global) -> Result<Ids, OutOfMemory>
        ensures { IfOk result (λ list. list ≡ self.now) }
    {
        Ok(Ids::from_vec(self.iter().collect(alloc)?))
    }
}

impl<'a> Iterator for KeysRef<'a> {
    type Item = ServiceId;

    ghost use Rattle.std.specs.Iterator.{YieldsFirst, item_count};

    ghost next_gives = { YieldsFirst (λ keys. keys) };

    ghost remaining = { item_count (λ keys. keys) };

    fn next(&mut self) -> Option<ServiceId> {
        let bytes = self.bytes;
        let key = first_of(bytes)?;
        self.bytes = &bytes[2..];
        Some(key)
    }

    fn size_hint(&self) -> (usize, Option<usize>) {
        let len = self.len();
        (len, Some(len))
    }
}

// The key in front of the bytes; none where there are less than two.
#[tactic(auto, using(crate::proofs::Lending::keys_first))]
fn first_of(bytes: &[u8]) -> Option<ServiceId>
    ensures some { IfSome result (λ key. keys_in bytes.now ≡ key ∷ keys_in (drop 2 bytes.now)) }
    ensures two { IfSome result (λ _. 2 ≤ length bytes.now) }
    ensures none { IfNone result (length bytes.now < 2) }
{
    match bytes {
        [high, low, ..] => Some(ServiceId(u16::from_be_bytes([*high, *low]))),
        _ => None,
    }
}
