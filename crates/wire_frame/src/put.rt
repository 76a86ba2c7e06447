// Numbers put behind the bytes of a list.
ghost use Rattle.std.specs.Prelude.{◌≡◌, ◌+◌, ◌*◌, ◌<◌, ◌≤◌, ◌^◌, ◌∷◌, ◌++◌, length, flat_map, vec_len, vec_capacity, OnOk, OnErr, All};
ghost use Rattle.wire_frame.specs.Frames.{u32_bytes, u16_bytes, place_clock};

use crate::PlaceClock;
use svc_value::limits::MAX_SERVICES;
use svc_value::{Clock, OutOfMemory, ServiceId};

/// Appends `n` in 4 bytes, for which there is room.
pub(crate) fn put_word(n: u32, out: &mut Vec<u8>)
    requires { vec_len out.old + 4 ≤ vec_capacity out.old }
    ensures items { out.new.items ≡ out.old.items ++ u32_bytes n }
    ensures fits { n < 2 ^ 32 }
    ensures len { vec_len out.new ≡ vec_len out.old + 4 }
    ensures capacity { vec_capacity out.old ≤ vec_capacity out.new }
{
    if out.extend_from_slice(&n.to_be_bytes()).is_err() {
        unreachable!();
    }
}

/// Appends `n` in 2 bytes, for which there is room.
pub(crate) fn put_half(n: u16, out: &mut Vec<u8>)
    requires { vec_len out.old + 2 ≤ vec_capacity out.old }
    ensures items { out.new.items ≡ out.old.items ++ u16_bytes n }
    ensures fits { n < 2 ^ 16 }
    ensures len { vec_len out.new ≡ vec_len out.old + 2 }
    ensures capacity { vec_capacity out.old ≤ vec_capacity out.new }
{
    if out.extend_from_slice(&n.to_be_bytes()).is_err() {
        unreachable!();
    }
}

/// Appends a place and its clock, for which there is room.
fn put_place_clock(named: PlaceClock, out: &mut Vec<u8>)
    requires { vec_len out.old + 5 ≤ vec_capacity out.old }
    ensures items { out.new.items ≡ out.old.items ++ place_clock named }
    ensures fits { named.clock < 2 ^ 32 }
    ensures len { vec_len out.new ≡ vec_len out.old + 5 }
    ensures capacity { vec_capacity out.old ≤ vec_capacity out.new }
{
    out.push_reserved(named.place);
    put_word(named.clock.0, out);
}

/// Appends keys behind their number. `OutOfMemory` leaves the list as it was.
pub(crate) fn put_keys(keys: &[ServiceId], out: &mut Vec<u8>) -> Result<(), OutOfMemory>
    requires { length keys.now ≤ MAX_SERVICES }
    ensures ok { OnOk result (out.new.items ≡ out.old.items ++ length keys.now ∷ flat_map u16_bytes keys.now) }
    ensures fits { OnOk result (All (λ key. key < 2 ^ 16) keys.now) }
    ensures err { OnErr result (out.new.items ≡ out.old.items) }
{
    out.reserve(1 + 2 * keys.len())?;
    out.push_reserved(keys.len() as u8);
    for key in keys {
        put_half(key.0, out);
    }
    Ok(())
}

/// Appends clocks behind their number. `OutOfMemory` leaves the list as it was.
pub(crate) fn put_clocks(clocks: &[Clock], out: &mut Vec<u8>) -> Result<(), OutOfMemory>
    requires { length clocks.now ≤ MAX_SERVICES }
    ensures ok { OnOk result (out.new.items ≡ out.old.items ++ length clocks.now ∷ flat_map u32_bytes clocks.now) }
    ensures fits { OnOk result (All (λ clock. clock < 2 ^ 32) clocks.now) }
    ensures err { OnErr result (out.new.items ≡ out.old.items) }
{
    out.reserve(1 + 4 * clocks.len())?;
    out.push_reserved(clocks.len() as u8);
    for clock in clocks {
        put_word(clock.0, out);
    }
    Ok(())
}

/// Appends places with their clocks behind their number. `OutOfMemory` leaves the list as it was.
pub(crate) fn put_place_clocks(clocks: &[PlaceClock], out: &mut Vec<u8>) -> Result<(), OutOfMemory>
    requires { length clocks.now ≤ MAX_SERVICES }
    ensures ok { OnOk result (out.new.items ≡ out.old.items ++ length clocks.now ∷ flat_map place_clock clocks.now) }
    ensures fits { OnOk result (All (λ named. named.clock < 2 ^ 32) clocks.now) }
    ensures err { OnErr result (out.new.items ≡ out.old.items) }
{
    out.reserve(1 + 5 * clocks.len())?;
    out.push_reserved(clocks.len() as u8);
    for named in clocks {
        put_place_clock(*named, out);
    }
    Ok(())
}
