// Lists of keys, of clocks and of places, read at a place of some bytes.
ghost use Rattle.std.specs.Prelude.{◌≡◌, ◌≢◌, ◌+◌, ◌*◌, ◌<◌, ◌≤◌, ◌^◌, length, IfOk, IfErr};
ghost use Rattle.wire_frame.specs.Bodies.{counted_items};
ghost use Rattle.wire_frame.specs.Parts.{Stands, Fails};
ghost use Rattle.wire_frame.specs.Runs.{item_part, run_part, key_items, clock_items, place_items};

use crate::numbers::{read_byte, read_clock, read_key};
use crate::{FrameError, FrameReason, KeysRef, PlaceClock, PlacesRef};
use std::alloc::Global;
use svc_value::Clocks;
use svc_value::limits::MAX_SERVICES;

/// The most keys, clocks or places of a frame.
const MAX_ITEMS: u8 = 64;

/// The keys from `at` on behind their number, lent, and where they end; `Bad` where there are none. No memory is taken.
pub(crate) fn read_keys(bytes: &[u8], at: usize) -> Result<(KeysRef<'_>, usize), FrameError>
    requires { at ≤ length bytes.now }
    ensures keys { IfOk result (λ read. Stands (counted_items key_items 1) (length read.0, read.0) bytes.now at read.1) }
    ensures bad { IfErr result (λ e. Fails (counted_items key_items 1) bytes.now at e) }
    ensures memory { IfErr result (λ e. e ≢ FrameError.OutOfMemory) }
{
    let count = read_byte(bytes, at, FrameReason::Count, 1, MAX_ITEMS)?;
    let keys = keys_of(bytes, at + 1, count)?;
    Ok((keys, at + 1 + 2 * usize::from(count)))
}

/// The clocks from `at` on behind their number, and where they end; `Bad` where there are none.
pub(crate) fn read_clocks(
    alloc: Global,
    bytes: &[u8],
    at: usize,
) -> Result<(Clocks, usize), FrameError>
    requires { at ≤ length bytes.now }
    ensures clocks { IfOk result (λ read. Stands (counted_items clock_items 1) (length read.0, read.0) bytes.now at read.1) }
    ensures bad { IfErr result (λ e. Fails (counted_items clock_items 1) bytes.now at e) }
{
    let count = read_byte(bytes, at, FrameReason::Count, 1, MAX_ITEMS)?;
    let clocks = clocks_of(alloc, bytes, at + 1, count)?;
    Ok((clocks, at + 1 + 4 * usize::from(count)))
}

/// The places with their clocks from `at` on behind their number, lent, and where they end; `Bad` where there are none. No
/// memory is taken.
pub(crate) fn read_places(bytes: &[u8], at: usize) -> Result<(PlacesRef<'_>, usize), FrameError>
    requires { at ≤ length bytes.now }
    ensures places { IfOk result (λ read. Stands (counted_items place_items 0) (length read.0, read.0) bytes.now at read.1) }
    ensures bad { IfErr result (λ e. Fails (counted_items place_items 0) bytes.now at e) }
{
    let count = read_byte(bytes, at, FrameReason::Count, 0, MAX_ITEMS)?;
    let clocks = places_of(bytes, at + 1, count)?;
    Ok((clocks, at + 1 + 5 * usize::from(count)))
}

// The `count` keys from `at` on, strictly rising, lent.
fn keys_of(bytes: &[u8], at: usize, count: u8) -> Result<KeysRef<'_>, FrameError>
    requires there { at ≤ length bytes.now }
    requires most { count ≤ MAX_SERVICES }
    ensures keys { IfOk result (λ keys. Stands (run_part key_items 0 count) keys bytes.now at (at + 2 * count)) }
    ensures bad { IfErr result (λ e. Fails (run_part key_items 0 count) bytes.now at e) }
    ensures memory { IfErr result (λ e. e ≢ FrameError.OutOfMemory) }
{
    let mut least = 0;
    let mut to = at;
    for i in 0..count {
        let left = count - 1 - i;
        let key = read_key(bytes, to, least, 65535 - u32::from(left))?;
        least = u32::from(key) + 1;
        to += 2;
    }
    Ok(KeysRef::new(&bytes[at..to]))
}

// The `count` clocks from `at` on.
fn clocks_of(alloc: Global, bytes: &[u8], at: usize, count: u8) -> Result<Clocks, FrameError>
    requires there { at ≤ length bytes.now }
    requires most { count ≤ MAX_SERVICES }
    ensures clocks { IfOk result (λ clocks. Stands (run_part clock_items 0 count) clocks bytes.now at (at + 4 * count)) }
    ensures bad { IfErr result (λ e. Fails (run_part clock_items 0 count) bytes.now at e) }
{
    let mut clocks = Vec::with_capacity(alloc, usize::from(count))?;
    let mut to = at;
    for _ in 0..count {
        let clock = read_clock(bytes, to, FrameReason::Clocks)?;
        clocks.push_reserved(clock);
        to += 4;
    }
    Ok(Clocks::from_vec(clocks))
}

// The `count` places with their clocks from `at` on, strictly rising, lent.
fn places_of(bytes: &[u8], at: usize, count: u8) -> Result<PlacesRef<'_>, FrameError>
    requires there { at ≤ length bytes.now }
    requires most { count ≤ MAX_SERVICES }
    ensures places { IfOk result (λ clocks. Stands (run_part place_items 0 count) clocks bytes.now at (at + 5 * count)) }
    ensures bad { IfErr result (λ e. Fails (run_part place_items 0 count) bytes.now at e) }
{
    let mut least = 0;
    let mut to = at;
    for i in 0..count {
        let left = count - 1 - i;
        let named = read_place(bytes, to, least, left)?;
        least = named.place + 1;
        to += 5;
    }
    Ok(PlacesRef::new(&bytes[at..to]))
}

// The place at `at`, from `least` on and with room for `left` places above it, and its clock.
fn read_place(bytes: &[u8], at: usize, least: u8, left: u8) -> Result<PlaceClock, FrameError>
    requires there { at ≤ length bytes.now }
    requires room { least + left < MAX_SERVICES }
    ensures named { IfOk result (λ named. Stands (item_part place_items least left) named bytes.now at (at + 5)) }
    ensures bad { IfErr result (λ e. Fails (item_part place_items least left) bytes.now at e) }
{
    let place = read_byte(bytes, at, FrameReason::Places, least, 63 - left)?;
    let clock = read_clock(bytes, at + 1, FrameReason::Clocks)?;
    Ok(PlaceClock { place, clock })
}
