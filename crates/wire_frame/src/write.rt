// The bytes of a frame, behind those of a list.
ghost use Rattle.std.specs.Prelude.{◌≡◌, ◌+◌, ◌<◌, ◌≤◌, ◌^◌, [], ◌∷◌, ◌++◌, length, take, flat_map, All, OnOk, OnErr};
ghost use Rattle.wire_frame.specs.declared.frame.Frame.TheVariants.{Sources, Carried, Changed};
ghost use Rattle.wire_frame.specs.Frames.{u32_bytes, u16_bytes, place_clock, frame_bytes, IsAnnounced, IsCargo, IsDelta, IsWithinLayout, Fits};

use crate::put::{put_clocks, put_keys, put_place_clocks, put_word};
use crate::{Cargo, Frame, PlaceClock};
use svc_value::limits::MAX_SERVICES;
use svc_value::{Clock, OutOfMemory, ServiceId, Value, put_value};

/// Appends the bytes of `frame`, which is within its layout. After `OutOfMemory` `out` is as it was.
pub fn write_frame(frame: &Frame, out: &mut Vec<u8>) -> Result<(), OutOfMemory>
    requires { IsWithinLayout frame.now }
    ensures ok { OnOk result (out.new.items ≡ out.old.items ++ frame_bytes frame.now) }
    ensures fits { OnOk result (Fits frame.now) }
    ensures err { OnErr result (out.new.items ≡ out.old.items) }
{
    match frame {
        Frame::Subscribe(epoch) => put_head(1, *epoch, out),
        Frame::Unsubscribe(epoch) => put_head(2, *epoch, out),
        Frame::Sources(announced) => {
            write_sources(announced.epoch, announced.keys.as_slice(), out)
        }
        Frame::Carried(cargo) => write_cargo(cargo, out),
        Frame::Changed(delta) => {
            write_value(delta.epoch, &delta.value, delta.clocks.as_slice(), out)
        }
    }
}

/// Appends the bytes of the frame that announces `keys`, strictly rising and from 1 to 64 of them, under `epoch`, which is
/// at least 1. After `OutOfMemory` `out` is as it was.
pub fn write_sources(epoch: Clock, keys: &[ServiceId], out: &mut Vec<u8>) -> Result<(), OutOfMemory>
    requires { IsAnnounced (record { epoch = epoch; keys = keys.now }) }
    ensures ok { OnOk result (out.new.items ≡ out.old.items ++
        frame_bytes (Sources (record { epoch = epoch; keys = keys.now }))) }
    ensures fits { OnOk result (Fits (Sources (record { epoch = epoch; keys = keys.now }))) }
    ensures err { OnErr result (out.new.items ≡ out.old.items) }
{
    let len = out.len();
    let written = put_announced(epoch, keys, out);
    if written.is_err() {
        out.truncate(len);
    }
    written
}

/// Appends the bytes of the frame of version 2 with `value` under `epoch`, which is at least 1, and with `clocks`: places
/// below 64, strictly rising, each with a clock of at least 1. After `OutOfMemory` `out` is as it was.
pub fn write_value(
    epoch: Clock,
    value: &Value,
    clocks: &[PlaceClock],
    out: &mut Vec<u8>,
) -> Result<(), OutOfMemory>
    requires { IsDelta (record { epoch = epoch; value = value.now; clocks = clocks.now }) }
    ensures ok { OnOk result (out.new.items ≡ out.old.items ++
        frame_bytes (Changed (record { epoch = epoch; value = value.now; clocks = clocks.now }))) }
    ensures fits { OnOk result (Fits (Changed (record { epoch = epoch; value = value.now; clocks = clocks.now }))) }
    ensures err { OnErr result (out.new.items ≡ out.old.items) }
{
    let len = out.len();
    let written = put_delta(epoch, value, clocks, out);
    if written.is_err() {
        out.truncate(len);
    }
    written
}

// Appends the bytes of a value of version 1. After `OutOfMemory` `out` is as it was.
fn write_cargo(cargo: &Cargo, out: &mut Vec<u8>) -> Result<(), OutOfMemory>
    requires { IsCargo cargo.now }
    ensures ok { OnOk result (out.new.items ≡ out.old.items ++ frame_bytes (Carried cargo.now)) }
    ensures fits { OnOk result (Fits (Carried cargo.now)) }
    ensures err { OnErr result (out.new.items ≡ out.old.items) }
{
    let len = out.len();
    let written = put_cargo(cargo, out);
    if written.is_err() {
        out.truncate(len);
    }
    written
}

// Appends a frame of keys; after `OutOfMemory` some of its bytes may stand behind those of before.
fn put_announced(epoch: Clock, keys: &[ServiceId], out: &mut Vec<u8>) -> Result<(), OutOfMemory>
    requires { length keys.now ≤ MAX_SERVICES }
    ensures ok { OnOk result (out.new.items ≡ out.old.items ++
        frame_bytes (Sources (record { epoch = epoch; keys = keys.now }))) }
    ensures fits { OnOk result (Fits (Sources (record { epoch = epoch; keys = keys.now }))) }
    ensures kept { OnErr result (take (length out.old.items) out.new.items ≡ out.old.items) }
{
    put_head(3, epoch, out)?;
    put_keys(keys, out)
}

// Appends a value of version 1; after `OutOfMemory` some of its bytes may stand behind those of before.
fn put_cargo(cargo: &Cargo, out: &mut Vec<u8>) -> Result<(), OutOfMemory>
    requires { IsCargo cargo.now }
    ensures ok { OnOk result (out.new.items ≡ out.old.items ++ frame_bytes (Carried cargo.now)) }
    ensures fits { OnOk result (Fits (Carried cargo.now)) }
    ensures kept { OnErr result (take (length out.old.items) out.new.items ≡ out.old.items) }
{
    put_head(4, cargo.epoch, out)?;
    put_value(&cargo.value, out)?;
    put_clocks(cargo.clocks.as_slice(), out)
}

// Appends a value of version 2; after `OutOfMemory` some of its bytes may stand behind those of before.
fn put_delta(
    epoch: Clock,
    value: &Value,
    clocks: &[PlaceClock],
    out: &mut Vec<u8>,
) -> Result<(), OutOfMemory>
    requires { length clocks.now ≤ MAX_SERVICES }
    ensures ok { OnOk result (out.new.items ≡ out.old.items ++
        frame_bytes (Changed (record { epoch = epoch; value = value.now; clocks = clocks.now }))) }
    ensures fits { OnOk result (Fits (Changed (record { epoch = epoch; value = value.now; clocks = clocks.now }))) }
    ensures kept { OnErr result (take (length out.old.items) out.new.items ≡ out.old.items) }
{
    put_head(5, epoch, out)?;
    put_value(value, out)?;
    put_place_clocks(clocks, out)
}

// Appends the kind and the epoch of a frame. `OutOfMemory` leaves the list as it was.
fn put_head(kind: u8, epoch: Clock, out: &mut Vec<u8>) -> Result<(), OutOfMemory>
    ensures ok { OnOk result (out.new.items ≡ out.old.items ++ kind ∷ u32_bytes epoch) }
    ensures fits { OnOk result (epoch < 2 ^ 32) }
    ensures err { OnErr result (out.new.items ≡ out.old.items) }
{
    out.reserve(5)?;
    out.push_reserved(kind);
    put_word(epoch.0, out);
    Ok(())
}
