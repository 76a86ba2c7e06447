// The bytes of frames.
ghost use Rattle.std.specs.Prelude.{◌≡◌, ◌≤◌, ◌<◌, ◌^◌, length, IfOk};
ghost use Rattle.svc_value.specs.Layout.{layout};
ghost use Rattle.wire_frame.specs.declared.frame.Frame.TheVariants.{Sources, Changed};
ghost use Rattle.wire_frame.specs.Frames.{IsAnnounced, IsDelta, IsWithinLayout, FrameOf, frame_bytes};
ghost use Rattle.node_core.specs.Outgoing.{with_epoch};

use std::alloc::Global;
use svc_value::{Clock, OutOfMemory, ServiceId, Value};
use wire_frame::{Frame, PlaceClock, write_frame, write_sources, write_value};

// The number of bytes of a value.
fn value_size(value: &Value) -> usize
    ensures size { result ≡ length (layout value.now) }
    ensures most { result ≤ 259 }
{
    match value {
        Value::Int(_) => 9,
        Value::Words(text) => 3 + text.as_str().len(),
        Value::Bad(_) => 2,
    }
}

// The number of bytes of a frame of keys.
fn sources_size(epoch: Clock, keys: &[ServiceId]) -> usize
    requires { IsAnnounced (record { epoch = epoch; keys = keys.now }) }
    ensures { result ≡ length (frame_bytes (Sources (record { epoch = epoch; keys = keys.now }))) }
{
    6 + 2 * keys.len()
}

// The number of bytes of a frame with a value.
#[tactic(auto, using(crate::proofs::EncodingLemmas::few_clocks))]
fn delta_size(epoch: Clock, value: &Value, clocks: &[PlaceClock]) -> usize
    requires { IsDelta (record { epoch = epoch; value = value.now; clocks = clocks.now }) }
    ensures { result ≡ length (frame_bytes (Changed (record { epoch = epoch; value = value.now; clocks = clocks.now }))) }
{
    6 + value_size(value) + 5 * clocks.len()
}

// The bytes of a frame, in a list of `size` bytes, if it has no more.
pub(crate) fn bytes_of(alloc: Global, frame: &Frame, size: usize) -> Result<Vec<u8>, OutOfMemory>
    requires { IsWithinLayout frame.now }
    ensures { IfOk result (λ bytes. FrameOf frame.now bytes.items) }
{
    let mut bytes = Vec::with_capacity(alloc, size)?;
    write_frame(frame, &mut bytes)?;
    Ok(bytes)
}

// The bytes of a frame of keys.
pub(crate) fn sources_bytes(
    alloc: Global,
    epoch: Clock,
    keys: &[ServiceId],
) -> Result<Vec<u8>, OutOfMemory>
    requires { IsAnnounced (record { epoch = epoch; keys = keys.now }) }
    ensures { IfOk result (λ bytes. FrameOf (Sources (record { epoch = epoch; keys = keys.now })) bytes.items) }
{
    let mut bytes = Vec::with_capacity(alloc, sources_size(epoch, keys))?;
    write_sources(epoch, keys, &mut bytes)?;
    Ok(bytes)
}

// The bytes of a frame with a value.
pub(crate) fn value_bytes(
    alloc: Global,
    epoch: Clock,
    value: &Value,
    clocks: &[PlaceClock],
) -> Result<Vec<u8>, OutOfMemory>
    requires { IsDelta (record { epoch = epoch; value = value.now; clocks = clocks.now }) }
    ensures { IfOk result (λ bytes. FrameOf (Changed (record { epoch = epoch; value = value.now; clocks = clocks.now })) bytes.items) }
{
    let mut bytes = Vec::with_capacity(alloc, delta_size(epoch, value, clocks))?;
    write_value(epoch, value, clocks, &mut bytes)?;
    Ok(bytes)
}

// The bytes of a frame under another epoch.
pub(crate) fn under(alloc: Global, bytes: &[u8], epoch: Clock) -> Result<Vec<u8>, OutOfMemory>
    requires { 5 ≤ length bytes.now }
    ensures items { IfOk result (λ copy. copy.items ≡ with_epoch epoch bytes.now) }
    ensures fits { epoch < 2 ^ 32 }
{
    let mut copy = Vec::with_capacity(alloc, bytes.len())?;
    copy.extend_from_slice(&bytes[..1])?;
    copy.extend_from_slice(&epoch.0.to_be_bytes())?;
    copy.extend_from_slice(&bytes[5..])?;
    Ok(copy)
}
