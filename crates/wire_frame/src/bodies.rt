// What stands behind the kind of a frame.
ghost use Rattle.std.specs.Prelude.{◌≡◌, ◌≢◌, ◌≤◌, length, IfOk, IfErr};
ghost use Rattle.wire_frame.specs.Bodies.{announced_body, cargo_body, delta_body, of_announced, of_cargo, of_delta};
ghost use Rattle.wire_frame.specs.Fields.{frame_reason};
ghost use Rattle.wire_frame.specs.LentFrames.{announced_in, delta_in};
ghost use Rattle.wire_frame.specs.Parts.{Stands, Fails, value_part};

use crate::lists::{read_clocks, read_keys, read_places};
use crate::numbers::read_clock;
use crate::{AnnouncedRef, Cargo, DeltaRef, FrameError, FrameReason};
use std::alloc::Global;
use svc_value::{Value, ValueError, ValueReason, take_value};

/// An epoch with the keys under it, which are lent, and where they end; `Bad` where there are none. No memory is taken.
pub(crate) fn read_announced(bytes: &[u8]) -> Result<(AnnouncedRef<'_>, usize), FrameError>
    requires { 1 ≤ length bytes.now }
    ensures announced { IfOk result (λ read. Stands announced_body (of_announced (announced_in read.0)) bytes.now 1 read.1) }
    ensures bad { IfErr result (λ e. Fails announced_body bytes.now 1 e) }
    ensures memory { IfErr result (λ e. e ≢ FrameError.OutOfMemory) }
{
    let epoch = read_clock(bytes, 1, FrameReason::Epoch)?;
    let (keys, end) = read_keys(bytes, 5)?;
    Ok((AnnouncedRef { epoch, keys }, end))
}

/// An epoch, a value and clocks, and where they end; `Bad` where there are none.
pub(crate) fn read_cargo(alloc: Global, bytes: &[u8]) -> Result<(Cargo, usize), FrameError>
    requires { 1 ≤ length bytes.now }
    ensures cargo { IfOk result (λ read. Stands cargo_body (of_cargo read.0) bytes.now 1 read.1) }
    ensures bad { IfErr result (λ e. Fails cargo_body bytes.now 1 e) }
{
    let epoch = read_clock(bytes, 1, FrameReason::Epoch)?;
    let (value, at) = read_value(alloc, bytes, 5)?;
    let (clocks, end) = read_clocks(alloc, bytes, at)?;
    Ok((
        Cargo {
            epoch,
            value,
            clocks,
        },
        end,
    ))
}

/// An epoch, a value and places with their clocks, which are lent, and where they end; `Bad` where there are none.
pub(crate) fn read_delta(alloc: Global, bytes: &[u8]) -> Result<(DeltaRef<'_>, usize), FrameError>
    requires { 1 ≤ length bytes.now }
    ensures delta { IfOk result (λ read. Stands delta_body (of_delta (delta_in read.0)) bytes.now 1 read.1) }
    ensures bad { IfErr result (λ e. Fails delta_body bytes.now 1 e) }
{
    let epoch = read_clock(bytes, 1, FrameReason::Epoch)?;
    let (value, at) = read_value(alloc, bytes, 5)?;
    let (clocks, end) = read_places(bytes, at)?;
    Ok((
        DeltaRef {
            epoch,
            value,
            clocks,
        },
        end,
    ))
}

// The value from `at` on, and where it ends.
fn read_value(alloc: Global, bytes: &[u8], at: usize) -> Result<(Value, usize), FrameError>
    requires { at ≤ length bytes.now }
    ensures value { IfOk result (λ read. Stands value_part read.0 bytes.now at read.1) }
    ensures bad { IfErr result (λ e. Fails value_part bytes.now at e) }
{
    match take_value(alloc, &bytes[at..]) {
        Ok((value, len)) => Ok((value, at + len)),
        Err(ValueError::Bad { place, reason }) => Err(FrameError::Bad {
            place: at + place,
            reason: reason_of(reason),
        }),
        Err(ValueError::OutOfMemory) => Err(FrameError::OutOfMemory),
    }
}

// Why a value is refused, as why a frame is.
fn reason_of(reason: ValueReason) -> FrameReason
    ensures { result ≡ frame_reason reason }
{
    match reason {
        ValueReason::Short => FrameReason::Short,
        other => FrameReason::Value(other),
    }
}
