// Numbers read at a place of some bytes.
ghost use Rattle.std.specs.Prelude.{◌≡◌, ◌≢◌, ◌+◌, ◌<◌, ◌≤◌, ◌^◌, length, IfOk, IfErr};
ghost use Rattle.wire_frame.specs.Parts.{Stands, Fails, clock_part, byte_part, key_part};

use crate::{FrameError, FrameReason};
use svc_value::Clock;

/// The clock in the 4 bytes from `at` on; `Bad` where there is none, with the reason `field` for a clock of 0. No memory
/// is taken.
pub(crate) fn read_clock(bytes: &[u8], at: usize, field: FrameReason) -> Result<Clock, FrameError>
    requires { at ≤ length bytes.now }
    ensures clock { IfOk result (λ clock. Stands (clock_part field) clock bytes.now at (at + 4)) }
    ensures bad { IfErr result (λ e. Fails (clock_part field) bytes.now at e) }
    ensures memory { IfErr result (λ e. e ≢ FrameError.OutOfMemory) }
{
    match &bytes[at..] {
        [a, b, c, d, ..] => match u32::from_be_bytes([*a, *b, *c, *d]) {
            0 => Err(FrameError::Bad {
                place: at + 3,
                reason: field,
            }),
            clock => Ok(Clock(clock)),
        },
        front => Err(FrameError::Bad {
            place: at + front.len(),
            reason: FrameReason::Short,
        }),
    }
}

/// The byte at `at`, from `least` to `most`; `Bad` where there is none, with the reason `field` for any other byte. No
/// memory is taken.
pub(crate) fn read_byte(
    bytes: &[u8],
    at: usize,
    field: FrameReason,
    least: u8,
    most: u8,
) -> Result<u8, FrameError>
    requires there { at ≤ length bytes.now }
    requires some { least ≤ most }
    ensures byte { IfOk result (λ byte. Stands (byte_part field least most) byte bytes.now at (at + 1)) }
    ensures bad { IfErr result (λ e. Fails (byte_part field least most) bytes.now at e) }
    ensures memory { IfErr result (λ e. e ≢ FrameError.OutOfMemory) }
{
    match &bytes[at..] {
        [byte, ..] if least <= *byte && *byte <= most => Ok(*byte),
        [_, ..] => Err(FrameError::Bad {
            place: at,
            reason: field,
        }),
        [] => Err(FrameError::Bad {
            place: at,
            reason: FrameReason::Short,
        }),
    }
}

/// The service number in the 2 bytes from `at` on, from `least` to `most`; `Bad` where there is none. No memory is taken.
pub(crate) fn read_key(bytes: &[u8], at: usize, least: u32, most: u32) -> Result<u16, FrameError>
    requires there { at ≤ length bytes.now }
    requires some { least ≤ most }
    requires small { most < 2 ^ 16 }
    ensures key { IfOk result (λ key. Stands (key_part least most) key bytes.now at (at + 2)) }
    ensures bad { IfErr result (λ e. Fails (key_part least most) bytes.now at e) }
    ensures memory { IfErr result (λ e. e ≢ FrameError.OutOfMemory) }
{
    let [first, rest @ ..] = &bytes[at..] else {
        return Err(FrameError::Bad {
            place: at,
            reason: FrameReason::Short,
        });
    };
    let start = u32::from(*first) * 256;
    if start + 255 < least || most < start {
        return Err(FrameError::Bad {
            place: at,
            reason: FrameReason::Ids,
        });
    }
    let [second, ..] = rest else {
        return Err(FrameError::Bad {
            place: at + 1,
            reason: FrameReason::Short,
        });
    };
    let key = start + u32::from(*second);
    if key < least || most < key {
        return Err(FrameError::Bad {
            place: at + 1,
            reason: FrameReason::Ids,
        });
    }
    Ok(key as u16)
}
