// Names and frames in a line.
ghost use Rattle.std.specs.Prelude.{◌≡◌, ◌≢◌, ◌≤◌, ◌<◌, [], ◌∷◌, ℕ, List, false, length, IfOk, IfSome, IsNone};
ghost use Rattle.std.specs.Fmt.{digit_glyph};
ghost use Rattle.trace_text.specs.Entries.{AreBytes};
ghost use Rattle.trace_text.specs.Lines.{byte_hex, frame_text, hex};
ghost use Rattle.trace_text.specs.Naming.{AreNamed, naming_of};
ghost use Rattle.trace_text.specs.Reading.{ReadsAs};

use crate::reading::cutting::cut_at_first;
use std::alloc::Global;
use svc_value::limits::MAX_SERVICES;
use svc_value::{Bytes, Names, OutOfMemory, ServiceId};

// The service with this name.
pub(crate) fn find_name(names: &Names, word: &[u8]) -> Option<ServiceId>
    requires { length names.now ≤ MAX_SERVICES }
    ensures { ReadsAs (λ n. n < length names.now) (naming_of names.now) word.now result }
{
    for i in 0..names.len() {
        if names.as_slice()[i].as_slice() == word {
            return Some(ServiceId(i as u16));
        }
    }
    None
}

// The bytes that are printed as these digits.
fn read_hex(alloc: Global, digits: &[u8]) -> Result<Option<Bytes>, OutOfMemory>
    ensures { IfOk result (ReadsAs AreBytes hex digits.now) }
{
    let mut bytes = Vec::new(alloc);
    let mut rest = digits;
    while let [high, low, others @ ..] = rest {
        let Some(byte) = byte_of(*high, *low) else {
            return Ok(None);
        };
        bytes.push(byte)?;
        rest = others;
    }
    if !rest.is_empty() {
        return Ok(None);
    }
    Ok(Some(Bytes::from_vec(bytes)))
}

// The byte of two digits.
fn byte_of(high: u8, low: u8) -> Option<u8>
    ensures { ReadsAs (λ byte. byte < 256) byte_hex (high ∷ low ∷ []) result }
{
    let Some(high) = digit_of(high) else {
        return None;
    };
    let Some(low) = digit_of(low) else {
        return None;
    };
    Some(high * 16 + low)
}

// The value of a digit in lower case.
fn digit_of(glyph: u8) -> Option<u8>
    ensures some { IfSome result (λ digit. (digit < 16) × (digit_glyph false digit ≡ glyph)) }
    ensures none { IsNone result → (digit : ℕ) → digit < 16 → digit_glyph false digit ≢ glyph }
{
    if b'0' <= glyph && glyph <= b'9' {
        Some(glyph - b'0')
    } else if b'a' <= glyph && glyph <= b'f' {
        Some(glyph - b'a' + 10)
    } else {
        None
    }
}

// The service and the frame that are printed so.
pub(crate) fn read_frame(
    alloc: Global,
    names: &Names,
    text: &[u8],
) -> Result<Option<(ServiceId, Bytes)>, OutOfMemory>
    requires few { length names.now ≤ MAX_SERVICES }
    requires named { AreNamed (naming_of names.now) (length names.now) }
    ensures { IfOk result (ReadsAs (λ (pair : ℕ × List ℕ). (pair.0 < length names.now) × AreBytes pair.1) (λ (pair : ℕ × List ℕ). frame_text (naming_of names.now) pair.0 pair.1) text.now) }
{
    let Some((word, digits)) = cut_at_first(text, b' ') else {
        return Ok(None);
    };
    let Some(id) = find_name(names, word) else {
        return Ok(None);
    };
    let Some(bytes) = read_hex(alloc, digits)? else {
        return Ok(None);
    };
    Ok(Some((id, bytes)))
}
