// Decimal numbers in a line.
ghost use Rattle.std.specs.Prelude.{◌≡◌, ◌≤◌, ◌<◌, ◌^◌, length, MatchBool, IfSome, IsNone, slice_index};
ghost use Rattle.std.specs.Char.{is_ascii_digit};
ghost use Rattle.std.specs.List.{list_all};
ghost use Rattle.std.specs.Fmt.{decimal};
ghost use Rattle.trace_text.specs.Inside.Cutting.{IsParsed};
ghost use Rattle.trace_text.specs.Reading.{ReadsAs};

use std::str;

// The number of 64 bits that is printed so.
pub(crate) fn read_number(digits: &[u8]) -> Option<u64>
    ensures { ReadsAs (λ n. n < 2 ^ 64) decimal digits.now result }
{
    if !are_digits(digits) {
        return None;
    }
    if has_leading_zero(digits) {
        return None;
    }
    match str::from_utf8(digits) {
        Ok(text) => parsed(text),
        Err(_) => None,
    }
}

// The number of 32 bits that is printed so.
pub(crate) fn read_short_number(digits: &[u8]) -> Option<u32>
    ensures { ReadsAs (λ n. n < 2 ^ 32) decimal digits.now result }
{
    let Some(number) = read_number(digits) else {
        return None;
    };
    if number > u64::from(u32::MAX) {
        return None;
    }
    Some(number as u32)
}

// The number of 64 bits that the text spells.
fn parsed(text: &str) -> Option<u64>
    ensures { IsParsed text.now result }
{
    match text.parse::<u64>() {
        Ok(number) => Some(number),
        Err(_) => None,
    }
}

// Whether each byte is a digit.
fn are_digits(bytes: &[u8]) -> bool
    ensures { result ≡ list_all is_ascii_digit bytes.now }
{
    bytes.iter().all(|byte| byte.is_ascii_digit())
}

// Whether more follows a first 0.
fn has_leading_zero(bytes: &[u8]) -> bool
    ensures { MatchBool result ((1 < length bytes.now) × (slice_index bytes.now 0 ≡ 48)) (slice_index bytes.now 0 ≡ 48 → length bytes.now ≡ 1) }
{
    bytes.len() > 1 && bytes[0] == b'0'
}
