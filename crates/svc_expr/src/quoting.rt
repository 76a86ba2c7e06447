// What quoted texts mean.
ghost use Rattle.std.specs.Prelude.{◌≡◌, ◌<◌, ◌≤◌, ◌++◌, [], length, take, Some, None, IfOk, IfSome, IsNone, option_map, option_and_then, option_to_list};
ghost use Rattle.std.specs.Char.{digit_value};
ghost use Rattle.svc_expr.specs.Quoted.{IsPlace, escaped, step, meaning_from, text_if, quoted_meaning};

use std::alloc::Global;
use std::str;
use svc_value::{MAX_TEXT_LEN, OutOfMemory, ValueText};

/// Where a quoted text stands behind some of its bytes.
#[derive(Clone, Copy, Debug, PartialEq, Eq)]
pub(crate) enum Place {
    /// Between characters.
    Plain,
    /// Behind `\`.
    Escape,
    /// Behind `\x`.
    High,
    /// Behind the first of two hexadecimal digits, which is this.
    Low(u8),
    /// Behind the last quote.
    Closed,
}

fn behind_backslash(byte: u8) -> Option<(Place, Option<u8>)>
    ensures { option_map (λ x. (x.0, option_to_list x.1)) result ≡ escaped byte }
{
    match byte {
        b'"' | b'\\' => Some((Place::Plain, Some(byte))),
        b'n' => Some((Place::Plain, Some(b'\n'))),
        b't' => Some((Place::Plain, Some(b'\t'))),
        b'x' => Some((Place::High, None)),
        _ => None,
    }
}

fn digit(byte: u8) -> u8
    ensures { result ≡ digit_value byte }
{
    match byte {
        b'0'..=b'9' => byte - b'0',
        b'A'..=b'Z' => byte - b'A' + 10,
        b'a'..=b'z' => byte - b'a' + 10,
        _ => 36,
    }
}

fn step_on(place: Place, byte: u8) -> Option<(Place, Option<u8>)>
    requires { IsPlace place }
    ensures { option_map (λ x. (x.0, option_to_list x.1)) result ≡ step place byte }
{
    match place {
        Place::Plain => match byte {
            b'"' => Some((Place::Closed, None)),
            b'\\' => Some((Place::Escape, None)),
            b'\n' => None,
            _ => Some((Place::Plain, Some(byte))),
        },
        Place::Escape => behind_backslash(byte),
        Place::High if digit(byte) < 8 => Some((Place::Low(digit(byte)), None)),
        Place::High => None,
        Place::Low(high) if digit(byte) < 16 => Some((Place::Plain, Some(high * 16 + digit(byte)))),
        Place::Low(_) => None,
        Place::Closed => None,
    }
}

// Writes the bytes behind the first `len`, where there is room for them.
fn put(out: &mut [u8], len: usize, byte: Option<u8>) -> Option<usize>
    requires room { length out.old ≡ MAX_TEXT_LEN }
    requires within { len ≤ MAX_TEXT_LEN }
    ensures within { IfSome result (λ n. n ≤ MAX_TEXT_LEN) }
    ensures put { IfSome result (λ n. take n out.new ≡ take len out.old ++ option_to_list byte) }
    ensures full { IsNone result → MAX_TEXT_LEN < length (take len out.old ++ option_to_list byte) }
{
    let Some(byte) = byte else {
        return Some(len);
    };
    if len == out.len() {
        return None;
    }
    out[len] = byte;
    Some(len + 1)
}

// Writes the meaning of a quoted text behind its first quote, where it has at most 256 bytes.
fn write_meaning(inside: &[u8], out: &mut [u8]) -> Option<usize>
    requires { length out.old ≡ MAX_TEXT_LEN }
    ensures within { IfSome result (λ len. len ≤ MAX_TEXT_LEN) }
    ensures written { IfSome result (λ len. meaning_from Place.Plain inside.now ≡ Some (take len out.new)) }
    ensures none { IsNone result → option_and_then text_if (meaning_from Place.Plain inside.now) ≡ None }
{
    let mut place = Place::Plain;
    let mut len = 0;
    for byte in inside {
        let Some((next, made)) = step_on(place, *byte) else {
            return None;
        };
        let Some(count) = put(out, len, made) else {
            return None;
        };
        place = next;
        len = count;
    }
    if place == Place::Closed {
        Some(len)
    } else {
        None
    }
}

// The text of these bytes, where they are one.
fn text_of(alloc: Global, bytes: &[u8]) -> Result<Option<ValueText>, OutOfMemory>
    requires { length bytes.now ≤ MAX_TEXT_LEN }
    ensures { IfOk result (λ text. text ≡ text_if bytes.now) }
{
    match str::from_utf8(bytes) {
        Ok(text) => Ok(Some(stored(alloc, text)?)),
        Err(_) => Ok(None),
    }
}

fn stored(alloc: Global, text: &str) -> Result<ValueText, OutOfMemory>
    requires { length text.now ≤ MAX_TEXT_LEN }
    ensures { IfOk result (λ made. made ≡ text.now) }
{
    match ValueText::new(alloc, text) {
        Ok(text) => Ok(text),
        Err(_) => Err(OutOfMemory),
    }
}

/// The text that the quoted text means, in memory of `alloc`; None where it means none.
#[tactic(auto, unfolding(crate::specs::Quoted::quoted_meaning))]
pub(crate) fn unquote(alloc: Global, raw: &[u8]) -> Result<Option<ValueText>, OutOfMemory>
    ensures { IfOk result (λ text. text ≡ quoted_meaning raw.now) }
{
    let [b'"', inside @ ..] = raw else {
        return Ok(None);
    };
    let mut bytes = [0; MAX_TEXT_LEN];
    match write_meaning(inside, &mut bytes) {
        Some(len) => text_of(alloc, &bytes[..len]),
        None => Ok(None),
    }
}
