// Numbers, read a byte at a time.
ghost use Rattle.std.specs.Prelude.{◌≡◌, ◌≤◌, ◌<◌, ◌+◌, ◌^◌, IfOk};
ghost use Rattle.svc_value.specs.Reading.{Gives, GivesNumber, takes_digit, digits_at, number_at, signed_at};

use crate::inside::Form;
use crate::{LiteralError, Value};

/// The number that all of the bytes are, in a form of `form`.
pub(crate) fn read_number(bytes: &[u8], form: Form) -> Result<Value, LiteralError>
    ensures { GivesNumber result (signed_at form bytes.now) }
{
    match bytes {
        [b'-', digits @ ..] => {
            let magnitude = read_digits(digits, 1, form, form == Form::Any, 1 << 63)?;
            Ok(Value::Int((0 - magnitude as i128) as i64))
        }
        _ => {
            let magnitude = read_digits(bytes, 0, form, true, (1 << 63) - 1)?;
            Ok(Value::Int(magnitude as i64))
        }
    }
}

// The number of one or more digits, the first of which stands at the place `start`; `zero` says whether it may be 0.
fn read_digits(
    bytes: &[u8],
    start: usize,
    form: Form,
    zero: bool,
    limit: u64,
) -> Result<u64, LiteralError>
    requires limit { limit ≤ 2 ^ 63 }
    requires small { 9 ≤ limit }
    requires place { start ≤ 1 }
    ensures number { Gives (λ number. number) result (number_at form zero limit start bytes.now) }
    ensures most { IfOk result (λ number. number ≤ limit) }
{
    let [first, rest @ ..] = bytes else {
        return Err(LiteralError::Bad { place: start });
    };
    if !first.is_ascii_digit() || (*first == b'0' && !zero) {
        return Err(LiteralError::Bad { place: start });
    }
    let mut number = u64::from(*first - b'0');
    let mut at = start + 1;
    for byte in rest {
        if !takes_digit(form, limit, number, *byte) {
            return Err(LiteralError::Bad { place: at });
        }
        number = number * 10 + u64::from(*byte - b'0');
        at += 1;
    }
    Ok(number)
}

// Whether a digit may follow the number so far.
fn takes_digit(form: Form, limit: u64, number: u64, byte: u8) -> bool
    ensures { result ≡ takes_digit form limit number byte }
{
    byte.is_ascii_digit()
        && u128::from(number) * 10 + u128::from(byte - b'0') <= u128::from(limit)
        && (form == Form::Any || number != 0)
}
