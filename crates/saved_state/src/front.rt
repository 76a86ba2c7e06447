// What stands in front of some bytes.
ghost use Rattle.std.specs.Prelude.{◌≡◌, ◌<◌, ◌^◌, ◌∷◌, ◌++◌, ℕ, List, length};
ghost use Rattle.saved_state.specs.Bytes.{type_code, u16_bytes, u32_bytes};
ghost use Rattle.saved_state.specs.Found.{Finds, FindsBoth};
ghost use Rattle.svc_value.specs.declared.value.ValueType.{ValueType as AnyType};

use crate::StateError;
use svc_value::ValueType;

/// The first byte, and what is behind it; `Bad` where there is none.
pub(crate) fn byte(bytes: &[u8]) -> Result<(u8, &[u8]), StateError>
    ensures { (n : ℕ) (more : List ℕ) → bytes.now ≡ n ∷ more → FindsBoth (λ x. x.0) (λ x. x.1.now) result n more }
{
    match bytes {
        [first, rest @ ..] => Ok((*first, rest)),
        [] => Err(StateError::Bad),
    }
}

/// The number in the first 2 bytes, and what is behind them; `Bad` where there are fewer.
pub(crate) fn half(bytes: &[u8]) -> Result<(u16, &[u8]), StateError>
    ensures { (n : ℕ) (more : List ℕ) → n < 2 ^ 16 → bytes.now ≡ u16_bytes n ++ more → FindsBoth (λ x. x.0) (λ x. x.1.now) result n more }
{
    match bytes {
        [a, b, rest @ ..] => Ok((u16::from_be_bytes([*a, *b]), rest)),
        _ => Err(StateError::Bad),
    }
}

/// The number in the first 4 bytes, and what is behind them; `Bad` where there are fewer.
pub(crate) fn word(bytes: &[u8]) -> Result<(u32, &[u8]), StateError>
    ensures { (n : ℕ) (more : List ℕ) → n < 2 ^ 32 → bytes.now ≡ u32_bytes n ++ more → FindsBoth (λ x. x.0) (λ x. x.1.now) result n more }
{
    match bytes {
        [a, b, c, d, rest @ ..] => Ok((u32::from_be_bytes([*a, *b, *c, *d]), rest)),
        _ => Err(StateError::Bad),
    }
}

/// The first `len` bytes, and what is behind them; `Bad` where there are fewer.
pub(crate) fn split(bytes: &[u8], len: usize) -> Result<(&[u8], &[u8]), StateError>
    ensures { (front more : List ℕ) → length front ≡ len → bytes.now ≡ front ++ more → FindsBoth (λ x. x.0.now) (λ x. x.1.now) result front more }
{
    if bytes.len() < len {
        return Err(StateError::Bad);
    }
    Ok((&bytes[..len], &bytes[len..]))
}

/// The type with this code; `Bad` where there is none.
pub(crate) fn type_of_code(code: u8) -> Result<ValueType, StateError>
    ensures { (ty : AnyType) → code ≡ type_code ty → Finds (λ x. x) result ty }
{
    match code {
        1 => Ok(ValueType::Int),
        2 => Ok(ValueType::Text),
        _ => Err(StateError::Bad),
    }
}
