// Formulas read from bytes.
ghost use Rattle.std.specs.Prelude.{◌≡◌, ◌<◌, ◌^◌, ◌∷◌, ◌++◌, ℕ, List, length, flat_map, All, IfOk};
ghost use Rattle.svc_expr.specs.Canonical.{canonical_text, IsWithin as IsTreeWithin};
ghost use Rattle.svc_expr.specs.Tree.{tree_of};
ghost use Rattle.saved_state.specs.Bytes.{u16_bytes};
ghost use Rattle.saved_state.specs.Found.{Finds, FindsBoth};
ghost use Rattle.saved_state.specs.Named.{named_formula_bytes, FitsFormula, IsNamedFormula, IsNamedExpression};
ghost use Rattle.saved_state.specs.declared.named.NamedFormula.{NamedFormula as AnyFormula};
ghost use Rattle.svc_expr.specs.declared.expr.Reading.{Reading as AnyReading};

use crate::StateError;
use crate::front::{byte, half, split, word};
use crate::named::NamedFormula;
use std::alloc::Global;
use svc_expr::{ExprError, Reading, read_tokens};
use svc_token::{CutError, cut};
use svc_value::{Ids, ServiceId};

/// The formula that the bytes begin with, and what is behind it; `Bad` where there is none.
pub(crate) fn formula(alloc: Global, bytes: &[u8]) -> Result<(NamedFormula, &[u8]), StateError>
    ensures formula { IfOk result (λ x. IsNamedFormula x.0) }
    ensures reads { (formula : AnyFormula) (more : List ℕ) → IsNamedFormula formula → FitsFormula formula → bytes.now ≡ named_formula_bytes formula ++ more → FindsBoth (λ x. x.0) (λ x. x.1.now) result formula more }
{
    let (len, rest) = word(bytes)?;
    let (text, rest) = split(rest, len as usize)?;
    let reading = expression(alloc, text)?;
    let (members, rest) = members(alloc, rest)?;
    Ok((
        NamedFormula {
            expr: reading.expr,
            names: reading.names,
            members,
        },
        rest,
    ))
}

// The expression that the text is, with its names; `Bad` where it is none.
fn expression(alloc: Global, text: &[u8]) -> Result<Reading, StateError>
    ensures expression { IfOk result (λ reading. IsNamedExpression reading) }
    ensures reads { (reading : AnyReading) → IsNamedExpression reading → IsTreeWithin (tree_of reading.expr) → text.now ≡ canonical_text reading.names (tree_of reading.expr) → Finds (λ x. x) result reading }
{
    let mut tokens = Vec::new(alloc);
    match cut(text, &mut tokens) {
        Ok(()) => {}
        Err(CutError::Bad) => return Err(StateError::Bad),
        Err(CutError::OutOfMemory) => return Err(StateError::OutOfMemory),
    }
    match read_tokens(alloc, &tokens) {
        Ok(reading) => Ok(reading),
        Err(ExprError::Bad) => Err(StateError::Bad),
        Err(ExprError::TooLarge) => Err(StateError::Bad),
        Err(ExprError::OutOfMemory) => Err(StateError::OutOfMemory),
    }
}

// The members that the bytes begin with after their number, and what is behind them; `Bad` where there are fewer.
fn members(alloc: Global, bytes: &[u8]) -> Result<(Ids, &[u8]), StateError>
    ensures { (ids more : List ℕ) → length ids < 2 ^ 8 → All (λ id. id < 2 ^ 16) ids → bytes.now ≡ length ids ∷ flat_map u16_bytes ids ++ more → FindsBoth (λ x. x.0) (λ x. x.1.now) result ids more }
{
    let (count, rest) = byte(bytes)?;
    members_of(alloc, count, rest)
}

// So many members, and what is behind them; `Bad` where there are fewer.
fn members_of(alloc: Global, count: u8, bytes: &[u8]) -> Result<(Ids, &[u8]), StateError>
    ensures { (ids more : List ℕ) → length ids ≡ count → All (λ id. id < 2 ^ 16) ids → bytes.now ≡ flat_map u16_bytes ids ++ more → FindsBoth (λ x. x.0) (λ x. x.1.now) result ids more }
{
    let mut ids = Ids::new(alloc);
    let mut rest = bytes;
    for _ in 0..count {
        let (id, after) = half(rest)?;
        ids.push(ServiceId(id))?;
        rest = after;
    }
    Ok((ids, rest))
}
