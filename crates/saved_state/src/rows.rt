// Services read from bytes, with their names.
ghost use Rattle.std.specs.Prelude.{◌≡◌, ◌∷◌, ◌++◌, ℕ, List, length, flat_map, All, IfOk, IsFalse, ◌↔◌};
ghost use Rattle.svc_graph.specs.Accepting.{IsProper};
ghost use Rattle.svc_value.specs.Layout.{layout, IsWithin};
ghost use Rattle.svc_value.specs.declared.value.Value.{Value as AnyValue};
ghost use Rattle.saved_state.specs.Found.{Finds, FindsBoth};
ghost use Rattle.saved_state.specs.Named.{named_bytes, named_definition_bytes, FitsNamed, IsNamedDefinition, IsNamedRow, IsReadRow};
ghost use Rattle.saved_state.specs.declared.named.NamedDefinition.{NamedDefinition as AnyDefinition};
ghost use Rattle.saved_state.specs.declared.named.NamedRow.{NamedRow as AnyRow};

use crate::StateError;
use crate::expressions::formula;
use crate::front::{byte, half, split, type_of_code};
use crate::named::{NamedDefinition, NamedRow, NamedRows};
use std::alloc::Global;
use svc_token::is_name;
use svc_value::limits::MAX_RANK;
use svc_value::{Name, Rank, Value, ValueError, take_value};

/// So many services, which are all of the bytes; `Bad` where they are not.
pub(crate) fn rows(alloc: Global, count: u8, bytes: &[u8]) -> Result<NamedRows, StateError>
    ensures rows { IfOk result (λ rows. All IsNamedRow rows) }
    ensures len { IfOk result (λ rows. length rows ≡ count) }
    ensures reads { (rows : List AnyRow) → length rows ≡ count → All IsReadRow rows → bytes.now ≡ flat_map named_bytes rows → Finds (λ x. x) result rows }
{
    let mut rows = NamedRows::new(alloc);
    let mut rest = bytes;
    for _ in 0..count {
        let (row, after) = row(alloc, rest)?;
        rows.push(row)?;
        rest = after;
    }
    if !rest.is_empty() {
        return Err(StateError::Bad);
    }
    Ok(rows)
}

// The service that the bytes begin with, and what is behind it; `Bad` where there is none.
fn row(alloc: Global, bytes: &[u8]) -> Result<(NamedRow, &[u8]), StateError>
    ensures row { IfOk result (λ x. IsNamedRow x.0) }
    ensures reads { (row : AnyRow) (more : List ℕ) → IsReadRow row → bytes.now ≡ named_bytes row ++ more → FindsBoth (λ x. x.0) (λ x. x.1.now) result row more }
{
    let (len, rest) = byte(bytes)?;
    let (name, rest) = split(rest, usize::from(len))?;
    if !is_name(name) {
        return Err(StateError::Bad);
    }
    let (code, rest) = byte(rest)?;
    let ty = type_of_code(code)?;
    let (rank, rest) = half(rest)?;
    if u64::from(rank) > MAX_RANK {
        return Err(StateError::Bad);
    }
    let (definition, rest) = definition(alloc, Rank(rank), rest)?;
    let name = Name::from_slice(alloc, name)?;
    Ok((
        NamedRow {
            name,
            rank: Rank(rank),
            ty,
            definition,
        },
        rest,
    ))
}

// The definition of a service of this rank that the bytes begin with, and what is behind it; `Bad` where there is none.
fn definition(
    alloc: Global,
    rank: Rank,
    bytes: &[u8],
) -> Result<(NamedDefinition, &[u8]), StateError>
    ensures definition { IfOk result (λ x. IsNamedDefinition rank x.0) }
    ensures reads { (definition : AnyDefinition) (more : List ℕ) → IsNamedDefinition rank definition → FitsNamed definition → bytes.now ≡ named_definition_bytes definition ++ more → FindsBoth (λ x. x.0) (λ x. x.1.now) result definition more }
{
    if rank.0 == 0 {
        let (value, rest) = value(alloc, bytes)?;
        return Ok((NamedDefinition::Input(value), rest));
    }
    let (formula, rest) = formula(alloc, bytes)?;
    Ok((NamedDefinition::Derived(formula), rest))
}

// The value that is no fault and that the bytes begin with, and what is behind it; `Bad` where there is none.
fn value(alloc: Global, bytes: &[u8]) -> Result<(Value, &[u8]), StateError>
    ensures value { IfOk result (λ x. IsProper x.0) }
    ensures reads { (value : AnyValue) (more : List ℕ) → IsProper value → IsWithin value → bytes.now ≡ layout value ++ more → FindsBoth (λ x. x.0) (λ x. x.1.now) result value more }
{
    match take_value(alloc, bytes) {
        Ok((value, len)) => {
            if is_fault(&value) {
                return Err(StateError::Bad);
            }
            Ok((value, &bytes[len..]))
        }
        Err(ValueError::Bad { .. }) => Err(StateError::Bad),
        Err(ValueError::OutOfMemory) => Err(StateError::OutOfMemory),
    }
}

// Whether the value is a fault.
fn is_fault(value: &Value) -> bool
    ensures { IsFalse result ↔ IsProper value.now }
{
    match value {
        Value::Bad(_) => true,
        Value::Int(_) | Value::Words(_) => false,
    }
}
