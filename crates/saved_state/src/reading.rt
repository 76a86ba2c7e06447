// States read from bytes.
ghost use Rattle.std.specs.Prelude.{◌≡◌, ◌<◌, ◌≤◌, ◌^◌, ◌↔◌, length, All, IfOk, IsTrue};
ghost use Rattle.std.specs.Result.{IsErrOf};
ghost use Rattle.saved_state.specs.Bytes.{state_bytes, Fits, IsStateOf};
ghost use Rattle.saved_state.specs.Found.{FindsBoth};
ghost use Rattle.saved_state.specs.Named.{named_rows, IsNamedRow};
ghost use Rattle.saved_state.specs.States.{IsState};
ghost use Rattle.saved_state.specs.declared.saved.Saved.{Saved as AnySaved};
ghost use Rattle.svc_value.specs.declared.limits.TheConstants.{MAX_LEGS};

use crate::front::{byte, word};
use crate::judging::judge;
use crate::named::NamedRows;
use crate::numbering::numbered_rows;
use crate::rows::rows;
use crate::writing::write_state;
use crate::{Saved, StateError};
use std::alloc::Global;
use svc_value::OutOfMemory;
use svc_value::limits::MAX_LEGS;

/// The state whose bytes are `bytes`, in memory of `alloc`; `Bad` exactly where they are those of no state, and
/// `OutOfMemory` for want of memory.
pub fn read_state(alloc: Global, bytes: &[u8]) -> Result<Saved, StateError>
    ensures ok { IfOk result (λ saved. IsStateOf saved bytes.now) }
    ensures bad { IsErrOf result StateError.Bad → (saved : AnySaved) → IsStateOf saved bytes.now → ⊥ }
{
    let (leg, rows) = named_state(alloc, bytes)?;
    let services = numbered_rows(alloc, rows.as_slice())?;
    judge(alloc, services.as_slice())?;
    let saved = Saved { leg, services };
    if !is_written(alloc, &saved, bytes)? {
        return Err(StateError::Bad);
    }
    Ok(saved)
}

// The leg and the services with their names; `Bad` where the bytes are those of no state.
fn named_state(alloc: Global, bytes: &[u8]) -> Result<(u32, NamedRows), StateError>
    ensures leg { IfOk result (λ x. (1 ≤ x.0) × (x.0 ≤ MAX_LEGS)) }
    ensures rows { IfOk result (λ x. All IsNamedRow x.1) }
    ensures len { IfOk result (λ x. length x.1 < 2 ^ 8) }
    ensures reads { (saved : AnySaved) → IsStateOf saved bytes.now → FindsBoth (λ x. x.0) (λ x. x.1) result saved.leg (named_rows saved.services) }
{
    let [b'Q', b'P', b'S', b'1', rest @ ..] = bytes else {
        return Err(StateError::Bad);
    };
    let (leg, rest) = word(rest)?;
    if leg == 0 || leg as usize > MAX_LEGS {
        return Err(StateError::Bad);
    }
    let (count, rest) = byte(rest)?;
    let rows = rows(alloc, count, rest)?;
    Ok((leg, rows))
}

// Whether the bytes are those that are written for the state.
fn is_written(alloc: Global, saved: &Saved, bytes: &[u8]) -> Result<bool, OutOfMemory>
    requires { IsState saved.now }
    ensures same { IfOk result (λ same. IsTrue same ↔ (bytes.now ≡ state_bytes saved.now)) }
    ensures fits { IfOk result (λ same. Fits saved.now) }
{
    let mut written = Vec::new(alloc);
    write_state(saved, &mut written)?;
    Ok(written.as_slice() == bytes)
}
