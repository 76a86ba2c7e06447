// Computations in a line.
ghost use Rattle.std.specs.Prelude.{◌≤◌, length, IfOk};
ghost use Rattle.svc_value.specs.Layout.{IsWithin};
ghost use Rattle.svc_value.specs.Printed.{printed_value};
ghost use Rattle.trace_text.specs.Entries.{IsComputation};
ghost use Rattle.trace_text.specs.Inside.Parts.{ReadsParts};
ghost use Rattle.trace_text.specs.Lines.{computation_text};
ghost use Rattle.trace_text.specs.Naming.{AreNames, naming_of};
ghost use Rattle.trace_text.specs.Reading.{ReadsAs};

use crate::reading::cutting::cut_at_word;
use crate::reading::picks::read_picks;
use crate::reading::stamps::read_stamps;
use node_core::Computation;
use std::alloc::Global;
use std::str;
use svc_value::limits::MAX_SERVICES;
use svc_value::{LiteralError, Names, OutOfMemory, Value, read_value};

// The computation that is printed so.
pub(crate) fn read_computation(
    alloc: Global,
    names: &Names,
    text: &[u8],
) -> Result<Option<Computation>, OutOfMemory>
    requires few { length names.now ≤ MAX_SERVICES }
    requires names { AreNames (naming_of names.now) (length names.now) }
    ensures { IfOk result (ReadsAs (IsComputation (length names.now)) (computation_text (naming_of names.now)) text.now) }
{
    let Some((front, picks)) = cut_at_word(text, b"picks") else {
        return Ok(None);
    };
    let Some((value, stamps)) = cut_at_word(front, b"with") else {
        return Ok(None);
    };
    read_parts(alloc, names, value, stamps, picks)
}

// The computation whose parts are printed so.
fn read_parts(
    alloc: Global,
    names: &Names,
    value: &[u8],
    stamps: &[u8],
    picks: &[u8],
) -> Result<Option<Computation>, OutOfMemory>
    requires few { length names.now ≤ MAX_SERVICES }
    requires names { AreNames (naming_of names.now) (length names.now) }
    ensures { IfOk result (ReadsParts (naming_of names.now) (length names.now) value.now stamps.now picks.now) }
{
    let Some(value) = read_printed(alloc, value)? else {
        return Ok(None);
    };
    let Some(stamps) = read_stamps(alloc, names, stamps)? else {
        return Ok(None);
    };
    let Some(picks) = read_picks(alloc, picks)? else {
        return Ok(None);
    };
    Ok(Some(Computation {
        value,
        stamps,
        picks,
    }))
}

// The value that is printed so.
pub(crate) fn read_printed(alloc: Global, bytes: &[u8]) -> Result<Option<Value>, OutOfMemory>
    ensures { IfOk result (ReadsAs IsWithin printed_value bytes.now) }
{
    match str::from_utf8(bytes) {
        Ok(text) => match read_value(alloc, text) {
            Ok(value) => Ok(Some(value)),
            Err(LiteralError::Bad { .. }) => Ok(None),
            Err(LiteralError::OutOfMemory) => Err(OutOfMemory),
        },
        Err(_) => Ok(None),
    }
}
