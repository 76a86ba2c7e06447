// Picks in a line.
ghost use Rattle.std.specs.Prelude.{IfOk};
ghost use Rattle.std.specs.Fmt.{decimal};
ghost use Rattle.trace_text.specs.Entries.{ArePicks};
ghost use Rattle.trace_text.specs.Inside.Cutting.{AreSomePicks};
ghost use Rattle.trace_text.specs.Lines.{comma_list, picks_text};
ghost use Rattle.trace_text.specs.Reading.{ReadsAs};

use crate::reading::cutting::cut_at_first;
use crate::reading::numbers::read_number;
use node_core::Picks;
use std::alloc::Global;
use svc_value::OutOfMemory;

// The picks that are printed so.
pub(crate) fn read_picks(alloc: Global, text: &[u8]) -> Result<Option<Picks>, OutOfMemory>
    ensures { IfOk result (ReadsAs ArePicks picks_text text.now) }
{
    if text == b"-".as_slice() {
        return Ok(Some(Picks::new(alloc)));
    }
    read_some_picks(alloc, text)
}

// The picks, at least one, that are printed so.
fn read_some_picks(alloc: Global, text: &[u8]) -> Result<Option<Picks>, OutOfMemory>
    ensures { IfOk result (ReadsAs AreSomePicks (comma_list decimal) text.now) }
{
    let mut picks = Vec::new(alloc);
    let mut rest = text;
    while let Some((digits, behind)) = cut_at_first(rest, b',') {
        let Some(pick) = read_number(digits) else {
            return Ok(None);
        };
        picks.push(pick)?;
        rest = behind;
    }
    let Some(pick) = read_number(rest) else {
        return Ok(None);
    };
    picks.push(pick)?;
    Ok(Some(Picks::from_vec(picks)))
}
