// Stamps in a line.
ghost use Rattle.std.specs.Prelude.{◌≡◌, ◌≤◌, ◌<◌, All, length, IfOk, MatchBool};
ghost use Rattle.std.specs.Fmt.{decimal};
ghost use Rattle.std.specs.List.{zip};
ghost use Rattle.propagation.specs.Stamps.{Rise};
ghost use Rattle.trace_text.specs.Entries.{AreStampsOf};
ghost use Rattle.trace_text.specs.Inside.Cutting.{AreSomeStamps, IsClock, IsStampOf, MakesStamps, clock_list, key_list};
ghost use Rattle.trace_text.specs.Lines.{comma_list, stamp_text, stamps_text};
ghost use Rattle.trace_text.specs.Naming.{AreNames, naming_of};
ghost use Rattle.trace_text.specs.Reading.{ReadsAs};

use crate::reading::cutting::cut_at_first;
use crate::reading::frames::find_name;
use crate::reading::numbers::read_short_number;
use stamp_clock::Stamps;
use std::alloc::Global;
use svc_value::limits::MAX_SERVICES;
use svc_value::{Clock, ListOf, Names, OutOfMemory, ServiceId};

// Keys with their clocks, in any order.
type StampList = ListOf<(ServiceId, Clock)>;

// The stamps that are printed so.
pub(crate) fn read_stamps(
    alloc: Global,
    names: &Names,
    text: &[u8],
) -> Result<Option<Stamps>, OutOfMemory>
    requires few { length names.now ≤ MAX_SERVICES }
    requires names { AreNames (naming_of names.now) (length names.now) }
    ensures { IfOk result (ReadsAs (AreStampsOf (length names.now)) (stamps_text (naming_of names.now)) text.now) }
{
    if text.is_empty() {
        return Ok(Some(Stamps::of(alloc, &[], &[])?));
    }
    let Some(list) = read_some_stamps(alloc, names, text)? else {
        return Ok(None);
    };
    stamps_of(alloc, list)
}

// The keys with their clocks, at least one, that are printed so.
fn read_some_stamps(
    alloc: Global,
    names: &Names,
    text: &[u8],
) -> Result<Option<StampList>, OutOfMemory>
    requires few { length names.now ≤ MAX_SERVICES }
    requires names { AreNames (naming_of names.now) (length names.now) }
    ensures { IfOk result (ReadsAs (AreSomeStamps (length names.now)) (comma_list (stamp_text (naming_of names.now))) text.now) }
{
    let mut list = Vec::new(alloc);
    let mut rest = text;
    while let Some((front, behind)) = cut_at_first(rest, b',') {
        let Some(stamp) = read_stamp(names, front) else {
            return Ok(None);
        };
        list.push(stamp)?;
        rest = behind;
    }
    let Some(stamp) = read_stamp(names, rest) else {
        return Ok(None);
    };
    list.push(stamp)?;
    Ok(Some(StampList::from_vec(list)))
}

// The key with its clock that is printed so.
fn read_stamp(names: &Names, text: &[u8]) -> Option<(ServiceId, Clock)>
    requires few { length names.now ≤ MAX_SERVICES }
    requires names { AreNames (naming_of names.now) (length names.now) }
    ensures { ReadsAs (IsStampOf (length names.now)) (stamp_text (naming_of names.now)) text.now result }
{
    let Some((name, digits)) = cut_at_first(text, b'@') else {
        return None;
    };
    let Some(id) = find_name(names, name) else {
        return None;
    };
    let Some(clock) = read_clock(digits) else {
        return None;
    };
    Some((id, clock))
}

// The clock, at least 1, that is printed so.
fn read_clock(digits: &[u8]) -> Option<Clock>
    ensures { ReadsAs IsClock decimal digits.now result }
{
    let Some(number) = read_short_number(digits) else {
        return None;
    };
    if number == 0 {
        return None;
    }
    Some(Clock(number))
}

// The stamps of this list; None where the keys do not rise.
fn stamps_of(alloc: Global, list: StampList) -> Result<Option<Stamps>, OutOfMemory>
    requires below { All (λ key. key < MAX_SERVICES) (key_list list) }
    requires positive { All (λ clock. 0 < clock) (clock_list list) }
    ensures { IfOk result (MakesStamps list) }
{
    let pairs = list.as_slice();
    if !are_rising(pairs) {
        return Ok(None);
    }
    let stamps = stamps_with(alloc, pairs)?;
    Ok(Some(stamps))
}

// The stamps of this list, whose keys rise.
fn stamps_with(alloc: Global, pairs: &[(ServiceId, Clock)]) -> Result<Stamps, OutOfMemory>
    requires rise { Rise 0 (key_list pairs.now) }
    requires below { All (λ key. key < MAX_SERVICES) (key_list pairs.now) }
    requires positive { All (λ clock. 0 < clock) (clock_list pairs.now) }
    ensures { IfOk result (λ stamps. stamps ≡ zip (key_list pairs.now) (clock_list pairs.now)) }
{
    let keys: Vec<ServiceId> = pairs.iter().map(|pair| pair.0).collect(alloc)?;
    let clocks: Vec<Clock> = pairs.iter().map(|pair| pair.1).collect(alloc)?;
    Stamps::of(alloc, &keys, &clocks)
}

// Whether the keys rise strictly.
fn are_rising(list: &[(ServiceId, Clock)]) -> bool
    ensures { MatchBool result (Rise 0 (key_list list.now)) (Rise 0 (key_list list.now) → ⊥) }
{
    let mut least = 0;
    let mut rest = list;
    while let [(key, _), others @ ..] = rest {
        if usize::from(key.0) < least {
            return false;
        }
        least = usize::from(key.0) + 1;
        rest = others;
    }
    true
}
