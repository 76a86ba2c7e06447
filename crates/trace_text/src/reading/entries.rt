// Log lines, read.
ghost use Rattle.std.specs.Prelude.{◌≡◌, ◌≢◌, ◌≤◌, ◌++◌, ◌∷◌, ℕ, length, codes, IfOk, MatchBool};
ghost use Rattle.node_core.specs.declared.entry.Entry.{Entry};
ghost use Rattle.trace_text.specs.Entries.{IsEntryOf, IsOwnedEntry};
ghost use Rattle.trace_text.specs.Inside.Parts.{IsEntryWith, entry_rest};
ghost use Rattle.trace_text.specs.Lines.{entry_body, entry_text};
ghost use Rattle.trace_text.specs.Naming.{Naming, AreNames, naming_of};
ghost use Rattle.trace_text.specs.Reading.{ReadsAs};

use crate::reading::computations::read_computation;
use crate::reading::cutting::cut_at_first;
use crate::reading::frames::{find_name, read_frame};
use crate::reading::numbers::read_short_number;
use node_core::Entry;
use std::alloc::Global;
use svc_value::limits::MAX_SERVICES;
use svc_value::{Names, OutOfMemory, ServiceId};

/// The service and the entry whose log line is `line`, which is given without its LF; services have the names of `names`, which
/// are at most 64. None exactly where it is the line of no entry. Memory comes from `alloc`; `OutOfMemory` where there is none.
pub fn read_log_line(
    alloc: Global,
    names: &Names,
    line: &[u8],
) -> Result<Option<(ServiceId, Entry)>, OutOfMemory>
    requires few { length names.now ≤ MAX_SERVICES }
    requires names { AreNames (naming_of names.now) (length names.now) }
    ensures { IfOk result (ReadsAs (IsOwnedEntry (length names.now)) (λ (owned : ℕ × Entry). entry_body (naming_of names.now) owned.0 owned.1) line.now) }
{
    let Some(behind) = line.strip_prefix(b"# log ") else {
        return Ok(None);
    };
    read_owned_entry(alloc, names, behind)
}

// The service whose name stands first, and the entry that stands behind it.
fn read_owned_entry(
    alloc: Global,
    names: &Names,
    text: &[u8],
) -> Result<Option<(ServiceId, Entry)>, OutOfMemory>
    requires few { length names.now ≤ MAX_SERVICES }
    requires names { AreNames (naming_of names.now) (length names.now) }
    ensures { IfOk result (ReadsAs (IsOwnedEntry (length names.now)) (λ (owned : ℕ × Entry). naming_of names.now owned.0 ++ 32 ∷ entry_text (naming_of names.now) owned.1) text.now) }
{
    let Some((word, behind)) = cut_at_first(text, b' ') else {
        return Ok(None);
    };
    let Some(id) = find_name(names, word) else {
        return Ok(None);
    };
    let Some(entry) = read_entry(alloc, names, behind)? else {
        return Ok(None);
    };
    Ok(Some((id, entry)))
}

// The entry that is printed so.
fn read_entry(alloc: Global, names: &Names, text: &[u8]) -> Result<Option<Entry>, OutOfMemory>
    requires few { length names.now ≤ MAX_SERVICES }
    requires names { AreNames (naming_of names.now) (length names.now) }
    ensures { IfOk result (ReadsAs (IsEntryOf (length names.now)) (entry_text (naming_of names.now)) text.now) }
{
    let Some((word, behind)) = cut_at_first(text, b' ') else {
        return Ok(None);
    };
    read_behind(alloc, names, word, behind)
}

// The entry that has this word and is printed so behind it.
fn read_behind(
    alloc: Global,
    names: &Names,
    word: &[u8],
    behind: &[u8],
) -> Result<Option<Entry>, OutOfMemory>
    requires few { length names.now ≤ MAX_SERVICES }
    requires names { AreNames (naming_of names.now) (length names.now) }
    ensures { IfOk result (ReadsAs (IsEntryWith (length names.now) word.now) (entry_rest (naming_of names.now)) behind.now) }
{
    if is_word(word, b"did") {
        return Ok(read_did(behind));
    }
    if is_word(word, b"took") {
        return read_took(alloc, names, behind);
    }
    if is_word(word, b"computed") {
        return read_computed(alloc, names, behind);
    }
    if is_word(word, b"sent") {
        return read_sent(alloc, names, behind);
    }
    Ok(None)
}

// Whether the bytes are this word.
fn is_word(bytes: &[u8], word: &[u8]) -> bool
    ensures { MatchBool result (bytes.now ≡ word.now) (bytes.now ≢ word.now) }
{
    bytes == word
}

// The change that is printed so.
fn read_did(digits: &[u8]) -> Option<Entry>
    ensures { (count : ℕ) (name : Naming) → ReadsAs (IsEntryWith count (codes "did")) (entry_rest name) digits.now result }
{
    let Some(clock) = read_short_number(digits) else {
        return None;
    };
    Some(Entry::Did(clock))
}

// The frame taken that is printed so.
fn read_took(alloc: Global, names: &Names, text: &[u8]) -> Result<Option<Entry>, OutOfMemory>
    requires few { length names.now ≤ MAX_SERVICES }
    requires names { AreNames (naming_of names.now) (length names.now) }
    ensures { IfOk result (ReadsAs (IsEntryWith (length names.now) (codes "took")) (entry_rest (naming_of names.now)) text.now) }
{
    let Some(frame) = read_frame(alloc, names, text)? else {
        return Ok(None);
    };
    Ok(Some(Entry::Took(frame.0, frame.1)))
}

// The computation that is printed so.
fn read_computed(alloc: Global, names: &Names, text: &[u8]) -> Result<Option<Entry>, OutOfMemory>
    requires few { length names.now ≤ MAX_SERVICES }
    requires names { AreNames (naming_of names.now) (length names.now) }
    ensures { IfOk result (ReadsAs (IsEntryWith (length names.now) (codes "computed")) (entry_rest (naming_of names.now)) text.now) }
{
    let Some(computation) = read_computation(alloc, names, text)? else {
        return Ok(None);
    };
    Ok(Some(Entry::Computed(computation)))
}

// The frame sent that is printed so.
fn read_sent(alloc: Global, names: &Names, text: &[u8]) -> Result<Option<Entry>, OutOfMemory>
    requires few { length names.now ≤ MAX_SERVICES }
    requires names { AreNames (naming_of names.now) (length names.now) }
    ensures { IfOk result (ReadsAs (IsEntryWith (length names.now) (codes "sent")) (entry_rest (naming_of names.now)) text.now) }
{
    let Some(frame) = read_frame(alloc, names, text)? else {
        return Ok(None);
    };
    Ok(Some(Entry::Sent(frame.0, frame.1)))
}
