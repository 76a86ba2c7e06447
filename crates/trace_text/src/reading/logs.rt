// The logs of a block, read line by line.
ghost use Rattle.std.specs.Prelude.{◌≡◌, ◌≤◌, ◌<◌, ◌+◌, ◌++◌, ◌∷◌, [], length, IfOk, IfErr, MatchBool, OnOk};
ghost use Rattle.trace_text.specs.Inside.Logs.{ReadsLine};
ghost use Rattle.trace_text.specs.Naming.{AreNames, naming_of};
ghost use Rattle.trace_text.specs.ReadErrors.{IsReadError};
ghost use Rattle.trace_text.specs.Reading.{AreLinesOf, family_entries, is_passed};
ghost use Rattle.trace_text.specs.Untraced.{lines_of};

use crate::TraceError;
use crate::reading::cutting::cut_at_first;
use crate::reading::entries::read_log_line;
use node_core::Entry;
use std::alloc::Global;
use svc_value::limits::MAX_SERVICES;
use svc_value::{ListOf, Names, OutOfMemory, ServiceId};

/// The log of a service.
pub type Log = ListOf<Entry>;

/// A log for each service, in the order of declaration.
pub type Family = ListOf<Log>;

/// The logs whose lines are those of `bytes`, the text of one block, without the lines of notes and sources, which are passed
/// over: a log for each of `names`, which are at most 64. There are fewer than 4,294,967,295 lines. `Bad` exactly where some line
/// is no trace line, or is that of a service after the line of a later one, with the first such line. Memory comes from `alloc`;
/// `OutOfMemory` where there is none.
pub fn read_trace(alloc: Global, bytes: &[u8], names: &Names) -> Result<Family, TraceError>
    requires lines { length (lines_of bytes.now) < 4294967295 }
    requires few { length names.now ≤ MAX_SERVICES }
    requires names { AreNames (naming_of names.now) (length names.now) }
    ensures ok { IfOk result (λ family. AreLinesOf (naming_of names.now) (length names.now) (lines_of bytes.now) family) }
    ensures bad { IfErr result (λ error. IsReadError (naming_of names.now) (length names.now) (lines_of bytes.now) error) }
{
    Ok(Family::from_vec(read_logs(alloc, bytes, names)?))
}

// The logs, one for each name.
fn read_logs(alloc: Global, bytes: &[u8], names: &Names) -> Result<Vec<Log>, TraceError>
    requires lines { length (lines_of bytes.now) < 4294967295 }
    requires few { length names.now ≤ MAX_SERVICES }
    requires names { AreNames (naming_of names.now) (length names.now) }
    ensures ok { IfOk result (λ logs. AreLinesOf (naming_of names.now) (length names.now) (lines_of bytes.now) logs.items) }
    ensures bad { IfErr result (λ error. IsReadError (naming_of names.now) (length names.now) (lines_of bytes.now) error) }
{
    let mut logs = no_logs(alloc);
    let mut rest = bytes;
    let mut line = 0;
    while !rest.is_empty() {
        line += 1;
        let Some((body, behind)) = cut_at_first(rest, b'\n') else {
            return Err(TraceError::Bad { line });
        };
        let is_read = read_line(alloc, names, body, &mut logs)?;
        if !is_read {
            return Err(TraceError::Bad { line });
        }
        rest = behind;
    }
    grow(alloc, &mut logs, names.len())?;
    Ok(logs)
}

// The empty list of logs.
fn no_logs(alloc: Global) -> Vec<Log>
    ensures { result.items ≡ [] }
{
    Vec::new(alloc)
}

// Appends the entry of the line `body`, which is given without its LF, unless it is passed over. Whether it may stand here.
fn read_line(
    alloc: Global,
    names: &Names,
    body: &[u8],
    logs: &mut Vec<Log>,
) -> Result<bool, OutOfMemory>
    requires few { length names.now ≤ MAX_SERVICES }
    requires names { AreNames (naming_of names.now) (length names.now) }
    ensures { IfOk result (λ read. ReadsLine (naming_of names.now) (length names.now) body.now logs.old.items logs.new.items read) }
{
    if is_passed_over(body) {
        return Ok(true);
    }
    let Some(owned) = read_log_line(alloc, names, body)? else {
        return Ok(false);
    };
    if is_early(owned.0, logs.len()) {
        return Ok(false);
    }
    append_owned(alloc, logs, owned.0, owned.1)?;
    Ok(true)
}

// Whether the line, which is given without its LF, is that of a note or of sources.
fn is_passed_over(body: &[u8]) -> bool
    ensures { result ≡ is_passed (body.now ++ 10 ∷ []) }
{
    let is_step = body.starts_with(b"# step ");
    let is_sources = body.starts_with(b"# sources ");
    is_step | is_sources
}

// Whether `owner` comes before the service of the last of `count` logs.
fn is_early(owner: ServiceId, count: usize) -> bool
    ensures { MatchBool result (owner + 1 < count) (count ≤ owner + 1) }
{
    usize::from(owner.0) + 1 < count
}

// Appends an entry to the log of `owner`, which is the last of `logs` or comes after it.
fn append_owned(
    alloc: Global,
    logs: &mut Vec<Log>,
    owner: ServiceId,
    entry: Entry,
) -> Result<(), OutOfMemory>
    requires { length logs.old.items ≤ owner + 1 }
    ensures long { OnOk result (length logs.new.items ≡ owner + 1) }
    ensures entries { OnOk result (family_entries 0 logs.new.items ≡ family_entries 0 logs.old.items ++ (owner, entry) ∷ []) }
{
    grow(alloc, logs, usize::from(owner.0) + 1)?;
    let Some(mut log) = logs.pop() else {
        unreachable!()
    };
    log.push(entry)?;
    logs.push(log)?;
    Ok(())
}

// Appends logs without entries until there are `count`.
#[tactic(auto, using(crate::proofs::FamilyReading::entries_empty))]
fn grow(alloc: Global, logs: &mut Vec<Log>, count: usize) -> Result<(), OutOfMemory>
    requires { length logs.old.items ≤ count }
    ensures long { OnOk result (length logs.new.items ≡ count) }
    ensures entries { OnOk result (family_entries 0 logs.new.items ≡ family_entries 0 logs.old.items) }
{
    while logs.len() < count {
        logs.push(Log::new(alloc))?;
    }
    Ok(())
}
