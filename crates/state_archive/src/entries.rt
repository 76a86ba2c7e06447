// Legs with their states, in a list.
ghost use Rattle.std.specs.Prelude.{◌≡◌, ◌≤◌, ◌==◌, nat_lt, filter, find, option_copied, option_map, vec_len, vec_capacity, IfOk, OnOk, OnErr};
ghost use Rattle.state_archive.specs.Entries.{kept_after, last_of, legs_of};

use crate::Legs;
use std::alloc::Global;
use svc_value::{Bytes, OutOfMemory};

/// Drops the entries of `leg` and above, and appends the new one.
pub fn put_entry(entries: &mut Vec<(u32, Bytes)>, leg: u32, state: Bytes) -> Result<(), OutOfMemory>
    ensures ok { OnOk result (entries.new.items ≡ kept_after entries.old.items leg state) }
    ensures err { OnErr result (entries.new.items ≡ entries.old.items) }
{
    entries.reserve(1)?;
    keep_lower(entries, leg);
    entries.push_reserved((leg, state));
    Ok(())
}

// Keeps the entries of lower legs.
fn keep_lower(entries: &mut Vec<(u32, Bytes)>, leg: u32)
    ensures lower { entries.new.items ≡ filter (λ entry. nat_lt entry.0 leg) entries.old.items }
    ensures len { vec_len entries.new ≤ vec_len entries.old }
    ensures capacity { vec_capacity entries.new ≡ vec_capacity entries.old }
{
    entries.retain(|entry: &(u32, Bytes)| entry.0 < leg);
}

/// The last entry.
pub fn last_entry(entries: &[(u32, Bytes)]) -> Option<&(u32, Bytes)>
    ensures { option_map (λ entry. entry.1) (option_copied result) ≡ last_of entries.now }
{
    entries.last()
}

/// The first entry of `leg`.
pub fn entry_at(entries: &[(u32, Bytes)], leg: u32) -> Option<&(u32, Bytes)>
    ensures { option_copied result ≡ find (λ entry. entry.0 == leg) entries.now }
{
    entries.iter().find(|entry| entry.0 == leg)
}

/// A copy of the state of `entry`, where there is one, in memory of `alloc`.
pub fn state_of(alloc: Global, entry: Option<&(u32, Bytes)>) -> Result<Option<Bytes>, OutOfMemory>
    ensures { IfOk result (λ found. found ≡ option_map (λ entry. entry.1) (option_copied entry.entry)) }
{
    match entry {
        Some(entry) => Ok(Some(Bytes::from_slice(alloc, entry.1.as_slice())?)),
        None => Ok(None),
    }
}

/// The legs of all entries, in their order.
pub fn all_legs(alloc: Global, entries: &[(u32, Bytes)]) -> Result<Legs, OutOfMemory>
    ensures { IfOk result (λ legs. legs ≡ legs_of entries.now) }
{
    let legs: Vec<u32> = entries.iter().map(|entry| entry.0).collect(alloc)?;
    Ok(Legs::from_vec(legs))
}
