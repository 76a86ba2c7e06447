// An archive in memory.
ghost use Rattle.std.specs.Prelude.{◌≡◌, ◌↔◌, [], Some, option_map, refl, IsTrue, IsErrOf, IfSome, IfOk, OnOk, OnErr};
ghost use Rattle.state_archive.specs.Causes.{HasKeepCause};
ghost use Rattle.state_archive.specs.Entries.{AreRising, kept_after, last_of, entry_of, legs_of};
ghost use Rattle.state_archive.specs.Fakes.{new_calls, next_fails, after_call};

use crate::calls::Calls;
use crate::entries::{all_legs, entry_at, last_entry, put_entry, state_of};
use crate::{Archive, KeepError, Keeper, Legs};
use std::alloc::Global;
use std::marker::Model;
use svc_value::Bytes;

/// An archive in memory, for tests. Contracts see its entries by rising leg, and the calls so far with those that fail.
#[derive(Drop)]
pub struct MemoryArchive {
    alloc: Global,
    entries: Vec<(u32, Bytes)>,
    calls: Calls,
}

impl Model for MemoryArchive {
    ghost use Rattle.state_archive.specs.Entries.{AreRising};
    ghost use Rattle.state_archive.specs.Fakes.{ArchiveState};

    ghost Value = { ArchiveState };

    ghost view = { λ a. record {
      entries = a.entries.items;
      calls = a.calls;
    } };

    ghost invariant = { λ a. AreRising a.entries.items };
}

impl MemoryArchive {
    /// An empty archive. It keeps its entries in memory of `alloc`, and never answers `Failed`.
    pub fn new(alloc: Global) -> MemoryArchive
        ensures { result ≡ record { entries = []; calls = new_calls [] } }
    {
        MemoryArchive::failing(alloc, Vec::new(alloc))
    }

    /// An empty archive, which keeps its entries in memory of `alloc`. The calls whose numbers, counted from 1, are in `calls`
    /// answer `Failed`, and no other call does.
    pub fn failing(alloc: Global, calls: Vec<u32>) -> MemoryArchive
        ensures { result ≡ record { entries = []; calls = new_calls calls.items } }
    {
        MemoryArchive {
            alloc,
            entries: Vec::new(alloc),
            calls: Calls::new(calls),
        }
    }
}

impl Keeper for MemoryArchive {
    ghost saved = { λ a. Some (last_of a.entries) };

    ghost kept = { λ a. Some a.entries };

    ghost faults = { λ a. a.calls.faults };

    fn save(&mut self, leg: u32, state: &[u8]) -> Result<(), KeepError>
        ensures last { OnOk result (Some (last_of self.new.entries) ≡ option_map (λ _. Some state.now) (Some (last_of self.old.entries))) }
        ensures entries { OnOk result (Some self.new.entries ≡ option_map (λ entries. kept_after entries leg state.now) (Some self.old.entries)) }
        ensures same_last { OnErr result (Some (last_of self.new.entries) ≡ Some (last_of self.old.entries)) }
        ensures same_entries { OnErr result (Some self.new.entries ≡ Some self.old.entries) }
        ensures rising { IfSome (Some self.new.entries) AreRising }
        ensures cause { HasKeepCause self.old.calls.faults self.new.calls.faults result }
        ensures fails { IsErrOf result KeepError.Failed ↔ IsTrue (next_fails self.old.calls) }
        ensures calls { self.new.calls ≡ after_call self.old.calls }
    {
        if self.calls.next_fails() {
            return Err(KeepError::Failed);
        }
        let state = Bytes::from_slice(self.alloc, state)?;
        put_entry(&mut self.entries, leg, state)?;
        Ok(())
    }

    fn load(&mut self) -> Result<Option<Bytes>, KeepError>
        ensures last { IfOk result (λ found. IfSome (Some (last_of self.old.entries)) (λ last. found ≡ last)) }
        ensures entry { IfOk result (λ found. IfSome (Some self.old.entries) (λ entries. found ≡ last_of entries)) }
        ensures same_last { Some (last_of self.new.entries) ≡ Some (last_of self.old.entries) }
        ensures same_entries { Some self.new.entries ≡ Some self.old.entries }
        ensures rising { IfSome (Some self.new.entries) AreRising }
        ensures cause { HasKeepCause self.old.calls.faults self.new.calls.faults result }
        ensures fails { IsErrOf result KeepError.Failed ↔ IsTrue (next_fails self.old.calls) }
        ensures calls { self.new.calls ≡ after_call self.old.calls }
    {
        if self.calls.next_fails() {
            return Err(KeepError::Failed);
        }
        Ok(state_of(self.alloc, last_entry(&self.entries))?)
    }
}

impl Archive for MemoryArchive {
    fn load_at(&mut self, leg: u32) -> Result<Option<Bytes>, KeepError>
        ensures entry { IfOk result (λ found. IfSome (Some self.old.entries) (λ entries. found ≡ entry_of entries leg)) }
        ensures same_last { Some (last_of self.new.entries) ≡ Some (last_of self.old.entries) }
        ensures same_entries { Some self.new.entries ≡ Some self.old.entries }
        ensures rising { IfSome (Some self.new.entries) AreRising }
        ensures cause { HasKeepCause self.old.calls.faults self.new.calls.faults result }
        ensures fails { IsErrOf result KeepError.Failed ↔ IsTrue (next_fails self.old.calls) }
        ensures calls { self.new.calls ≡ after_call self.old.calls }
    {
        if self.calls.next_fails() {
            return Err(KeepError::Failed);
        }
        Ok(state_of(self.alloc, entry_at(&self.entries, leg))?)
    }

    fn legs(&mut self) -> Result<Legs, KeepError>
        ensures legs { IfOk result (λ legs. IfSome (Some self.old.entries) (λ entries. legs ≡ legs_of entries)) }
        ensures same_last { Some (last_of self.new.entries) ≡ Some (last_of self.old.entries) }
        ensures same_entries { Some self.new.entries ≡ Some self.old.entries }
        ensures rising { IfSome (Some self.new.entries) AreRising }
        ensures cause { HasKeepCause self.old.calls.faults self.new.calls.faults result }
        ensures fails { IsErrOf result KeepError.Failed ↔ IsTrue (next_fails self.old.calls) }
        ensures calls { self.new.calls ≡ after_call self.old.calls }
    {
        if self.calls.next_fails() {
            return Err(KeepError::Failed);
        }
        Ok(all_legs(self.alloc, &self.entries)?)
    }

    ghost agrees = { λ _. refl };
}
