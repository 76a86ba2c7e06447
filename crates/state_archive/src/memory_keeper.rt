// A keeper in memory.
ghost use Rattle.std.specs.Prelude.{◌≡◌, ◌↔◌, [], Some, None, option_copied, option_map, IsTrue, IsErrOf, IfSome, IfOk, OnOk, OnErr};
ghost use Rattle.state_archive.specs.Causes.{HasKeepCause};
ghost use Rattle.state_archive.specs.Entries.{AreRising, kept_after, last_of};
ghost use Rattle.state_archive.specs.Fakes.{new_calls, next_fails, after_call, no_entries};

use crate::calls::Calls;
use crate::{KeepError, Keeper};
use std::alloc::Global;
use std::marker::Model;
use svc_value::{Bytes, OutOfMemory};

/// A keeper in memory, for tests. Contracts see the last saved state, and the calls so far with those that fail.
#[derive(Drop)]
pub struct MemoryKeeper {
    alloc: Global,
    saved: Option<Bytes>,
    calls: Calls,
}

impl Model for MemoryKeeper {
    ghost use Rattle.state_archive.specs.Fakes.{KeeperState};

    ghost Value = { KeeperState };

    ghost view = { λ k. record {
      saved = k.saved;
      calls = k.calls;
    } };
}

impl MemoryKeeper {
    /// A keeper with nothing saved. It keeps the state in memory of `alloc`, and never answers `Failed`.
    pub fn new(alloc: Global) -> MemoryKeeper
        ensures { result ≡ record { saved = None; calls = new_calls [] } }
    {
        MemoryKeeper::failing(alloc, Vec::new(alloc))
    }

    /// A keeper with nothing saved, which keeps the state in memory of `alloc`. The calls whose numbers, counted from 1, are
    /// in `calls` answer `Failed`, and no other call does.
    pub fn failing(alloc: Global, calls: Vec<u32>) -> MemoryKeeper
        ensures { result ≡ record { saved = None; calls = new_calls calls.items } }
    {
        MemoryKeeper {
            alloc,
            saved: None,
            calls: Calls::new(calls),
        }
    }
}

impl Keeper for MemoryKeeper {
    ghost saved = { λ k. Some k.saved };

    ghost kept = { no_entries };

    ghost faults = { λ k. k.calls.faults };

    fn save(&mut self, leg: u32, state: &[u8]) -> Result<(), KeepError>
        ensures last { OnOk result (Some self.new.saved ≡ option_map (λ _. Some state.now) (Some self.old.saved)) }
        ensures entries { OnOk result (no_entries self.new ≡ option_map (λ entries. kept_after entries leg state.now) (no_entries self.old)) }
        ensures same_last { OnErr result (Some self.new.saved ≡ Some self.old.saved) }
        ensures same_entries { OnErr result (no_entries self.new ≡ no_entries self.old) }
        ensures rising { IfSome (no_entries self.new) AreRising }
        ensures cause { HasKeepCause self.old.calls.faults self.new.calls.faults result }
        ensures fails { IsErrOf result KeepError.Failed ↔ IsTrue (next_fails self.old.calls) }
        ensures calls { self.new.calls ≡ after_call self.old.calls }
    {
        let _ = leg;
        if self.calls.next_fails() {
            return Err(KeepError::Failed);
        }
        self.saved = Some(Bytes::from_slice(self.alloc, state)?);
        Ok(())
    }

    fn load(&mut self) -> Result<Option<Bytes>, KeepError>
        ensures last { IfOk result (λ found. IfSome (Some self.old.saved) (λ last. found ≡ last)) }
        ensures entry { IfOk result (λ found. IfSome (no_entries self.old) (λ entries. found ≡ last_of entries)) }
        ensures same_last { Some self.new.saved ≡ Some self.old.saved }
        ensures same_entries { no_entries self.new ≡ no_entries self.old }
        ensures rising { IfSome (no_entries self.new) AreRising }
        ensures cause { HasKeepCause self.old.calls.faults self.new.calls.faults result }
        ensures fails { IsErrOf result KeepError.Failed ↔ IsTrue (next_fails self.old.calls) }
        ensures calls { self.new.calls ≡ after_call self.old.calls }
    {
        if self.calls.next_fails() {
            return Err(KeepError::Failed);
        }
        Ok(copy_of(self.alloc, self.saved.as_ref())?)
    }
}

// A copy of `state`, where there is one, in memory of `alloc`.
fn copy_of(alloc: Global, state: Option<&Bytes>) -> Result<Option<Bytes>, OutOfMemory>
    ensures { IfOk result (λ found. found ≡ option_copied state.entry) }
{
    match state {
        Some(state) => Ok(Some(Bytes::from_slice(alloc, state.as_slice())?)),
        None => Ok(None),
    }
}
