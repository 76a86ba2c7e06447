// Where saved states are kept, with a count of faults.
ghost use Rattle.std.specs.Prelude.{◌≡◌, ℕ, List, Option, Some, option_map, IfSome, IfOk, OnOk, OnErr};
ghost use Rattle.state_archive.specs.Causes.{HasKeepCause};
ghost use Rattle.state_archive.specs.Entries.{Entries, AreRising, kept_after, last_of, entry_of, legs_of};

use crate::KeepError;
use svc_value::{Bytes, ListOf};

/// A list of legs, which rises.
pub type Legs = ListOf<u32>;

/// What keeps the state that was saved last.
///
/// Each call can fail: with `Failed` only where the count of faults rose in the call, and with `OutOfMemory`. After either
/// error what is kept is as it was before the call.
pub trait Keeper {
    /// The last saved state, or none where nothing is saved, where the keeper tells it.
    ghost saved: { Self → Option (Option (List ℕ)) };

    /// All that an archive keeps, by rising leg, where it tells it. A keeper that keeps one state alone tells nothing here.
    ghost kept: { Self → Option Entries };

    /// How often it has failed.
    ghost faults: { Self → ℕ };

    /// Saves `state`, any bytes, as the state after the leg of number `leg`. It is then the last saved state. An archive keeps
    /// the entries of lower legs and drops those of `leg` and above (`kept_after`).
    fn save(&mut self, leg: u32, state: &[u8]) -> Result<(), KeepError>
        ensures last { OnOk result (saved self.new ≡ option_map (λ _. Some state.now) (saved self.old)) }
        ensures entries { OnOk result (kept self.new ≡ option_map (λ entries. kept_after entries leg state.now) (kept self.old)) }
        ensures same_last { OnErr result (saved self.new ≡ saved self.old) }
        ensures same_entries { OnErr result (kept self.new ≡ kept self.old) }
        ensures rising { IfSome (kept self.new) AreRising }
        ensures cause { HasKeepCause (faults self.old) (faults self.new) result };

    /// A copy of the last saved state; `None` exactly where nothing is saved. An archive answers the entry of the greatest leg
    /// (`last_of`). What is kept stays as it was.
    fn load(&mut self) -> Result<Option<Bytes>, KeepError>
        ensures last { IfOk result (λ found. IfSome (saved self.old) (λ last. found ≡ last)) }
        ensures entry { IfOk result (λ found. IfSome (kept self.old) (λ entries. found ≡ last_of entries)) }
        ensures same_last { saved self.new ≡ saved self.old }
        ensures same_entries { kept self.new ≡ kept self.old }
        ensures rising { IfSome (kept self.new) AreRising }
        ensures cause { HasKeepCause (faults self.old) (faults self.new) result };
}

/// A keeper that keeps the state after each leg.
///
/// It tells its last saved state exactly where it tells what it keeps, and the last saved state is then the entry of the
/// greatest leg.
pub trait Archive: Keeper {
    /// A copy of the entry of `leg`; `None` exactly where there is none (`entry_of`). What is kept stays as it was.
    fn load_at(&mut self, leg: u32) -> Result<Option<Bytes>, KeepError>
        ensures entry { IfOk result (λ found. IfSome (Self.kept self.old) (λ entries. found ≡ entry_of entries leg)) }
        ensures same_last { Self.saved self.new ≡ Self.saved self.old }
        ensures same_entries { Self.kept self.new ≡ Self.kept self.old }
        ensures rising { IfSome (Self.kept self.new) AreRising }
        ensures cause { HasKeepCause (Self.faults self.old) (Self.faults self.new) result };

    /// All legs that have an entry, rising (`legs_of`). What is kept stays as it was.
    fn legs(&mut self) -> Result<Legs, KeepError>
        ensures legs { IfOk result (λ legs. IfSome (Self.kept self.old) (λ entries. legs ≡ legs_of entries)) }
        ensures same_last { Self.saved self.new ≡ Self.saved self.old }
        ensures same_entries { Self.kept self.new ≡ Self.kept self.old }
        ensures rising { IfSome (Self.kept self.new) AreRising }
        ensures cause { HasKeepCause (Self.faults self.old) (Self.faults self.new) result };

    ghost agrees: { (archive : Self) → Self.saved archive ≡ option_map last_of (Self.kept archive) };
}
