// What a bound on `Archive` alone gives.
ghost use Rattle.std.specs.Prelude.{◌≡◌, ◌<◌, Some, option_map, IfSome, IfOk, OnErr};
ghost use Rattle.state_archive.specs.Causes.{HasKeepCause};
ghost use Rattle.state_archive.specs.Entries.{kept_after, entry_of};

use state_archive::{Archive, KeepError};
use svc_value::Bytes;

/// Saves the state of a leg and loads the last one, which it is.
pub fn saved_and_loaded<P: Archive>(
    archive: &mut P,
    leg: u32,
    state: &[u8],
) -> Result<Option<Bytes>, KeepError>
    ensures found { IfOk result (λ found. IfSome (P.kept archive.old) (λ _. found ≡ Some state.now)) }
    ensures kept { IfOk result (λ _. P.kept archive.new ≡ option_map (λ entries. kept_after entries leg state.now) (P.kept archive.old)) }
    ensures cause { HasKeepCause (P.faults archive.old) (P.faults archive.new) result }
{
    archive.save(leg, state)?;
    archive.load()
}

/// Saves the state of a leg and loads that of a lower one, which is as it was.
pub fn saved_and_loaded_below<P: Archive>(
    archive: &mut P,
    leg: u32,
    state: &[u8],
    lower: u32,
) -> Result<Option<Bytes>, KeepError>
    requires { lower < leg }
    ensures found { IfOk result (λ found. IfSome (P.kept archive.old) (λ entries. found ≡ entry_of entries lower)) }
    ensures cause { HasKeepCause (P.faults archive.old) (P.faults archive.new) result }
{
    archive.save(leg, state)?;
    archive.load_at(lower)
}
