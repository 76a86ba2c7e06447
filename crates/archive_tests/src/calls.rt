// Calls of an archive, with what they have to answer.
use state_archive::{Archive, KeepError};
use svc_value::Bytes;

/// A call, and what it has to answer.
pub enum Call {
    Save(u32, &'static [u8]),
    Load(Option<&'static [u8]>),
    LoadAt(u32, Option<&'static [u8]>),
    Legs(&'static [u32]),
}

/// The place of the first of the calls that fails or answers something else.
pub fn first_wrong<P: Archive>(archive: &mut P, calls: &[Call]) -> Option<usize> {
    for (place, call) in calls.iter().enumerate() {
        if answers(archive, call) != Ok(true) {
            return Some(place);
        }
    }
    None
}

// Whether the call answers what it has to.
fn answers<P: Archive>(archive: &mut P, call: &Call) -> Result<bool, KeepError> {
    match call {
        Call::Save(leg, state) => {
            archive.save(*leg, state)?;
            Ok(true)
        }
        Call::Load(expected) => Ok(is_found(archive.load()?, *expected)),
        Call::LoadAt(leg, expected) => Ok(is_found(archive.load_at(*leg)?, *expected)),
        Call::Legs(expected) => Ok(archive.legs()?.as_slice() == *expected),
    }
}

/// Whether these bytes were found, or nothing where nothing is expected.
pub fn is_found(found: Option<Bytes>, expected: Option<&[u8]>) -> bool {
    match (found, expected) {
        (Some(found), Some(expected)) => found.as_slice() == expected,
        (None, None) => true,
        _ => false,
    }
}
