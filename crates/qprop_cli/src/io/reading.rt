// Reading a source to its end.
ghost use Rattle.std.specs.Prelude.{◌≤◌, IfOk, IsErrOf};
ghost use Rattle.svc_value.specs.Causes.{Rose};
ghost use Rattle.qprop_cli.specs.Streams.{ReadsUpTo};

use std::alloc::{AllocError, Global};
use svc_value::{Failed, Source};

// How many bytes one read asks for.
const CHUNK: usize = 8192;

/// Why the source was not read to its end.
#[derive(Clone, Copy, Debug, PartialEq, Eq)]
pub(crate) enum ReadError {
    /// The source failed.
    Fault,
    /// Out of memory.
    OutOfMemory,
}

impl From<AllocError> for ReadError {
    ghost use Rattle.qprop_cli.specs.declared.io.reading.ReadError.TheVariants.{OutOfMemory};
    ghost use Rattle.std.specs.Prelude.{◌≡◌};

    ghost from_gives = { λ _ e. e ≡ OutOfMemory };

    fn from(_: AllocError) -> Self {
        ReadError::OutOfMemory
    }
}

impl From<Failed> for ReadError {
    ghost use Rattle.qprop_cli.specs.declared.io.reading.ReadError.TheVariants.{Fault};
    ghost use Rattle.std.specs.Prelude.{◌≡◌};

    ghost from_gives = { λ _ e. e ≡ Fault };

    fn from(_: Failed) -> Self {
        ReadError::Fault
    }
}

/// All that the source has left, or its first bytes up to one more than `most` where there are more. `Fault` only where the
/// source's count of faults rose; `OutOfMemory` when memory runs out. After both, bytes that were read are gone.
pub(crate) fn read_all<S: Source>(
    alloc: Global,
    most: usize,
    source: &mut S,
) -> Result<Vec<u8>, ReadError>
    ensures read { IfOk result (λ bytes. ReadsUpTo most (S.left source.old) (S.left source.new) bytes.items) }
    ensures later { S.faults source.old ≤ S.faults source.new }
    ensures fault { IsErrOf result ReadError.Fault → Rose (S.faults source.old) (S.faults source.new) }
{
    let mut bytes = Vec::new(alloc);
    let mut chunk = [0; CHUNK];
    while bytes.len() <= most {
        let wanted = CHUNK.min((most - bytes.len()).saturating_add(1));
        let count = source.read(&mut chunk[..wanted])?;
        if count == 0 {
            return Ok(bytes);
        }
        bytes.extend_from_slice(&chunk[..count])?;
    }
    Ok(bytes)
}
