// The refusals of this crate.
use crate::FrameReason;
use std::alloc::AllocError;
use svc_value::OutOfMemory;

/// Why a cutter answers no item.
#[derive(Clone, Copy, Debug, PartialEq, Eq)]
pub enum CutError {
    /// The length at the offset `at` of the stream is above the longest frame's.
    Length { at: u64 },
    /// Out of memory.
    OutOfMemory,
}

impl From<OutOfMemory> for CutError {
    ghost use Rattle.wire_frame.specs.declared.errors.CutError.TheVariants.{OutOfMemory as NoMemory};
    ghost use Rattle.std.specs.Prelude.{◌≡◌};

    ghost from_gives = { λ _ e. e ≡ NoMemory };

    fn from(_: OutOfMemory) -> Self {
        CutError::OutOfMemory
    }
}

/// Why bytes begin with no frame.
#[derive(Clone, Copy, Debug, PartialEq, Eq)]
pub enum FrameError {
    /// No front of the bytes is a frame: the first `place` of them begin one and no more do, for this reason.
    Bad { place: usize, reason: FrameReason },
    /// Out of memory.
    OutOfMemory,
}

impl From<OutOfMemory> for FrameError {
    ghost use Rattle.wire_frame.specs.declared.errors.FrameError.TheVariants.{OutOfMemory as NoMemory};
    ghost use Rattle.std.specs.Prelude.{◌≡◌};

    ghost from_gives = { λ _ e. e ≡ NoMemory };

    fn from(_: OutOfMemory) -> Self {
        FrameError::OutOfMemory
    }
}

impl From<AllocError> for FrameError {
    ghost use Rattle.wire_frame.specs.declared.errors.FrameError.TheVariants.{OutOfMemory as NoMemory};
    ghost use Rattle.std.specs.Prelude.{◌≡◌};

    ghost from_gives = { λ _ e. e ≡ NoMemory };

    fn from(_: AllocError) -> Self {
        FrameError::OutOfMemory
    }
}

/// Why a framer answers no frame.
#[derive(Clone, Copy, Debug, PartialEq, Eq)]
pub enum StreamError {
    /// The frame whose length stands at the offset `at` of the stream is wrong at `place` of its bytes, for this reason.
    Bad {
        at: u64,
        place: usize,
        reason: FrameReason,
    },
    /// Out of memory.
    OutOfMemory,
}

impl From<OutOfMemory> for StreamError {
    ghost use Rattle.wire_frame.specs.declared.errors.StreamError.TheVariants.{OutOfMemory as NoMemory};
    ghost use Rattle.std.specs.Prelude.{◌≡◌};

    ghost from_gives = { λ _ e. e ≡ NoMemory };

    fn from(_: OutOfMemory) -> Self {
        StreamError::OutOfMemory
    }
}
