// A sink in memory.
ghost use Rattle.std.specs.Prelude.{◌≡◌, ◌≤◌, ◌<◌, [], Some, length, is_err, IfOk, OnErr};
ghost use Rattle.std.specs.Io.{WritesAtMost};
ghost use Rattle.std.specs.Io.KnownBytes.{WriteAppends};
ghost use Rattle.svc_value.specs.Causes.{HasCause};
ghost use Rattle.svc_value.specs.Memory.{write_fails, write_count, after_write, after_write_fault};

use crate::{Failed, OutOfMemory, Sink};
use std::alloc::Global;
use std::marker::Model;

/// A sink with room for some bytes. Contracts see the bytes that it holds, the room in all, the most that one call takes,
/// the numbers of the calls that fail, and the numbers of calls and of faults so far.
#[derive(Drop)]
pub struct MemorySink {
    bytes: Vec<u8>,
    room: usize,
    most: usize,
    failing: Vec<u64>,
    calls: u64,
    faults: u64,
}

impl Model for MemorySink {
    ghost use Rattle.std.specs.Prelude.{◌≤◌, vec_len, vec_capacity};
    ghost use Rattle.svc_value.specs.Memory.{SinkState};

    ghost Value = { SinkState };

    ghost view = { λ s. record {
      held = s.bytes.items;
      room = s.room;
      most = s.most;
      failing = s.failing.items;
      calls = s.calls;
      faults = s.faults;
    } };

    ghost invariant = { λ s. (vec_len s.bytes ≤ s.room) × (s.room ≤ vec_capacity s.bytes) × (1 ≤ s.most) };
}

impl MemorySink {
    /// An empty sink with room for `room` bytes, reserved in memory of `alloc`, of which one call takes at most `most`, at
    /// least 1. The calls whose numbers, counted from 1, are in `failing` fail, and so does a call that finds no room
    /// left. `OutOfMemory` where the room is not to be had.
    pub fn new(
        alloc: Global,
        room: usize,
        most: usize,
        failing: Vec<u64>,
    ) -> Result<MemorySink, OutOfMemory>
        requires { 1 ≤ most }
        ensures { IfOk result (λ sink. sink ≡ record { held = []; room = room; most = most; failing = failing.items; calls = 0; faults = 0 }) }
    {
        Ok(MemorySink {
            bytes: Vec::with_capacity(alloc, room)?,
            room,
            most,
            failing,
            calls: 0,
            faults: 0,
        })
    }

    /// The bytes that the sink holds.
    pub fn held(&self) -> &[u8]
        ensures { result.now ≡ self.now.held }
    {
        self.bytes.as_slice()
    }
}

impl Sink for MemorySink {
    ghost held = { λ s. Some s.held };

    ghost faults = { λ s. s.faults };

    fn write(&mut self, piece: &[u8]) -> Result<usize, Failed>
        ensures bound { WritesAtMost result piece.now }
        ensures some { 0 < length piece.now → IfOk result (λ n. 0 < n) }
        ensures bytes { WriteAppends (Some self.old.held) (Some self.new.held) result piece.now }
        ensures cause { HasCause self.old.faults self.new.faults result }
        ensures fails { is_err result ≡ write_fails self.old (length piece.now) }
        ensures count { IfOk result (λ n. n ≡ write_count self.old (length piece.now)) }
        ensures wrote { IfOk result (λ n. self.new ≡ after_write self.old piece.now n) }
        ensures failed { OnErr result (self.new ≡ after_write_fault self.old) }
    {
        self.calls = self.calls.saturating_add(1);
        let free = self.room - self.bytes.len();
        let count = piece.len().min(self.most).min(free);
        if self.failing.contains(&self.calls) || (count == 0 && !piece.is_empty()) {
            self.faults = self.faults.saturating_add(1);
            return Err(Failed);
        }
        if self.bytes.extend_from_slice(&piece[..count]).is_err() {
            unreachable!()
        }
        Ok(count)
    }
}
