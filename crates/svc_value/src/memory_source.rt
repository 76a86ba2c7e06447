// A source in memory.
ghost use Rattle.std.specs.Prelude.{◌≡◌, ◌≤◌, ◌<◌, Some, take, min, length, is_err, IfOk, OnErr};
ghost use Rattle.std.specs.Io.{ReadsAtMost};
ghost use Rattle.std.specs.Io.KnownBytes.{ReadConsumes};
ghost use Rattle.svc_value.specs.Causes.{HasCause};
ghost use Rattle.svc_value.specs.Memory.{read_fails, read_count, after_read, after_read_fault};

use crate::{Bytes, Failed, Source};
use std::marker::Model;

/// A source of some bytes. Contracts see the bytes that are left, the most that one call gives, the numbers of the calls
/// that fail, and the numbers of calls and of faults so far.
#[derive(Drop)]
pub struct MemorySource {
    bytes: Bytes,
    at: usize,
    most: usize,
    failing: Vec<u64>,
    calls: u64,
    faults: u64,
}

impl Model for MemorySource {
    ghost use Rattle.std.specs.Prelude.{◌≤◌, drop, length};
    ghost use Rattle.svc_value.specs.Memory.{SourceState};

    ghost Value = { SourceState };

    ghost view = { λ s. record {
      left = drop s.at s.bytes;
      most = s.most;
      failing = s.failing.items;
      calls = s.calls;
      faults = s.faults;
    } };

    ghost invariant = { λ s. (s.at ≤ length s.bytes) × (1 ≤ s.most) };
}

impl MemorySource {
    /// A source of `bytes`, of which one call gives at most `most`, at least 1. The calls whose numbers, counted from 1,
    /// are in `failing` fail.
    pub fn new(bytes: Bytes, most: usize, failing: Vec<u64>) -> MemorySource
        requires { 1 ≤ most }
        ensures { result ≡ record { left = bytes; most = most; failing = failing.items; calls = 0; faults = 0 } }
    {
        MemorySource {
            bytes,
            at: 0,
            most,
            failing,
            calls: 0,
            faults: 0,
        }
    }
}

impl Source for MemorySource {
    ghost left = { λ s. Some s.left };

    ghost faults = { λ s. s.faults };

    fn read(&mut self, buf: &mut [u8]) -> Result<usize, Failed>
        ensures bound { ReadsAtMost result buf.new }
        ensures bytes { ReadConsumes (Some self.old.left) (Some self.new.left) result buf.new }
        ensures cause { HasCause self.old.faults self.new.faults result }
        ensures fails { is_err result ≡ read_fails self.old }
        ensures count { IfOk result (λ n. n ≡ read_count self.old (length buf.old)) }
        ensures read { IfOk result (λ n. self.new ≡ after_read self.old n) }
        ensures failed { OnErr result (self.new ≡ after_read_fault self.old) }
    {
        self.calls = self.calls.saturating_add(1);
        if self.failing.contains(&self.calls) {
            self.faults = self.faults.saturating_add(1);
            return Err(Failed);
        }
        let count = copy_front(buf, &self.bytes.as_slice()[self.at..], self.most);
        self.at += count;
        Ok(count)
    }
}

// Copies as many bytes as there are to the front, at most as many as fit or may be given at once.
fn copy_front(buf: &mut [u8], rest: &[u8], most: usize) -> usize
    requires { 1 ≤ most }
    ensures count { result ≡ min (min (length rest.now) (length buf.old)) most }
    ensures there { result ≤ length rest.now }
    ensures fits { result ≤ length buf.new }
    ensures front { take result buf.new ≡ take result rest.now }
    ensures end { result ≡ 0 → 0 < length buf.old → length rest.now ≡ 0 }
{
    let count = rest.len().min(buf.len()).min(most);
    buf[..count].copy_from_slice(&rest[..count]);
    count
}
