// A link that is a list in memory.
ghost use Rattle.std.specs.Prelude.{◌≡◌};

use crate::{LinkIn, LinkOut};
use std::alloc::Global;
use std::collections::VecDeque;
use std::marker::Model;
use svc_value::{Bytes, OutOfMemory};

/// A list of items in memory: the last one pushed is the last one popped. It keeps no history, and is seen as the list `waiting`
/// and the number `spare` of pushes that are known to succeed.
#[derive(Debug, Drop)]
pub struct MemoryLink {
    items: VecDeque<Bytes>,
}

impl Model for MemoryLink {
    ghost use Rattle.std.specs.Prelude.{◌-◌};
    ghost use Rattle.std.specs.VecDeque.{deque_len, deque_capacity};
    ghost use Rattle.link_fifo.specs.Waiting.{Link};

    ghost Value = { Link };

    ghost view = { λ link. record { waiting = link.items.items; spare = deque_capacity link.items - deque_len link.items } };
}

impl MemoryLink {
    ghost use Rattle.std.specs.Prelude.{◌≡◌, ◌<◌, ◌≤◌, ◌+◌, [], ◌∷◌, option_map, OnOk, OnErr};
    ghost use Rattle.link_fifo.specs.Waiting.{first_of};

    /// An empty link, which takes its memory from `alloc` when room is reserved.
    pub fn new(alloc: Global) -> MemoryLink
        ensures { result.waiting ≡ [] }
    {
        MemoryLink {
            items: VecDeque::new(alloc),
        }
    }

    /// Makes `spare` at least `count`, and leaves the items as they were. After `OutOfMemory` the link is as it was.
    pub fn reserve(&mut self, count: usize) -> Result<(), OutOfMemory>
        ensures spare { OnOk result (count ≤ self.new.spare) }
        ensures grows { self.old.spare ≤ self.new.spare }
        ensures waiting { self.new.waiting ≡ self.old.waiting }
        ensures err { OnErr result (self.new ≡ self.old) }
    {
        let len = self.items.len();
        if self.items.capacity() - len < count {
            // At least as much again, so that the copies of many calls are no more than the items.
            self.items.reserve_exact(count.max(len))?;
        }
        Ok(())
    }

    /// Puts `item` in front of those that wait, where `spare` is positive, as it is after a pop. No memory is taken.
    pub fn put_back(&mut self, item: Bytes)
        requires { 0 < self.old.spare }
        ensures waiting { self.new.waiting ≡ item ∷ self.old.waiting }
        ensures spare { self.new.spare + 1 ≡ self.old.spare }
    {
        self.items.push_front_reserved(item);
    }

    /// The first item that waits, lent; `None` exactly where none waits.
    pub fn front(&self) -> Option<&[u8]>
        ensures { option_map (λ item. item.now) result ≡ first_of self.now.waiting }
    {
        self.items.front().map(|item| item.as_slice())
    }
}

impl LinkOut for MemoryLink {
    ghost use Rattle.std.specs.Prelude.{◌≡◌, ◌++◌, ◌∷◌, [], ◌<◌, ◌≤◌, ◌+◌, None, option_map, OnOk, OnErr, IfErr, IsOk};

    ghost sent = { λ _. None };

    ghost room = { λ link. link.spare };

    /// Takes `item` where `spare` is positive, else hands it back. No memory is taken.
    fn push(&mut self, item: Bytes) -> Result<(), Bytes>
        ensures handed_back { IfErr result (λ back. back ≡ item) }
        ensures full { IfErr result (λ _. self.new.spare ≡ 0) }
        ensures succeeds { 0 < self.old.spare → IsOk result }
        ensures appended { OnOk result (self.new.waiting ≡ self.old.waiting ++ item ∷ []) }
        ensures spare { OnOk result (self.old.spare ≤ self.new.spare + 1) }
        ensures err { OnErr result (self.new ≡ self.old) }
    {
        if self.items.len() == self.items.capacity() {
            return Err(item);
        }
        self.items.push_back_reserved(item);
        Ok(())
    }
}

impl LinkIn for MemoryLink {
    ghost use Rattle.std.specs.Prelude.{◌≡◌, ◌++◌, ◌∷◌, [], ◌≤◌, ◌+◌, ◌↔◌, None, IfSome, IsNone};

    ghost received = { λ _. None };

    ghost known = { λ link. link.waiting };

    /// The first item that waits; `None` exactly where none waits. `spare` rises by one with an item. No memory is taken.
    fn pop(&mut self) -> Option<Bytes>
        ensures taken { IfSome result (λ item. self.old.waiting ≡ item ∷ self.new.waiting) }
        ensures empty { IsNone result ↔ (self.old.waiting ≡ []) }
        ensures kept { IsNone result → self.new ≡ self.old }
        ensures spare { IfSome result (λ _. self.new.spare ≡ self.old.spare + 1) }
    {
        self.items.pop_front()
    }
}
