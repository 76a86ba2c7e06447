// What a service rests on.
ghost use Rattle.std.specs.Prelude.{◌≡◌, ℕ, ◌≤◌, ◌<◌, ◌||◌, ◌&&◌, ◌==◌, Bool, false, filter, length, slice_index_or, All, IfOk, OnOk};
ghost use Rattle.std.specs.List.{range_with_len};
ghost use Rattle.propagation.specs.Lists.{Has, is_among};

use super::{Book, MAX_SERVICES, place};
use std::alloc::{AllocError, Global};
use svc_value::{Ids, OutOfMemory, ServiceId};

// The mark of one service.
fn one_mark(id: ServiceId) -> [bool; MAX_SERVICES]
    requires { id < MAX_SERVICES }
    ensures len { length result ≡ MAX_SERVICES }
    ensures mark { (q : ℕ) → slice_index_or result q false ≡ (q == id) }
{
    let mut marks = [false; MAX_SERVICES];
    marks[place(id)] = true;
    marks
}

// Marks these services too.
fn mark_all(marks: &mut [bool], ids: &[ServiceId])
    requires { All (λ p. p < length marks.old) ids.now }
    ensures { (q : ℕ) → slice_index_or marks.new q false ≡ (slice_index_or marks.old q false || is_among ids.now q) }
{
    for id in ids {
        marks[place(*id)] = true;
    }
}

// The marked ones of the first services.
fn marked_services(
    alloc: Global,
    marks: &[bool],
    count: usize,
) -> Result<Vec<ServiceId>, AllocError>
    requires few { count ≤ MAX_SERVICES }
    requires within { count ≤ length marks.now }
    ensures { IfOk result (λ ids. ids.items ≡ filter (λ p. slice_index_or marks.now p false) (range_with_len 0 count)) }
{
    let mut ids = Vec::with_capacity(alloc, count)?;
    for number in 0..count {
        if marks[number] {
            ids.push(ServiceId(number as u16))?;
        }
    }
    Ok(ids)
}

impl Book {
    ghost use Rattle.propagation.specs.History.{Reach, deps, now};
    ghost use Rattle.propagation.specs.Stamps.{Rise};
    ghost use Rattle.svc_graph.specs.Book.{IsBook};
    ghost use Rattle.svc_graph.specs.History.{theory};

    // Marks the dependencies of a service that is marked.
    fn mark_below(&self, reader: ServiceId, marks: &mut [bool]) -> Result<(), OutOfMemory>
        requires declared { reader < length self.now }
        requires book { IsBook self.now }
        requires room { length marks.old ≡ MAX_SERVICES }
        ensures { OnOk result ((q : ℕ) → slice_index_or marks.new q false ≡ (slice_index_or marks.old q false || (slice_index_or marks.old reader false && is_among (deps (theory self.now) reader (now (theory self.now) reader)) q))) }
    {
        if marks[place(reader)] {
            mark_all(marks, self.deps_of(reader)?.as_slice());
        }
        Ok(())
    }

    /// The service `id` and all that it rests on by last definitions, rising.
    pub fn closure(&self, id: ServiceId) -> Result<Ids, OutOfMemory>
        requires { id < length self.now }
        ensures rising { IfOk result (Rise 0) }
        ensures reached { IfOk result (λ ids. (q : ℕ) → Has ids q → Reach (theory self.now) (now (theory self.now)) id q) }
        ensures all { IfOk result (λ ids. (q : ℕ) → Reach (theory self.now) (now (theory self.now)) id q → Has ids q) }
    {
        let count = self.len();
        let order = self.rank_order()?;
        let order = order.as_slice();
        let mut marks = one_mark(id);
        for step in 0..order.len() {
            let reader = order[order.len() - 1 - step];
            self.mark_below(reader, &mut marks)?;
        }
        Ok(Ids::from_vec(marked_services(self.alloc, &marks, count)?))
    }
}
