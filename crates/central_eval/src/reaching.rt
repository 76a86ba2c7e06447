// Whether the keys of stamps are what a service rests on at their clocks.
ghost use Rattle.std.specs.Prelude.{◌≡◌, ◌↔◌, ℕ, ◌<◌, ◌≤◌, ◌||◌, ◌==◌, IsTrue, true, false, length, slice_index_or, All};
ghost use Rattle.propagation.specs.History.{deps};
ghost use Rattle.propagation.specs.Stamps.{clock_of};
ghost use Rattle.propagation.specs.Lists.{is_among};
ghost use Rattle.stamp_clock.specs.Beside.{AreStamps};
ghost use Rattle.svc_graph.specs.Book.{IsBook};
ghost use Rattle.svc_graph.specs.History.{theory};
ghost use Rattle.central_eval.specs.At.{AreInTime, AreReached};

use crate::evaluation::place;
use stamp_clock::Stamps;
use svc_graph::{Book, DefinitionRef, MAX_SERVICES};
use svc_value::{Clock, ServiceId};

// The clock that the stamps give a service, 0 where it is no key.
pub(crate) fn clock_in(stamps: &Stamps, id: ServiceId) -> usize
    ensures { result ≡ clock_of stamps.now id }
{
    stamps.get(id).unwrap_or(Clock(0)).0 as usize
}

// Whether no clock is past its service's.
pub(crate) fn are_in_time(book: &Book, stamps: &Stamps) -> bool
    ensures in_time { IsTrue result ↔ AreInTime book.now stamps.now }
    ensures stamps { AreStamps stamps.now }
{
    let count = book.len();
    if stamps.next_key(count as u16).is_some() {
        return false;
    }
    for number in 0..count {
        let id = ServiceId(number as u16);
        if clock_in(stamps, id) > book.clock(id).0 as usize {
            return false;
        }
    }
    true
}

// The mark of one service.
fn one_mark(id: ServiceId) -> [bool; MAX_SERVICES]
    requires { id < MAX_SERVICES }
    ensures len { length result ≡ MAX_SERVICES }
    ensures mark { (q : ℕ) → slice_index_or result q false ≡ (q == id) }
{
    let mut marks = [false; MAX_SERVICES];
    marks[place(id)] = true;
    marks
}

// Marks these services too.
fn mark_all(marks: &mut [bool], ids: &[ServiceId])
    requires { All (λ p. p < length marks.old) ids.now }
    ensures { (q : ℕ) → slice_index_or marks.new q false ≡ (slice_index_or marks.old q false || is_among ids.now q) }
{
    for id in ids {
        marks[place(*id)] = true;
    }
}

// Marks the dependencies of a service at a clock.
fn mark_below(book: &Book, reader: ServiceId, clock: usize, marks: &mut [bool])
    requires declared { reader < length book.now }
    requires book { IsBook book.now }
    requires room { length marks.old ≡ MAX_SERVICES }
    ensures { (q : ℕ) → slice_index_or marks.new q false ≡ (slice_index_or marks.old q false || is_among (deps (theory book.now) reader clock) q) }
{
    if let Some(DefinitionRef::Derived(formula)) = book.history(reader).at(clock) {
        mark_all(marks, formula.fixed);
        mark_all(marks, formula.members);
    }
}

// Whether a service with this clock, 0 where it is no key, is marked just where it is a key.
fn is_marked_as_key(marks: &[bool], number: usize, clock: usize) -> bool
    requires { number < length marks.now }
    ensures { IsTrue result ↔ ((slice_index_or marks.now number false ≡ true) ↔ (0 < clock)) }
{
    marks[number] == (clock > 0)
}

// Whether the keys are just what the service rests on at the clocks. That is where they are the service and the dependencies
// of the keys: since ranks fall along dependencies, each key then leads up to the service.
pub(crate) fn are_reached(book: &Book, id: ServiceId, stamps: &Stamps) -> bool
    requires declared { id < length book.now }
    requires in_time { AreInTime book.now stamps.now }
    ensures { IsTrue result ↔ AreReached book.now id stamps.now }
{
    let count = book.len();
    let mut marks = one_mark(id);
    for number in 0..count {
        let reader = ServiceId(number as u16);
        mark_below(book, reader, clock_in(stamps, reader), &mut marks);
    }
    for key in 0..count {
        if !is_marked_as_key(&marks, key, clock_in(stamps, ServiceId(key as u16))) {
            return false;
        }
    }
    true
}
