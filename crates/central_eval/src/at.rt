// The central evaluation at the clocks of stamps.
ghost use Rattle.std.specs.Prelude.{◌↔◌, ◌<◌, length, IfOk, IfSome, IsNone};
ghost use Rattle.propagation.specs.History.{CentralAt};
ghost use Rattle.propagation.specs.Stamps.{clock_of};
ghost use Rattle.svc_graph.specs.History.{theory};
ghost use Rattle.central_eval.specs.At.{AreInTime, AreReached, IsTrueOf};

use crate::evaluation::{no_values, place, put_value};
use crate::reaching::{are_in_time, are_reached, clock_in};
use stamp_clock::Stamps;
use std::alloc::Global;
use svc_graph::Book;
use svc_value::limits::MAX_DEPENDENCIES;
use svc_value::{OutOfMemory, ServiceId, Value};

// The value of a service at the clocks of the stamps, which are those of all that it rests on.
fn value_in(
    alloc: Global,
    book: &Book,
    id: ServiceId,
    stamps: &Stamps,
) -> Result<Value, OutOfMemory>
    requires declared { id < length book.now }
    requires in_time { AreInTime book.now stamps.now }
    requires reached { AreReached book.now id stamps.now }
    ensures { IfOk result (CentralAt (theory book.now) (clock_of stamps.now) id) }
{
    let order = book.rank_order()?;
    let mut values = no_values(alloc, book.len())?;
    let mut given = Vec::with_capacity(alloc, MAX_DEPENDENCIES)?;
    for reader in order.as_slice() {
        if let Some(definition) = book.history(*reader).at(clock_in(stamps, *reader)) {
            put_value(alloc, definition, *reader, &mut values, &mut given)?;
        }
    }
    values[place(id)].copy()
}

/// The value of the service `id` at the clocks that the stamps name: the meaning of its definition at its clock over the
/// values of its dependencies at theirs. `None` exactly where the keys are not what the service rests on by the definitions
/// at these clocks, or a clock is past its service's. `OutOfMemory` only when memory runs out.
pub fn central_at(
    alloc: Global,
    book: &Book,
    id: ServiceId,
    stamps: &Stamps,
) -> Result<Option<Value>, OutOfMemory>
    requires { id < length book.now }
    ensures value { IfOk result (λ found. IfSome found (IsTrueOf book.now id stamps.now)) }
    ensures none { IfOk result (λ found. IsNone found ↔ ((AreInTime book.now stamps.now × AreReached book.now id stamps.now) → ⊥)) }
    ensures untrue { IfOk result (λ found. IsNone found → (value : _) → IsTrueOf book.now id stamps.now value → ⊥) }
{
    if !are_in_time(book, stamps) || !are_reached(book, id, stamps) {
        return Ok(None);
    }
    Ok(Some(value_in(alloc, book, id, stamps)?))
}
