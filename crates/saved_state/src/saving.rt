// The state of a book.
ghost use Rattle.std.specs.Prelude.{◌≡◌, ◌≤◌, ◌<◌, ◌+◌, length, take, Some, IfOk, OnOk};
ghost use Rattle.svc_graph.specs.Central.{AreBorn};
ghost use Rattle.svc_graph.specs.History.{history_of, present};
ghost use Rattle.svc_value.specs.declared.limits.TheConstants.{MAX_LEGS};
ghost use Rattle.saved_state.specs.States.{saved_of_rows, services_of, IsSayable, IsState};

use crate::{Saved, ServiceRow, ServiceRows};
use std::alloc::Global;
use svc_graph::{Book, Definition};
use svc_value::{Name, OutOfMemory, ServiceId};

/// The state of `book`, whose services all have a definition, after `leg` legs, from 1 to 1000: the services in the order of
/// declaration, each with its last definition, in memory of `alloc`. Where the book is sayable, as that of a document is, the
/// answer is a state.
pub fn saved_of(alloc: Global, leg: u32, book: &Book) -> Result<Saved, OutOfMemory>
    requires begun { 1 ≤ leg }
    requires ended { leg ≤ MAX_LEGS }
    requires born { AreBorn book.now }
    ensures saved { IfOk result (λ saved. saved ≡ saved_of_rows leg book.now) }
    ensures state { IfOk result (λ saved. IsSayable book.now → IsState saved) }
{
    let mut services = ServiceRows::new(alloc);
    for number in 0..book.len() {
        save_next(alloc, book, ServiceId(number as u16), &mut services)?;
    }
    Ok(Saved { leg, services })
}

// Appends a service of the book behind those before it.
fn save_next(
    alloc: Global,
    book: &Book,
    id: ServiceId,
    services: &mut ServiceRows,
) -> Result<(), OutOfMemory>
    requires id { id < length book.now }
    requires born { AreBorn book.now }
    requires services { services.old ≡ services_of (take id book.now) }
    ensures { OnOk result (services.new ≡ services_of (take (id + 1) book.now)) }
{
    let kind = book.kind(id);
    let name = Name::from_slice(alloc, book.name(id).as_bytes())?;
    let definition = last(book, id)?;
    services.push(ServiceRow {
        name,
        rank: kind.rank,
        ty: kind.ty,
        definition,
    })
}

// A copy of the last definition of a service.
fn last(book: &Book, id: ServiceId) -> Result<Definition, OutOfMemory>
    requires id { id < length book.now }
    requires born { AreBorn book.now }
    ensures { IfOk result (λ made. present (history_of book.now id) ≡ Some made) }
{
    book.history(id).present().unwrap().copy()
}
