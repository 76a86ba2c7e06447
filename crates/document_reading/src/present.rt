// The book that a document finds which goes on from another: the same services, each with its last definition alone.
ghost use Rattle.std.specs.Prelude.{◌≡◌, ◌<◌, ◌+◌, Some, take, length, IfOk, OnOk};
ghost use Rattle.svc_graph.specs.Book.{IsBook};
ghost use Rattle.svc_graph.specs.Central.{AreBorn};
ghost use Rattle.svc_graph.specs.History.{history_of, present};
ghost use Rattle.svc_plan.specs.Rows.{present_rows};
ghost use Rattle.document_reading.specs.Present.{bare_rows, half_present};

use std::alloc::Global;
use svc_graph::{Book, Change, Definition};
use svc_value::{OutOfMemory, ServiceId};

// A copy of the last definition of a service.
fn last(book: &Book, id: ServiceId) -> Result<Definition, OutOfMemory>
    requires id { id < length book.now }
    requires born { AreBorn book.now }
    ensures { IfOk result (λ made. present (history_of book.now id) ≡ Some made) }
{
    book.history(id).present().unwrap().copy()
}

// Declares a service of the book where those before it are.
fn declare_next(book: &Book, copy: &mut Book, id: ServiceId) -> Result<(), OutOfMemory>
    requires book { IsBook book.now }
    requires id { id < length book.now }
    requires copy { copy.old ≡ bare_rows (take id book.now) }
    ensures { OnOk result (copy.new ≡ bare_rows (take (id + 1) book.now)) }
{
    copy.add_service(book.name(id), book.kind(id))?;
    Ok(())
}

// The same services, without definitions.
fn declare_all(alloc: Global, book: &Book) -> Result<Book, OutOfMemory>
    ensures { IfOk result (λ copy. copy ≡ bare_rows book.now) }
{
    let mut copy = Book::new(alloc);
    for number in 0..book.len() {
        declare_next(book, &mut copy, ServiceId(number as u16))?;
    }
    Ok(copy)
}

// Gives a service its last definition where those before it have theirs.
fn define_next(book: &Book, copy: &mut Book, id: ServiceId) -> Result<(), OutOfMemory>
    requires book { IsBook book.now }
    requires id { id < length book.now }
    requires born { AreBorn book.now }
    requires copy { copy.old ≡ half_present id book.now }
    ensures { OnOk result (copy.new ≡ half_present (id + 1) book.now) }
{
    let first = last(book, id)?;
    copy.apply(id, Change::Birth(first))
}

/// The same services, each with its last definition alone.
pub(crate) fn present_book(alloc: Global, book: &Book) -> Result<Book, OutOfMemory>
    requires { AreBorn book.now }
    ensures { IfOk result (λ copy. copy ≡ present_rows book.now) }
{
    let mut copy = declare_all(alloc, book)?;
    for number in 0..book.len() {
        define_next(book, &mut copy, ServiceId(number as u16))?;
    }
    Ok(copy)
}
