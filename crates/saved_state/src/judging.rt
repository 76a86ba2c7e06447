// Whether services are those of a book.
ghost use Rattle.std.specs.Prelude.{◌≡◌, ◌≢◌, ◌<◌, ◌≤◌, ◌+◌, length, take, All, IfOk, OnOk};
ghost use Rattle.std.specs.Result.{IsErrOf};
ghost use Rattle.svc_graph.specs.Book.{IsBook};
ghost use Rattle.document_reading.specs.Present.{bare_rows, half_present};
ghost use Rattle.saved_state.specs.Named.{IsFormed};
ghost use Rattle.saved_state.specs.States.{names_in, rows_of};
ghost use Rattle.svc_token.specs.Word.{IsName};

use crate::{ServiceRow, StateError};
use std::alloc::Global;
use svc_graph::{Book, Change, ChangeError, Kind};
use svc_token::NameRef;
use svc_value::ServiceId;
use svc_value::limits::MAX_SERVICES;

/// Accepts services that are those of a book; `Bad` exactly where they are not.
pub(crate) fn judge(alloc: Global, services: &[ServiceRow]) -> Result<(), StateError>
    requires formed { All IsFormed services.now }
    requires names { All IsName (names_in services.now) }
    ensures ok { OnOk result (IsBook (rows_of services.now)) }
    ensures bad { IsErrOf result StateError.Bad → IsBook (rows_of services.now) → ⊥ }
{
    if services.len() > MAX_SERVICES {
        return Err(StateError::Bad);
    }
    let mut book = declare_all(alloc, services)?;
    for number in 0..services.len() {
        define_next(services, &mut book, ServiceId(number as u16))?;
    }
    prove!(book.len() <= MAX_SERVICES);
    Ok(())
}

// A book where the services are declared; `Bad` where they can't be.
fn declare_all(alloc: Global, services: &[ServiceRow]) -> Result<Book, StateError>
    requires few { length services.now ≤ MAX_SERVICES }
    requires formed { All IsFormed services.now }
    requires names { All IsName (names_in services.now) }
    ensures ok { IfOk result (λ book. book ≡ bare_rows (rows_of services.now)) }
    ensures bad { IsErrOf result StateError.Bad → IsBook (rows_of services.now) → ⊥ }
{
    let mut book = Book::new(alloc);
    for number in 0..services.len() {
        declare_next(services, &mut book, ServiceId(number as u16))?;
    }
    Ok(book)
}

// Declares a service where those before it are; `Bad` where it can't be.
fn declare_next(services: &[ServiceRow], book: &mut Book, id: ServiceId) -> Result<(), StateError>
    requires id { id < length services.now }
    requires few { length services.now ≤ MAX_SERVICES }
    requires formed { All IsFormed services.now }
    requires names { All IsName (names_in services.now) }
    requires book { book.old ≡ bare_rows (take id (rows_of services.now)) }
    ensures ok { OnOk result (book.new ≡ bare_rows (take (id + 1) (rows_of services.now))) }
    ensures bad { IsErrOf result StateError.Bad → IsBook (rows_of services.now) → ⊥ }
{
    let service = &services[usize::from(id.0)];
    let name = NameRef::new(service.name.as_slice());
    if book.find(name.as_str()).is_some() {
        return Err(StateError::Bad);
    }
    let kind = Kind {
        rank: service.rank,
        ty: service.ty,
    };
    book.add_service(name.as_str(), kind)?;
    Ok(())
}

// Gives a service its definition where those before it have theirs; `Bad` where it is refused.
fn define_next(services: &[ServiceRow], book: &mut Book, id: ServiceId) -> Result<(), StateError>
    requires id { id < length services.now }
    requires formed { All IsFormed services.now }
    requires book { book.old ≡ half_present id (rows_of services.now) }
    ensures ok { OnOk result (book.new ≡ half_present (id + 1) (rows_of services.now)) }
    ensures bad { IsErrOf result StateError.Bad → IsBook (rows_of services.now) → ⊥ }
{
    let first = services[usize::from(id.0)].definition.copy()?;
    match book.accept(id, Change::Birth(first)) {
        Ok(()) => Ok(()),
        Err(error) => Err(refused(error)),
    }
}

// Why the services are refused where a change is.
fn refused(error: ChangeError) -> StateError
    ensures { result ≡ StateError.Bad → error ≢ ChangeError.OutOfMemory }
{
    match error {
        ChangeError::OutOfMemory => StateError::OutOfMemory,
        _ => StateError::Bad,
    }
}
