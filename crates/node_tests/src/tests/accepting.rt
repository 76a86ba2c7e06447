// Changes that a book accepts.
ghost use Rattle.std.specs.Prelude.{◌≡◌, ◌∷◌, [], ◌++◌, true, IfOk, OnOk, IsTrue, length};
ghost use Rattle.svc_graph.specs.Accepting.{HasForm};
ghost use Rattle.svc_graph.specs.History.{history_of, present, is_birth};
ghost use Rattle.node_core.specs.Coming.{next, coming};
ghost use Rattle.node_tests.specs.Written.{IsWell};

use super::written::Written;
use std::alloc::Global;
use std::test::Fail;
use svc_graph::{Book, Change, Definition};
use svc_value::{OutOfMemory, Rank, ServiceId, ValueType};

// Whether the change is the first of a service.
fn is_birth(change: &Change) -> bool
    ensures { result ≡ is_birth change.now }
{
    match change {
        Change::Birth(_) => true,
        Change::Set(_) | Change::Add(_) | Change::Drop(_) | Change::Define(_) => false,
    }
}

// Whether the change is for a service of this rank.
fn has_form(rank: Rank, change: &Change) -> bool
    requires { IsWell change.now }
    ensures { result ≡ true → HasForm rank change.now }
{
    match change {
        Change::Birth(Definition::Input(_)) => rank.0 == 0,
        Change::Birth(Definition::Derived(_)) => rank.0 > 0,
        Change::Set(_) | Change::Add(_) | Change::Drop(_) | Change::Define(_) => true,
    }
}

// The change is the next one of the service.
fn accept(book: &mut Book, id: ServiceId, change: Change) -> Result<(), Fail>
    requires { IsWell change }
    ensures len { OnOk result (length book.new ≡ length book.old) }
    ensures history { OnOk result (history_of book.new id ≡ history_of book.old id ++ next (present (history_of book.old id)) change ∷ []) }
{
    if usize::from(id.0) >= book.len() || book.clock(id).0 >= 1_024_000 {
        return Err("there is no such service".into());
    }
    if is_birth(&change) != (book.clock(id).0 == 0) {
        return Err("the birth is not the first change".into());
    }
    if !has_form(book.kind(id).rank, &change) {
        return Err("the rank is of another kind of service".into());
    }
    book.accept(id, change)?;
    Ok(())
}

/// The changes are the next ones of the service.
pub(crate) fn accept_all(
    alloc: Global,
    book: &mut Book,
    id: ServiceId,
    written: &[Written],
) -> Result<Vec<Change>, Fail>
    ensures len { OnOk result (length book.new ≡ length book.old) }
    ensures history { IfOk result (λ changes. history_of book.new id ≡ history_of book.old id ++ coming (present (history_of book.old id)) changes.items) }
{
    let mut changes = Vec::new(alloc);
    for next in written {
        let change = next.change()?;
        accept(book, id, change.copy()?)?;
        changes.push(change)?;
    }
    Ok(changes)
}

/// The services of these names and ranks and of this type, without definitions.
pub(crate) fn book_of(
    alloc: Global,
    ty: ValueType,
    services: &[(&str, u16)],
) -> Result<Book, Fail> {
    let mut book = Book::new(alloc);
    for (name, rank) in services {
        if *rank > 1000 {
            return Err("the rank is too high".into());
        }
        book.declare(name, Rank(*rank), ty)?;
    }
    Ok(book)
}
