// The values of a small book.
ghost use Rattle.std.specs.Prelude.{◌≡◌, ◌<◌, IfOk, true};
ghost use Rattle.svc_graph.specs.Accepting.{HasForm, IsWritten};
ghost use Rattle.svc_graph.specs.Central.{AreBorn};

use central_eval::central;
use std::alloc::Global;
use std::test::Fail;
use svc_expr::{Boxed, Expr, ExprKind};
use svc_graph::{Book, Change, Definition, Formula};
use svc_value::{Ids, OutOfMemory, Rank, ServiceId, Value, ValueType};

// Declares a service with its first definition.
pub(crate) fn born(
    book: &mut Book,
    name: &str,
    rank: u16,
    definition: Definition,
) -> Result<ServiceId, Fail>
    requires rank { rank < 1000 }
    requires form { HasForm rank (Change.Birth definition) }
{
    let id = book.declare(name, Rank(rank), ValueType::Int)?;
    book.accept(id, Change::Birth(definition))?;
    Ok(id)
}

// The sum of these members.
fn sum_of(alloc: Global, members: &[ServiceId]) -> Result<Formula, OutOfMemory>
    ensures { IfOk result IsWritten }
{
    Ok(Formula {
        expr: Expr {
            kind: Boxed::new(alloc, ExprKind::Sum)?,
        },
        fixed: Ids::new(alloc),
        members: Ids::from_slice(alloc, members)?,
    })
}

// Two inputs, and a sum that is declared before a sum on which it rests.
fn four(alloc: Global, book: &mut Book) -> Result<(), Fail> {
    let a = born(book, "a", 0, Definition::Input(Value::Int(3)))?;
    let b = born(book, "b", 0, Definition::Input(Value::Int(4)))?;
    let total = born(
        book,
        "total",
        1,
        Definition::Derived(sum_of(alloc, &[a, b])?),
    )?;
    born(
        book,
        "twice",
        2,
        Definition::Derived(sum_of(alloc, &[total, a])?),
    )?;
    Ok(())
}

// Whether every service is born.
fn are_born(book: &Book) -> bool
    ensures { result ≡ true → AreBorn book.now }
{
    for number in 0..book.len() {
        if book.clock(ServiceId(number as u16)).0 == 0 {
            return false;
        }
    }
    true
}

#[test]
fn computes_each_by_rank(rt: HostRuntime) -> Result<(), Fail> {
    let alloc = rt.alloc();
    let mut book = Book::new(alloc);
    four(alloc, &mut book)?;
    if are_born(&book) {
        let values = central(alloc, &book)?;
        let expected = [3, 4, 7, 10];
        assert_eq!(rt; values.len(), expected.len());
        for (place, number) in expected.iter().enumerate() {
            assert!(rt; matches!(values.get(place), Some(Value::Int(n)) if n == number));
        }
    }
    Ok(())
}
