// The values of small books at clocks of the past.
ghost use Rattle.std.specs.Prelude.{◌≡◌, ◌<◌, true, IfOk, length};
ghost use Rattle.propagation.specs.Lists.{AreDistinct};
ghost use Rattle.svc_graph.specs.Accepting.{IsWritten};
ghost use Rattle.svc_graph.specs.History.{history_of};

use crate::central::born;
use central_eval::central_at;
use stamp_clock::Stamps;
use std::alloc::Global;
use std::process::Abort;
use std::test::Fail;
use svc_expr::{names_of, read_expr};
use svc_graph::{Book, Change, Definition, Formula};
use svc_value::{Clock, Ids, OutOfMemory, ServiceId, Value};

// The formula of this expression over these services.
fn formula(
    rt: &impl Abort,
    alloc: Global,
    text: &str,
    fixed: &[ServiceId],
    members: &[ServiceId],
) -> Result<Formula, Fail>
    requires { AreDistinct fixed.now }
    ensures { IfOk result IsWritten }
{
    let expr = read_expr(alloc, text)?.expr;
    assert!(rt; usize::from(names_of(&expr)) == fixed.len());
    Ok(Formula {
        expr,
        fixed: Ids::from_slice(alloc, fixed)?,
        members: Ids::from_slice(alloc, members)?,
    })
}

// Whether the service is declared and born, and may change once more.
fn is_open(book: &Book, id: ServiceId) -> bool
    ensures declared { result ≡ true → id < length book.now }
    ensures born { result ≡ true → 0 < length (history_of book.now id) }
    ensures room { result ≡ true → length (history_of book.now id) < 1024000 }
{
    usize::from(id.0) < book.len() && book.clock(id).0 > 0 && book.clock(id).0 < 1024000
}

// Sets a whole number.
fn set(book: &mut Book, id: ServiceId, number: i64) -> Result<(), Fail> {
    if is_open(book, id) {
        book.accept(id, Change::Set(Value::Int(number)))?;
    }
    Ok(())
}

// Puts a member in place of another.
fn replace(book: &mut Book, reader: ServiceId, old: ServiceId, new: ServiceId) -> Result<(), Fail> {
    if is_open(book, reader) {
        book.accept(reader, Change::Drop(old))?;
    }
    if is_open(book, reader) {
        book.accept(reader, Change::Add(new))?;
    }
    Ok(())
}

// The stamps of these pairs of key and clock.
fn stamps_of(alloc: Global, pairs: &[(u16, u32)]) -> Result<Stamps, OutOfMemory> {
    let mut stamps = Stamps::of(alloc, &[], &[])?;
    for pair in pairs {
        if pair.0 < 64 && pair.1 > 0 {
            let one = Stamps::one(alloc, ServiceId(pair.0), Clock(pair.1))?;
            stamps = stamps.join(&one)?;
        }
    }
    Ok(stamps)
}

// The whole number that the service has at these clocks, if there is one.
fn number_at(
    alloc: Global,
    book: &Book,
    id: u16,
    pairs: &[(u16, u32)],
) -> Result<Option<i64>, Fail> {
    if usize::from(id) >= book.len() {
        return Ok(None);
    }
    let value = central_at(alloc, book, ServiceId(id), &stamps_of(alloc, pairs)?)?;
    Ok(match value {
        Some(Value::Int(number)) => Some(number),
        _ => None,
    })
}

// A service, the pairs of key and clock, and the number that it has at them, if it has one.
type Case<'a> = (u16, &'a [(u16, u32)], Option<i64>);

// Computes each case.
fn run(rt: &impl Abort, alloc: Global, book: &Book, cases: &[Case<'_>]) -> Result<(), Fail> {
    for case in cases {
        assert_eq!(rt; number_at(alloc, book, case.0, case.1)?, case.2);
    }
    Ok(())
}

// The services x, left, right and both, of which x is set to 2.
fn diamond(rt: &impl Abort, alloc: Global, book: &mut Book) -> Result<(), Fail> {
    let x = born(book, "x", 0, Definition::Input(Value::Int(1)))?;
    let plus = formula(rt, alloc, "x + 1", &[x], &[])?;
    let left = born(book, "left", 1, Definition::Derived(plus))?;
    let times = formula(rt, alloc, "x * 10", &[x], &[])?;
    let right = born(book, "right", 1, Definition::Derived(times))?;
    assert!(rt; left != right);
    let sum = formula(rt, alloc, "left + right", &[left, right], &[])?;
    born(book, "both", 2, Definition::Derived(sum))?;
    set(book, x, 2)
}

#[test]
fn computes_the_diamond(rt: HostRuntime) -> Result<(), Fail> {
    let alloc = rt.alloc();
    let mut book = Book::new(alloc);
    diamond(&rt, alloc, &mut book)?;
    let cases: [Case<'_>; 8] = [
        (0, &[(0, 1)], Some(1)),
        (1, &[(0, 1), (1, 1)], Some(2)),
        (2, &[(0, 1), (2, 1)], Some(10)),
        (3, &[(0, 1), (1, 1), (2, 1), (3, 1)], Some(12)),
        (0, &[(0, 2)], Some(2)),
        (1, &[(0, 2), (1, 1)], Some(3)),
        (2, &[(0, 2), (2, 1)], Some(20)),
        (3, &[(0, 2), (1, 1), (2, 1), (3, 1)], Some(23)),
    ];
    run(&rt, alloc, &book, &cases)
}

#[test]
fn answers_no_value(rt: HostRuntime) -> Result<(), Fail> {
    let alloc = rt.alloc();
    let mut book = Book::new(alloc);
    diamond(&rt, alloc, &mut book)?;
    let cases: [Case<'_>; 3] = [
        // The key of left is missing.
        (3, &[(0, 2), (2, 1), (3, 1)], None),
        // A clock of x is past its last.
        (3, &[(0, 3), (1, 1), (2, 1), (3, 1)], None),
        // The key of right is one too many for left.
        (1, &[(0, 2), (1, 1), (2, 1)], None),
    ];
    run(&rt, alloc, &book, &cases)
}

// The services x, b, c and n, of which x is set to 2 and n sums c in place of b.
fn floor(rt: &impl Abort, alloc: Global, book: &mut Book) -> Result<(), Fail> {
    let x = born(book, "x", 0, Definition::Input(Value::Int(1)))?;
    let same = formula(rt, alloc, "x", &[x], &[])?;
    let b = born(book, "b", 1, Definition::Derived(same))?;
    let times = formula(rt, alloc, "x * 100", &[x], &[])?;
    let c = born(book, "c", 1, Definition::Derived(times))?;
    let sum = formula(rt, alloc, "sum()", &[], &[b])?;
    let n = born(book, "n", 2, Definition::Derived(sum))?;
    set(book, x, 2)?;
    replace(book, n, b, c)
}

#[test]
fn computes_by_the_definition_of_the_clock(rt: HostRuntime) -> Result<(), Fail> {
    let alloc = rt.alloc();
    let mut book = Book::new(alloc);
    floor(&rt, alloc, &mut book)?;
    let cases: [Case<'_>; 11] = [
        (0, &[(0, 1)], Some(1)),
        (1, &[(0, 1), (1, 1)], Some(1)),
        (2, &[(0, 1), (2, 1)], Some(100)),
        (3, &[(0, 1), (1, 1), (3, 1)], Some(1)),
        (0, &[(0, 2)], Some(2)),
        (1, &[(0, 2), (1, 1)], Some(2)),
        (2, &[(0, 2), (2, 1)], Some(200)),
        (3, &[(0, 2), (1, 1), (3, 1)], Some(2)),
        (3, &[(3, 2)], Some(0)),
        (3, &[(0, 2), (2, 1), (3, 3)], Some(200)),
        // What n rests on at its last clock is not what it rested on at its first.
        (3, &[(0, 2), (2, 1), (3, 1)], None),
    ];
    run(&rt, alloc, &book, &cases)
}
