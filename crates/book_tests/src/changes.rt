// Changes that are accepted and refused, in the order in which the tests are made.
ghost use Rattle.std.specs.Prelude.{◌≡◌, ◌<◌, true, IfOk, length};
ghost use Rattle.svc_graph.specs.Accepting.{HasForm, IsWritten};
ghost use Rattle.svc_graph.specs.History.{history_of};

use std::alloc::Global;
use std::test::Fail;
use svc_expr::{Boxed, Expr, ExprKind};
use svc_graph::{Book, Change, ChangeError, Definition, Formula};
use svc_value::{Ids, OutOfMemory, Rank, ServiceId, Value, ValueType};

// Declares a service with its first definition.
fn born(book: &mut Book, name: &str, rank: u16, definition: Definition) -> Result<ServiceId, Fail>
    requires rank { rank < 1000 }
    requires form { HasForm rank (Change.Birth definition) }
{
    let id = book.declare(name, Rank(rank), ValueType::Int)?;
    book.accept(id, Change::Birth(definition))?;
    Ok(id)
}

// Whether the service is declared and born, and may change once more.
fn is_open(book: &Book, id: ServiceId) -> bool
    ensures declared { result ≡ true → id < length book.now }
    ensures born { result ≡ true → 0 < length (history_of book.now id) }
    ensures room { result ≡ true → length (history_of book.now id) < 1024000 }
{
    usize::from(id.0) < book.len() && book.clock(id).0 > 0 && book.clock(id).0 < 1024000
}

// Sets a whole number.
fn set(book: &mut Book, id: ServiceId, number: i64) -> Result<(), ChangeError> {
    if is_open(book, id) {
        book.accept(id, Change::Set(Value::Int(number)))
    } else {
        Ok(())
    }
}

// Adds a member.
fn add(book: &mut Book, reader: ServiceId, member: ServiceId) -> Result<(), ChangeError> {
    if is_open(book, reader) {
        book.accept(reader, Change::Add(member))
    } else {
        Ok(())
    }
}

// Takes a member out.
fn take_out(book: &mut Book, reader: ServiceId, member: ServiceId) -> Result<(), ChangeError> {
    if is_open(book, reader) {
        book.accept(reader, Change::Drop(member))
    } else {
        Ok(())
    }
}

// Another formula.
fn define(book: &mut Book, reader: ServiceId, formula: Formula) -> Result<(), ChangeError>
    requires { IsWritten formula }
{
    if is_open(book, reader) {
        book.accept(reader, Change::Define(formula))
    } else {
        Ok(())
    }
}

// A leaf of an expression.
fn leaf(alloc: Global, kind: ExprKind) -> Result<Expr, OutOfMemory>
    ensures { IfOk result (λ expr. expr.kind ≡ kind) }
{
    Ok(Expr {
        kind: Boxed::new(alloc, kind)?,
    })
}

// The value of one service alone, with these members.
fn copy_of(alloc: Global, id: ServiceId, members: &[ServiceId]) -> Result<Formula, OutOfMemory>
    ensures { IfOk result IsWritten }
{
    Ok(Formula {
        expr: leaf(alloc, ExprKind::Given(0))?,
        fixed: Ids::from_slice(alloc, &[id])?,
        members: Ids::from_slice(alloc, members)?,
    })
}

// The sum of these members.
fn sum_of(alloc: Global, members: &[ServiceId]) -> Result<Formula, OutOfMemory>
    ensures { IfOk result IsWritten }
{
    Ok(Formula {
        expr: leaf(alloc, ExprKind::Sum)?,
        fixed: Ids::new(alloc),
        members: Ids::from_slice(alloc, members)?,
    })
}

// One input of whole numbers, and two derived services of rank 1 over it.
fn three(alloc: Global, book: &mut Book) -> Result<[ServiceId; 3], Fail> {
    let x = born(book, "x", 0, Definition::Input(Value::Int(1)))?;
    let a = born(book, "a", 1, Definition::Derived(copy_of(alloc, x, &[])?))?;
    let b = born(book, "b", 1, Definition::Derived(sum_of(alloc, &[])?))?;
    Ok([x, a, b])
}

// How many dependencies the service has, and how many services it rests on.
fn counts(book: &Book, id: ServiceId) -> Result<(usize, usize), OutOfMemory> {
    if is_open(book, id) {
        Ok((book.deps_of(id)?.len(), book.closure(id)?.len()))
    } else {
        Ok((0, 0))
    }
}

// The answers to changes of members.
fn member_answers(book: &mut Book, ids: [ServiceId; 3]) -> [Result<(), ChangeError>; 8] {
    let [x, a, b] = ids;
    [
        add(book, b, a),
        add(book, b, b),
        add(book, b, ServiceId(9)),
        add(book, x, a),
        set(book, a, 1),
        take_out(book, a, x),
        add(book, a, x),
        add(book, b, x),
    ]
}

// The answer to a definition by the value of one service, with these members.
fn defined_by(
    alloc: Global,
    book: &mut Book,
    reader: ServiceId,
    id: ServiceId,
    members: &[ServiceId],
) -> Result<(), ChangeError> {
    let formula = copy_of(alloc, id, members)?;
    define(book, reader, formula)
}

// The answers to definitions.
fn definition_answers(
    alloc: Global,
    book: &mut Book,
    ids: [ServiceId; 3],
) -> [Result<(), ChangeError>; 6] {
    let [x, a, b] = ids;
    [
        defined_by(alloc, book, x, x, &[]),
        defined_by(alloc, book, a, b, &[]),
        defined_by(alloc, book, a, a, &[]),
        defined_by(alloc, book, a, x, &[x]),
        defined_by(alloc, book, a, ServiceId(9), &[]),
        defined_by(alloc, book, a, x, &[]),
    ]
}

#[test]
fn answers_as_listed(rt: HostRuntime) -> Result<(), Fail> {
    let alloc = rt.alloc();
    let mut book = Book::new(alloc);
    let ids = three(alloc, &mut book)?;
    let expected = [
        Err(ChangeError::RankNotLower),
        Err(ChangeError::RankNotLower),
        Err(ChangeError::Unknown),
        Err(ChangeError::NotDerived),
        Err(ChangeError::NotInput),
        Err(ChangeError::NotMember),
        Err(ChangeError::Already),
        Ok(()),
    ];
    assert_eq!(rt; member_answers(&mut book, ids), expected);
    assert_eq!(rt; counts(&book, ids[2])?, (1, 2));
    Ok(())
}

#[test]
fn answers_definitions_as_listed(rt: HostRuntime) -> Result<(), Fail> {
    let alloc = rt.alloc();
    let mut book = Book::new(alloc);
    let ids = three(alloc, &mut book)?;
    let expected = [
        Err(ChangeError::NotDerived),
        Err(ChangeError::RankNotLower),
        Err(ChangeError::RankNotLower),
        Err(ChangeError::Already),
        Err(ChangeError::Unknown),
        Ok(()),
    ];
    assert_eq!(rt; definition_answers(alloc, &mut book, ids), expected);
    assert_eq!(rt; book.find("b"), Some(ids[2]));
    assert_eq!(rt; book.find("c"), None);
    assert_eq!(rt; book.rank_order()?.as_slice(), ids.as_slice());
    Ok(())
}
