// Documents that go on from a book, after legs.
ghost use Rattle.std.specs.Prelude.{◌≤◌, IfSome};
ghost use Rattle.svc_graph.specs.Central.{AreBorn};

use crate::documents::legs;
use std::alloc::{AllocError, Global};
use std::test::Fail;
use svc_graph::{Book, Change, Definition};
use svc_text::{DocError, Mode, read_document_after};
use svc_value::{Rank, Value, ValueType};

// The answer to a document after this book and so many legs.
fn answer(alloc: Global, text: &[u8], book: &Book, ended: u32) -> Result<String, AllocError>
    requires born { AreBorn book.now }
    requires ended { ended ≤ 1000 }
{
    match read_document_after(alloc, text, Mode::Plain, book, ended) {
        Ok(plan) => legs(alloc, &plan),
        Err(DocError::Refused(refusal)) => {
            let line = refusal.line;
            let code = refusal.code;
            format!(in alloc; "{line} {code:?}")
        }
        Err(DocError::OutOfMemory) => format!(in alloc; "out of memory"),
    }
}

#[test]
fn legs_before_are_counted(rt: HostRuntime) -> Result<(), Fail> {
    let alloc = rt.alloc();
    let book = Book::new(alloc);
    let text = b"settle\ninput x : int = 1\n".as_slice();
    assert_eq!(rt; answer(alloc, text, &book, 998)?.as_str(), "0,0,0;1,1,0;");
    assert_eq!(rt; answer(alloc, text, &book, 999)?.as_str(), "2 E19");
    assert_eq!(rt; answer(alloc, text, &book, 1000)?.as_str(), "1 E19");
    assert_eq!(rt;
        answer(alloc, b"# nothing\n".as_slice(), &book, 1000)?.as_str(),
        ""
    );
    Ok(())
}

// The book of one input.
fn one_input(alloc: Global) -> Option<Book>
    ensures { IfSome result (λ book. AreBorn book) }
{
    let mut book = Book::new(alloc);
    let id = book.declare("x", Rank(0), ValueType::Int).ok()?;
    book.accept(id, Change::Birth(Definition::Input(Value::Int(3))))
        .ok()?;
    Some(book)
}

#[test]
fn services_before_are_declared(rt: HostRuntime) -> Result<(), Fail> {
    let alloc = rt.alloc();
    let Some(book) = one_input(alloc) else {
        assert_eq!(rt; "no book", "");
        return Ok(());
    };
    let rows = [
        ("input x : int = 1", "1 E05"),
        ("set y = 1", "1 E08"),
        ("set x = 4\nsettle\nset x = 5", "0,1,0;0,1,0;"),
        ("derived d : int rank 1 = x", "1,1,0;"),
        ("add x x", "1 E14"),
    ];
    for (text, expected) in rows {
        let answer = answer(alloc, text.as_bytes(), &book, 3)?;
        assert_eq!(rt; answer.as_str(), expected, "in {text:?}");
    }
    Ok(())
}
