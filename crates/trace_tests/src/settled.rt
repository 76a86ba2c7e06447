// Settled texts.
use crate::reading::book_of;
use std::alloc::Global;
use std::test::Fail;
use svc_graph::Book;
use svc_value::{Fault, Value};
use trace_text::settled_text;

// Appends the block of a leg of two services.
fn append_block(book: &Book, out: &mut Vec<u8>) -> Result<(), Fail> {
    let values = [Value::Int(-7), Value::Bad(Fault::Overflow)];
    if book.len() != values.len() {
        return Err("there are not two services".into());
    }
    Ok(settled_text(12, book, &values, out)?)
}

fn append_block_of(alloc: Global, services: &str, out: &mut Vec<u8>) -> Result<(), Fail> {
    let book = book_of(alloc, services)?;
    append_block(&book, out)
}

#[test]
fn a_block_has_a_line_for_each_service(rt: HostRuntime) -> Result<(), Fail> {
    let mut out = Vec::from_slice(rt.alloc(), b"before\n")?;
    append_block_of(rt.alloc(), "price total", &mut out)?;
    let text = "before\nsettle 12\nprice -7\ntotal !overflow\n";
    assert!(rt; out.as_slice() == text.as_bytes());
    Ok(())
}
