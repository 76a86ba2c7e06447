// Blocks of log lines, read as logs and printed again.
ghost use Rattle.std.specs.Prelude.{◌≡◌, ◌≤◌, length, IfOk, All};
ghost use Rattle.trace_text.specs.Named.{NamesBelow};
ghost use Rattle.trace_text.specs.Naming.{AreNames, naming_of};

use std::alloc::Global;
use std::test::Fail;
use svc_graph::Book;
use svc_token::is_name;
use svc_value::{Name, Names, ServiceId};
use trace_text::{Log, TraceError, books_are_named, read_trace, trace_text};

// The names of the services of a book.
fn names_of(alloc: Global, book: &Book) -> Result<Names, Fail>
    ensures few { IfOk result (λ names. length names ≤ 64) }
    ensures long { IfOk result (λ names. length names ≡ length book.now) }
    ensures names { IfOk result (λ names. AreNames (naming_of names) (length names)) }
{
    books_are_named();
    let mut names = Names::new(alloc);
    for number in 0..book.len() {
        let name = book.name(ServiceId(number as u16)).as_bytes();
        if !is_name(name) {
            return Err("a service has no name".into());
        }
        names.push(Name::from_slice(alloc, name)?)?;
    }
    Ok(names)
}

// Appends the lines of these logs of the services of a book.
fn append_logs(book: &Book, logs: &[Log], out: &mut Vec<u8>) -> Result<(), Fail>
    requires { All (λ log. All (NamesBelow (length book.now)) log) logs.now }
{
    for number in 0..book.len() {
        match logs.get(number) {
            Some(log) => trace_text(book, ServiceId(number as u16), log.as_slice(), out)?,
            None => return Err("a log is missing".into()),
        }
    }
    Ok(())
}

// Reads a text as the logs of these services, and appends their lines; false where it is no such text.
fn read_and_print(
    alloc: Global,
    book: &Book,
    names: &Names,
    text: &str,
    out: &mut Vec<u8>,
) -> Result<bool, Fail>
    requires few { length names.now ≤ 64 }
    requires long { length names.now ≡ length book.now }
    requires names { AreNames (naming_of names.now) (length names.now) }
{
    if text.len() > 65536 {
        return Err("the text is too long".into());
    }
    match read_trace(alloc, text.as_bytes(), names) {
        Ok(family) => {
            append_logs(book, family.as_slice(), out)?;
            Ok(true)
        }
        Err(TraceError::Bad { .. }) => Ok(false),
        Err(TraceError::OutOfMemory) => Err("want of memory".into()),
    }
}

// Whether a text is read and printed again as the same lines.
fn is_read_again(alloc: Global, book: &Book, names: &Names, text: &str) -> Result<bool, Fail>
    requires few { length names.now ≤ 64 }
    requires long { length names.now ≡ length book.now }
    requires names { AreNames (naming_of names.now) (length names.now) }
{
    let mut out = Vec::new(alloc);
    let is_read = read_and_print(alloc, book, names, text, &mut out)?;
    Ok(is_read && out.as_slice() == text.as_bytes())
}

// Appends the log lines of the block with this number, from 1.
fn append_block(text: &str, number: usize, out: &mut String) -> Result<(), Fail> {
    let mut block = 1usize;
    for line in text.lines() {
        if line.starts_with("settle ") {
            block = block.saturating_add(1);
        } else if block == number && line.starts_with("# log ") {
            out.push_str(line)?;
            out.push_str("\n")?;
        }
    }
    Ok(())
}

fn block_of(alloc: Global, text: &str, number: usize) -> Result<String, Fail> {
    let mut out = String::new(alloc);
    append_block(text, number, &mut out)?;
    Ok(out)
}

// Whether the first blocks of a text, so many, are read and printed again, each as the logs of the services of this book.
pub(crate) fn are_read_again(
    alloc: Global,
    book: &Book,
    text: &str,
    count: usize,
) -> Result<bool, Fail> {
    let names = names_of(alloc, book)?;
    for number in 1..=count {
        let block = block_of(alloc, text, number)?;
        if block.is_empty() || !is_read_again(alloc, book, &names, block.as_str())? {
            return Ok(false);
        }
    }
    Ok(true)
}
