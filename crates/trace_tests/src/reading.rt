// Texts of blocks, read as logs and printed again.
ghost use Rattle.std.specs.Prelude.{◌≡◌, ◌≤◌, length, IfOk, All};
ghost use Rattle.trace_text.specs.Named.{NamesBelow};
ghost use Rattle.trace_text.specs.Naming.{AreNames, naming_of};

use crate::texts::{DIAMOND_LOGS_1, DIAMOND_LOGS_2, SUM_LOGS_1, SUM_LOGS_2};
use std::alloc::Global;
use std::test::Fail;
use svc_graph::Book;
use svc_token::is_name;
use svc_value::{Name, Names, Rank, ServiceId, ValueType};
use trace_text::{Log, TraceError, books_are_named, read_trace, trace_text};

// A book of services with these names.
pub(crate) fn book_of(alloc: Global, services: &str) -> Result<Book, Fail> {
    let mut book = Book::new(alloc);
    for name in services.split_whitespace() {
        if book.declare(name, Rank(0), ValueType::Int).is_err() {
            return Err("a service is not declared".into());
        }
    }
    Ok(book)
}

// The names of the services of a book.
fn names_of(alloc: Global, book: &Book) -> Result<Names, Fail>
    ensures few { IfOk result (λ names. length names ≤ 64) }
    ensures long { IfOk result (λ names. length names ≡ length book.now) }
    ensures names { IfOk result (λ names. AreNames (naming_of names) (length names)) }
{
    books_are_named();
    let mut names = Names::new(alloc);
    for number in 0..book.len() {
        let name = book.name(ServiceId(number as u16)).as_bytes();
        if !is_name(name) {
            return Err("a service has no name".into());
        }
        names.push(Name::from_slice(alloc, name)?)?;
    }
    Ok(names)
}

// Appends the lines of these logs of the services of a book.
fn append_logs(book: &Book, logs: &[Log], out: &mut Vec<u8>) -> Result<(), Fail>
    requires { All (λ log. All (NamesBelow (length book.now)) log) logs.now }
{
    for number in 0..book.len() {
        match logs.get(number) {
            Some(log) => trace_text(book, ServiceId(number as u16), log.as_slice(), out)?,
            None => return Err("a log is missing".into()),
        }
    }
    Ok(())
}

// Reads a text as the logs of these services, and appends their lines. The number of the first wrong line; 0 where there is none.
fn read_and_print(
    alloc: Global,
    book: &Book,
    names: &Names,
    text: &str,
    out: &mut Vec<u8>,
) -> Result<u32, Fail>
    requires few { length names.now ≤ 64 }
    requires long { length names.now ≡ length book.now }
    requires names { AreNames (naming_of names.now) (length names.now) }
{
    if text.len() > 65536 {
        return Err("the text is too long".into());
    }
    match read_trace(alloc, text.as_bytes(), names) {
        Ok(family) => {
            append_logs(book, family.as_slice(), out)?;
            Ok(0)
        }
        Err(TraceError::Bad { line }) => Ok(line),
        Err(TraceError::OutOfMemory) => Err("want of memory".into()),
    }
}

fn printed_with(alloc: Global, book: &Book, text: &str, out: &mut Vec<u8>) -> Result<u32, Fail> {
    let names = names_of(alloc, book)?;
    read_and_print(alloc, book, &names, text, out)
}

fn printed(alloc: Global, services: &str, text: &str, out: &mut Vec<u8>) -> Result<u32, Fail> {
    let book = book_of(alloc, services)?;
    printed_with(alloc, &book, text, out)
}

// Whether the first wrong line of a text has this number, and nothing is printed; or, where it is 0, whether the text is read and
// printed again as these lines.
fn reads_as(
    alloc: Global,
    services: &str,
    text: &str,
    wrong: u32,
    lines: &str,
) -> Result<bool, Fail> {
    let mut out = Vec::new(alloc);
    let found = printed(alloc, services, text, &mut out)?;
    Ok(found == wrong && out.as_slice() == lines.as_bytes())
}

const SUM: &str = "a b total";

const DIAMOND: &str = "x left right both";

#[test]
fn blocks_are_read_and_printed_again(rt: HostRuntime) -> Result<(), Fail> {
    let rows = [
        (SUM, SUM_LOGS_1),
        (SUM, SUM_LOGS_2),
        (DIAMOND, DIAMOND_LOGS_1),
        (DIAMOND, DIAMOND_LOGS_2),
        (SUM, ""),
        ("", ""),
    ];
    for (services, text) in rows {
        assert!(rt; reads_as(rt.alloc(), services, text, 0, text)?, "{text}");
    }
    Ok(())
}

// Appends the text, with LF for each `~`.
fn append_with_ends(text: &str, out: &mut String) -> Result<(), Fail> {
    let mut is_first = true;
    for part in text.split('~') {
        if !is_first {
            out.push_str("\n")?;
        }
        is_first = false;
        out.push_str(part)?;
    }
    Ok(())
}

fn with_ends(alloc: Global, text: &str) -> Result<String, Fail> {
    let mut out = String::new(alloc);
    append_with_ends(text, &mut out)?;
    Ok(out)
}

// The text with the first `old` replaced.
fn edited(alloc: Global, text: &str, old: &str, new: &str) -> Result<String, Fail> {
    match text.split_once(old) {
        Some((before, behind)) => Ok(format!(in alloc; "{before}{new}{behind}")?),
        None => Err("there is nothing to replace".into()),
    }
}

fn edited_with(alloc: Global, text: &str, old: &str, new: &str) -> Result<String, Fail> {
    let old = with_ends(alloc, old)?;
    edited_by(alloc, text, old.as_str(), new)
}

fn edited_by(alloc: Global, text: &str, old: &str, new: &str) -> Result<String, Fail> {
    let new = with_ends(alloc, new)?;
    edited(alloc, text, old, new.as_str())
}

// Whether the text with the first `old` replaced is read and printed again, or has this first wrong line.
fn edited_reads_as(
    alloc: Global,
    services: &str,
    text: &str,
    old: &str,
    new: &str,
    wrong: u32,
) -> Result<bool, Fail> {
    let text = edited_with(alloc, text, old, new)?;
    let lines = if wrong == 0 { text.as_str() } else { "" };
    reads_as(alloc, services, text.as_str(), wrong, lines)
}

// The parts of a line of a table.
fn parts_of(line: &str) -> Option<(&str, &str, u32)> {
    let (old, others) = line.split_once('|')?;
    let (new, wrong) = others.split_once('|')?;
    Some((old, new, wrong.parse::<u32>().ok()?))
}

fn is_right(alloc: Global, services: &str, text: &str, line: &str) -> Result<bool, Fail> {
    match parts_of(line) {
        Some((old, new, wrong)) => edited_reads_as(alloc, services, text, old, new, wrong),
        None => Err("a line of the table has not three parts".into()),
    }
}

// On each line a text of the block, another in its place, and the number of the first wrong line then; 0 for none. LF is `~`. The
// edits are of one byte, of one line that is removed, of two that are exchanged, and of one more.
const SUM_EDITS: &str = "\
# log a did 1|# lag a did 1|1
# log a did 1|  log a did 1|1
# log a did 1|# log c did 1|1
# log a did 1|# log A did 1|1
# log a did 1|# log a dud 1|1
# log a did 1|# log a did x|1
# log a did 1|# log a did  |1
# log a did 1|# log a did 2|0
computed 3 |computed + |2
computed 3 |computed 8 |0
with a@1 picks -|with a@0 picks -|2
with a@1 picks -|with b@1 picks -|0
with a@1 picks -|with c@1 picks -|2
with a@1 picks -|with a@1 picks 0|0
with a@1 picks -|with a@1 picks +|2
took total 01|took_total 01|3
took total 01|took totam 01|3
took total 01|took total 0g|3
took total 01|took total 0F|3
took total 01|took total 02|0
sent total 0300000001010000~|sent total 030000000101000~|4
sent total 0300000001010000~|sent total 0300000001010001~|0
sent total 0300000001010000~|sent total 0300000001010000 |4
a@1,b@1,total@1|a@1,b@1;total@1|18
a@1,b@1,total@1|a@1,a@1,total@1|18
a@1,b@1,total@1|b@1,a@1,total@1|18
picks 1,1|picks 1,,|18
picks 1,1|picks 1.1|18
picks 1,1~|picks 1,1 |18
picks 1,1~|picks 1,1|18
# log a did 1~||0
# log b computed 4 with b@1 picks -~||0
# log total computed 7 with a@1,b@1,total@1 picks 1,1~||0
# log total sent a 0100000001~# log total sent b 0100000001~|# log total sent b 0100000001~# log total sent a 0100000001~|0
# log a sent total 0500000001010000000000000003010000000001~# log b did 1~|# log b did 1~# log a sent total 0500000001010000000000000003010000000001~|6
# log b did 1~|~# log b did 1~|6
# log b did 1~|# log~# log b did 1~|6
# log b did 1~|# note~# log b did 1~|6
# log b did 1~|settle 1~# log b did 1~|6
# log b did 1~|# log total did 1~# log b did 1~|7
";

const DIAMOND_EDITS: &str = "\
# log x did 2|# log y did 2|1
# log x did 2~|# log x did 2\r~|1
sent both 05|sent both 0 |7
computed 23 with|computed 13 with|0
computed 23 with|computed 2! with|13
right@1,both@1|right@1,both@0|13
# log left computed 3 with x@2,left@1 picks 1~||0
# log x did 2~# log x computed 2 with x@2 picks -~|# log x computed 2 with x@2 picks -~# log x did 2~|0
# log left sent both 0500000001010000000000000003010000000002~# log right took x 0500000001010000000000000002010000000002~|# log right took x 0500000001010000000000000002010000000002~# log left sent both 0500000001010000000000000003010000000002~|8
# log both computed|# log left computed|13
";

#[test]
fn edits_of_sum_have_a_first_wrong_line(rt: HostRuntime) -> Result<(), Fail> {
    for line in SUM_EDITS.lines() {
        assert!(rt; is_right(rt.alloc(), SUM, SUM_LOGS_1, line)?, "{line}");
    }
    Ok(())
}

#[test]
fn edits_of_diamond_have_a_first_wrong_line(rt: HostRuntime) -> Result<(), Fail> {
    for line in DIAMOND_EDITS.lines() {
        assert!(rt;
            is_right(rt.alloc(), DIAMOND, DIAMOND_LOGS_2, line)?,
            "{line}"
        );
    }
    Ok(())
}

const DID: &str = "# log a did 1\n";

#[test]
fn other_trace_lines_are_passed_over(rt: HostRuntime) -> Result<(), Fail> {
    let rows = [
        ("# step 3 idle\n# log a did 1\n# sources a a\n", 0, DID),
        ("# log a did 1\n# step 23 lags b a\n", 0, DID),
        ("# sources a a\n# log a did 1\n", 0, DID),
        ("# log a did 1\n# step 3 idle", 2, ""),
    ];
    for (text, wrong, lines) in rows {
        assert!(rt; reads_as(rt.alloc(), SUM, text, wrong, lines)?, "{text}");
    }
    Ok(())
}
