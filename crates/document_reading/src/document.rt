// Documents are read.
ghost use Rattle.std.specs.Prelude.{◌≡◌, ◌≤◌, ◌+◌, [], ℕ, List, length, IfOk, IfErr};
ghost use Rattle.svc_graph.specs.Central.{AreBorn};
ghost use Rattle.svc_graph.specs.History.{Row};
ghost use Rattle.svc_plan.specs.declared.plan.Leg.{Leg};
ghost use Rattle.svc_plan.specs.declared.plan.Mode.{Mode};
ghost use Rattle.svc_plan.specs.Rows.{AreLegsAfter, present_rows};
ghost use Rattle.document_reading.specs.declared.refusal.Refusal.{Refusal};
ghost use Rattle.document_reading.specs.Document.{lines_of, Reads, HasLegs, HasLegsAfter, IsAccepted, IsAcceptedAfter, IsRefusal, IsRefusalAfter};
ghost use Rattle.document_reading.specs.Parser.{state};
ghost use Rattle.document_reading.specs.Sound.{IsStart};
ghost use Rattle.document_reading.specs.State.{start};

use crate::line::first_line;
use crate::line_error::LineError;
use crate::parser::Parser;
use crate::present::present_book;
use crate::refusal::{Code, DocError, Refusal};
use std::alloc::Global;
use svc_graph::Book;
use svc_plan::{Mode, Plan};
use svc_token::Token;
use svc_value::OutOfMemory;
pub use svc_value::limits::MAX_DOCUMENT_LEN;
use svc_value::limits::MAX_LEGS;

// The answer to a document whose line with this number ends the reading.
fn error_at(stop: LineError, line: u32) -> DocError
    ensures { (refusal : Refusal) → result ≡ DocError.Refused refusal → (stop ≡ LineError.Refused refusal.code) × (refusal.line ≡ line) }
{
    match stop {
        LineError::Refused(code) => DocError::Refused(Refusal { line, code }),
        LineError::OutOfMemory => DocError::OutOfMemory,
    }
}

// Reads all lines.
fn read_lines(alloc: Global, mut parser: Parser, bytes: &[u8]) -> Result<Parser, DocError>
    requires short { length bytes.now ≤ MAX_DOCUMENT_LEN }
    requires start { IsStart (state parser) }
    ensures read { IfOk result (λ end. Reads parser.mode (state parser) (lines_of bytes.now) (state end)) }
    ensures refused { IfErr result (λ e. (refusal : Refusal) → e ≡ DocError.Refused refusal → IsRefusalAfter parser.book parser.before parser.mode bytes.now refusal) }
{
    let mut tokens: Vec<Token<'_>> = Vec::new(alloc);
    let mut rest = bytes;
    let mut count = 0u32;
    while !rest.is_empty() {
        let (line, after) = first_line(rest);
        count += 1;
        match parser.take_line(line, &mut tokens) {
            Ok(()) => rest = after,
            Err(stop) => return Err(error_at(stop, count)),
        }
    }
    Ok(parser)
}

// Reads a document with this book, where every service has one definition, and after so many legs.
fn read_from(
    alloc: Global,
    bytes: &[u8],
    mode: Mode,
    book: Book,
    ended: u32,
) -> Result<Plan, DocError>
    requires { IsStart (start book ended) }
    ensures plan { IfOk result (λ plan. HasLegsAfter book ended mode bytes.now plan.legs) }
    ensures legs { IfOk result (λ plan. AreLegsAfter book plan.legs) }
    ensures few { IfOk result (λ plan. ended + length plan.legs ≤ MAX_LEGS) }
    ensures refused { IfErr result (λ e. (refusal : Refusal) → e ≡ DocError.Refused refusal → IsRefusalAfter book ended mode bytes.now refusal) }
    ensures not_accepted { IfErr result (λ e. (refusal : Refusal) → e ≡ DocError.Refused refusal → IsAcceptedAfter book ended mode bytes.now → ⊥) }
{
    if bytes.len() > MAX_DOCUMENT_LEN {
        return Err(DocError::Refused(Refusal {
            line: 0,
            code: Code::E01,
        }));
    }
    match read_lines(alloc, Parser::new(alloc, mode, book, ended), bytes) {
        Ok(parser) => Ok(Plan {
            legs: parser.into_legs()?,
        }),
        Err(error) => Err(error),
    }
}

/// Reads a document. `Refused` exactly where it is not accepted in this mode, with its first refused line and the lowest-numbered code
/// whose condition holds: line 0 and `E01` past 1,048,576 bytes. `OutOfMemory` when memory runs out.
pub fn read_document(alloc: Global, bytes: &[u8], mode: Mode) -> Result<Plan, DocError>
    ensures plan { IfOk result (λ plan. HasLegs mode bytes.now plan.legs) }
    ensures legs { IfOk result (λ plan. AreLegsAfter [] plan.legs) }
    ensures few { IfOk result (λ plan. length plan.legs ≤ MAX_LEGS) }

    // It comes exactly for what is not accepted.
    ensures refused { IfErr result (λ e. (refusal : Refusal) → e ≡ DocError.Refused refusal → IsRefusal mode bytes.now refusal) }
    ensures not_accepted { IfErr result (λ e. (refusal : Refusal) → e ≡ DocError.Refused refusal → IsAccepted mode bytes.now → ⊥) }
{
    read_from(alloc, bytes, mode, Book::new(alloc), 0)
}

/// Reads a document as `read_document`, where the services of this book are declared before line 1, each with its last
/// definition, and so many legs have ended.
pub fn read_document_after(
    alloc: Global,
    bytes: &[u8],
    mode: Mode,
    book: &Book,
    ended: u32,
) -> Result<Plan, DocError>
    requires ended { ended ≤ MAX_LEGS }
    requires born { AreBorn book.now }
    ensures plan { IfOk result (λ plan. HasLegsAfter (present_rows book.now) ended mode bytes.now plan.legs) }
    ensures legs { IfOk result (λ plan. AreLegsAfter (present_rows book.now) plan.legs) }
    ensures few { IfOk result (λ plan. ended + length plan.legs ≤ MAX_LEGS) }

    // It comes exactly for what is not accepted.
    ensures refused { IfErr result (λ e. (refusal : Refusal) → e ≡ DocError.Refused refusal → IsRefusalAfter (present_rows book.now) ended mode bytes.now refusal) }
    ensures not_accepted { IfErr result (λ e. (refusal : Refusal) → e ≡ DocError.Refused refusal → IsAcceptedAfter (present_rows book.now) ended mode bytes.now → ⊥) }
{
    match present_book(alloc, book) {
        Ok(copy) => read_from(alloc, bytes, mode, copy, ended),
        Err(OutOfMemory) => Err(DocError::OutOfMemory),
    }
}

/// An accepted document says one list of legs.
pub fn one_plan()
    ensures { (rows : List Row) (before : ℕ) (mode : Mode) (bytes : List ℕ) (a b : List Leg) → HasLegsAfter rows before mode bytes a → HasLegsAfter rows before mode bytes b → a ≡ b }
{}

/// A document has one refusal, and an accepted one has none.
pub fn one_refusal()
    ensures one { (rows : List Row) (before : ℕ) (mode : Mode) (bytes : List ℕ) (a b : Refusal) → IsRefusalAfter rows before mode bytes a → IsRefusalAfter rows before mode bytes b → a ≡ b }
    ensures none { (rows : List Row) (before : ℕ) (mode : Mode) (bytes : List ℕ) (a : Refusal) → IsRefusalAfter rows before mode bytes a → IsAcceptedAfter rows before mode bytes → ⊥ }
{}
