// The lines of a document.
ghost use Rattle.std.specs.Prelude.{◌≡◌, ◌<◌, ◌∷◌, ◌↔◌, ◌==◌, not, false, length, IsTrue, IfOk, IfErr};
ghost use Rattle.std.specs.List.{take_while};
ghost use Rattle.std.specs.Str.{IsUtf8};
ghost use Rattle.document_reading.specs.declared.refusal.Code.{Code};
ghost use Rattle.document_reading.specs.Document.{lines_of, IsLine, IsUnread};
ghost use Rattle.document_reading.specs.Grammar.{is_silent, Says};
ghost use Rattle.document_reading.specs.Reading.{ParsesAs};

use crate::grammar::statement;
use crate::line_error::LineError;
use crate::refusal::Code;
use crate::statement::Statement;
use std::alloc::Global;
use std::str;
use svc_token::{CutError, Token, cut, is_blank};
pub use svc_value::limits::MAX_LINE_LEN;

// How many bytes stand before the first LF.
fn line_len(bytes: &[u8]) -> usize
    ensures { result ≡ length (take_while (λ b. not (b == 10)) bytes.now) }
{
    bytes.iter().take_while(|b| **b != b'\n').count()
}

/// The first line, without its LF, and what follows it.
pub fn first_line(bytes: &[u8]) -> (&[u8], &[u8])
    requires { 0 < length bytes.now }
    ensures lines { lines_of bytes.now ≡ result.0.now ∷ lines_of result.1.now }
    ensures shorter { length result.1.now < length bytes.now }
{
    let (line, rest) = bytes.split_at(line_len(bytes));
    match rest {
        [] => (line, rest),
        [_, after @ ..] => (line, after),
    }
}

// Whether a line says nothing.
fn is_silent(line: &[u8]) -> bool
    ensures { result ≡ is_silent line.now }
{
    for b in line {
        if !is_blank(*b) {
            return *b == b'#';
        }
    }
    true
}

// Whether a line is UTF-8.
fn is_text(line: &[u8]) -> bool
    ensures { IsTrue result ↔ IsUtf8 line.now }
{
    str::from_utf8(line).is_ok()
}

// What a line says that is not silent; `E04` exactly where it is not in the grammar.
fn read_spoken<'a>(
    alloc: Global,
    line: &'a [u8],
    tokens: &mut Vec<Token<'a>>,
) -> Result<Statement<'a>, LineError>
    requires { is_silent line.now ≡ false }
    ensures { ParsesAs (Says line.now) result }
{
    match cut(line, tokens) {
        Ok(()) => statement(alloc, tokens.as_slice()),
        Err(CutError::Bad) => Err(LineError::Refused(Code::E04)),
        Err(CutError::OutOfMemory) => Err(LineError::OutOfMemory),
    }
}

/// What a line says; `Refused` exactly where it is too long, not UTF-8 or not in the grammar, with the first of `E02`, `E03`
/// and `E04` that holds, and `OutOfMemory` only when memory runs out. `tokens` is room for its tokens.
pub fn read_line<'a>(
    alloc: Global,
    line: &'a [u8],
    tokens: &mut Vec<Token<'a>>,
) -> Result<Statement<'a>, LineError>
    ensures said { IfOk result (λ statement. IsLine line.now statement) }
    ensures refused { IfErr result (λ stop. (code : Code) → stop ≡ LineError.Refused code → IsUnread line.now code) }
{
    if line.len() > MAX_LINE_LEN {
        return Err(LineError::Refused(Code::E02));
    }
    if !is_text(line) {
        return Err(LineError::Refused(Code::E03));
    }
    if is_silent(line) {
        return Ok(Statement::Silence);
    }
    read_spoken(alloc, line, tokens)
}
