// The statements of lines.
ghost use Rattle.document_reading.specs.Grammar.{Means};
ghost use Rattle.document_reading.specs.Reading.{Fills, ParsesAs};

use crate::body::body;
use crate::head::{Head, line_head};
use crate::line_error::LineError;
use crate::literal::literal;
use crate::refusal::Code;
use crate::statement::Statement;
use std::alloc::Global;
use svc_token::Token;

// What a head says with the tokens that follow it.
fn statement_of<'a>(
    alloc: Global,
    head: Head<'a>,
    rest: &[Token<'a>],
) -> Result<Statement<'a>, LineError>
    ensures { ParsesAs (Fills head.entry rest.now) result }
{
    match head {
        Head::Whole(statement) => {
            if rest.is_empty() {
                Ok(statement)
            } else {
                Err(LineError::Refused(Code::E04))
            }
        }
        Head::Input(name, ty) => Ok(Statement::Input(name, ty, literal(alloc, rest)?)),
        Head::Derived(name, ty, rank) => Ok(Statement::Derived(name, ty, rank, body(alloc, rest)?)),
        Head::Set(name) => Ok(Statement::Set(name, literal(alloc, rest)?)),
        Head::Define(name) => Ok(Statement::Define(name, body(alloc, rest)?)),
    }
}

/// What the line of these tokens says; `E04` exactly where it is not in the grammar.
pub(crate) fn statement<'a>(alloc: Global, tokens: &[Token<'a>]) -> Result<Statement<'a>, LineError>
    ensures { ParsesAs (Means tokens.now) result }
{
    match line_head(tokens) {
        Some(found) => {
            let (head, rest) = found;
            statement_of(alloc, head, rest)
        }
        None => Err(LineError::Refused(Code::E04)),
    }
}
