// What a line says, as a text.
use std::alloc::{AllocError, Global};
use std::str;
use svc_expr::{names_of, print_expr};
use svc_text::{Body, LineError, NamedFormula, Statement, read_line};
use svc_value::{Value, print_value};

// The text of these bytes.
fn text(alloc: Global, bytes: &[u8]) -> Result<String, AllocError> {
    match str::from_utf8(bytes) {
        Ok(text) => String::from_str(alloc, text),
        Err(_) => String::from_str(alloc, "no text"),
    }
}

// A value as it prints.
fn value_text(alloc: Global, value: &Value) -> Result<String, AllocError> {
    let mut out = Vec::new(alloc);
    match print_value(value, &mut out) {
        Ok(()) => text(alloc, &out),
        Err(_) => String::from_str(alloc, "memory"),
    }
}

// An expression as it prints.
fn expression_text(alloc: Global, formula: &NamedFormula<'_>) -> Result<String, AllocError> {
    if usize::from(names_of(&formula.expr)) > formula.names.len() {
        return String::from_str(alloc, "a name is missing");
    }
    let mut out = Vec::new(alloc);
    match print_expr(&formula.expr, &formula.names, &mut out) {
        Ok(()) => text(alloc, &out),
        Err(_) => String::from_str(alloc, "memory"),
    }
}

// The expression and the members behind it.
fn body_text(alloc: Global, body: &Body<'_>) -> Result<String, AllocError> {
    match body {
        Body::Formula(formula) => {
            let mut out = expression_text(alloc, formula)?;
            for member in formula.members.as_slice() {
                out.push_str(" | ")?;
                out.push_str(member.as_str())?;
            }
            Ok(out)
        }
        Body::TooLarge => String::from_str(alloc, "too large"),
    }
}

// What a statement says of one service with a value or an expression.
fn statement_text(alloc: Global, statement: &Statement<'_>) -> Result<String, AllocError> {
    match statement {
        Statement::Input(name, ty, value) => {
            let value = value_text(alloc, value)?;
            format!(in alloc; "input {} {ty:?} {value}", name.as_str())
        }
        Statement::Derived(name, ty, rank, body) => {
            let body = body_text(alloc, body)?;
            format!(in alloc; "derived {} {ty:?} {rank} {body}", name.as_str())
        }
        Statement::Set(name, value) => {
            let value = value_text(alloc, value)?;
            format!(in alloc; "set {} {value}", name.as_str())
        }
        Statement::Define(name, body) => {
            let body = body_text(alloc, body)?;
            format!(in alloc; "define {} {body}", name.as_str())
        }
        other => words_text(alloc, other),
    }
}

// What a statement of words and names alone says.
fn words_text(alloc: Global, statement: &Statement<'_>) -> Result<String, AllocError> {
    match statement {
        Statement::Add(reader, member) => {
            format!(in alloc; "add {} {}", reader.as_str(), member.as_str())
        }
        Statement::Drop(reader, member) => {
            format!(in alloc; "drop {} {}", reader.as_str(), member.as_str())
        }
        Statement::Take(reader, sender) => {
            format!(in alloc; "take {} {}", reader.as_str(), sender.as_str())
        }
        Statement::Do(name) => format!(in alloc; "do {}", name.as_str()),
        Statement::Turn(name) => format!(in alloc; "turn {}", name.as_str()),
        Statement::Settle => String::from_str(alloc, "settle"),
        _ => String::from_str(alloc, "silence"),
    }
}

/// What a line says, or the code of its refusal.
pub(crate) fn shown(alloc: Global, line: &[u8]) -> Result<String, AllocError> {
    let mut tokens = Vec::new(alloc);
    match read_line(alloc, line, &mut tokens) {
        Ok(statement) => statement_text(alloc, &statement),
        Err(LineError::Refused(code)) => format!(in alloc; "{code:?}"),
        Err(LineError::OutOfMemory) => String::from_str(alloc, "memory"),
    }
}
