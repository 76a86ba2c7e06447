// Documents and what is read of them.
use std::alloc::{AllocError, Global};
use svc_text::{DocError, Mode, Plan, read_document};

mod changes;
mod codes;
mod continuation;
mod declarations;
mod limits;
mod plans;

// How many services, changes and step lines each leg has, or the refusal.
fn answer(alloc: Global, text: &[u8], mode: Mode) -> Result<String, AllocError> {
    match read_document(alloc, text, mode) {
        Ok(plan) => legs(alloc, &plan),
        Err(DocError::Refused(refusal)) => {
            let line = refusal.line;
            let code = refusal.code;
            format!(in alloc; "{line} {code:?}")
        }
        Err(DocError::OutOfMemory) => format!(in alloc; "out of memory"),
    }
}

// How many services, changes and step lines each leg has.
fn legs(alloc: Global, plan: &Plan) -> Result<String, AllocError> {
    let mut text = String::new(alloc);
    for leg in plan.legs.as_slice() {
        let services = leg.services.len();
        let changes = leg.changes.len();
        let steps = leg.steps.len();
        let part = format!(in alloc; "{services},{changes},{steps};")?;
        text.push_str(part.as_str())?;
    }
    Ok(text)
}

// Documents that begin alike: of the rows whose answer is another than expected, what is behind the beginning and the answer.
fn others(
    alloc: Global,
    front: &str,
    rows: &[(&str, &str)],
    mode: Mode,
) -> Result<String, AllocError> {
    let mut wrong = String::new(alloc);
    for (behind, expected) in rows {
        let text = format!(in alloc; "{front}{behind}\n")?;
        let answer = answer(alloc, text.as_bytes(), mode)?;
        if answer.as_str() != *expected {
            let row = format!(in alloc; "{behind}: {answer}\n")?;
            wrong.push_str(row.as_str())?;
        }
    }
    Ok(wrong)
}
