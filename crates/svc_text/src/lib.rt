//! Documents: their plans, how they are read, printed and generated. Each part is a crate of its own, named here for all.
#![tactic(auto)]

pub use document_generator::{made_is_accepted, make_document};
pub use document_printing::{print_document, printed_is_read_again};
pub use document_reading::{
    Body, Code, DocError, LineError, MAX_CHANGES, MAX_DOCUMENT_LEN, MAX_LEGS, MAX_LINE_LEN,
    NameRefs, NamedFormula, Refusal, Statement, first_line, one_plan, one_refusal, read_document,
    read_document_after, read_line,
};
pub use svc_plan::{
    Leg, Mode, Plan, PlanChange, PlanChanges, PlanLegs, ServiceLine, ServiceLines, StepEvent,
    StepLine, StepLines, extend,
};
