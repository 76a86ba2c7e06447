//! Plans: what an accepted document says, leg by leg, and what each leg makes of a book.
#![tactic(auto)]

mod extending;
mod plan;

pub use extending::extend;
pub use plan::{
    Leg, Mode, Plan, PlanChange, PlanChanges, PlanLegs, ServiceLine, ServiceLines, StepEvent,
    StepLine, StepLines,
};
