//! Expressions over whole numbers and texts: their trees, how they are written, their types and their meaning.
//! A fault is a value like any other, so evaluation has no refusal but out of memory.
#![tactic(auto)]

mod boxed;
mod copy;
mod errors;
mod evaluation;
mod expr;
mod expression;
mod gathering;
mod leaves;
mod level;
mod members;
mod names;
mod numbers;
mod operand;
mod operators;
mod parts;
mod printing;
mod quoting;
mod reading;
mod refusing;
mod sized_expr;
mod texts;
mod types;
mod value_ref;

pub use boxed::Boxed;
pub use errors::{ExprError, TypeErrorAt};
pub use evaluation::eval;
pub use expr::{Expr, ExprKind, Op, Reading};
pub use expression::{one_expression, one_reading, one_tree, read_expr, read_tokens};
pub use names::{names_of, needs_int_members};
pub use printing::{print_expr, read_again};
pub use types::type_of;
