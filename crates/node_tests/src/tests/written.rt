// Changes that are well written.
ghost use Rattle.std.specs.Prelude.{◌≡◌, true, IfOk};
ghost use Rattle.propagation.specs.Lists.{AreDistinct};
ghost use Rattle.svc_graph.specs.Accepting.{IsWritten};
ghost use Rattle.node_tests.specs.Written.{IsWell};

use std::alloc::Global;
use std::marker::Model;
use std::test::Fail;
use svc_expr::{names_of, read_expr};
use svc_graph::{Change, Definition, Formula};
use svc_value::{Ids, OutOfMemory, ServiceId, Value, ValueText};

/// A change whose value is no fault, or whose formula is within its limits.
#[derive(Drop)]
pub(crate) struct Written {
    change: Change,
}

impl Model for Written {
    ghost use Rattle.svc_graph.specs.declared.definition.Change.{Change as TheChange};

    ghost Value = { TheChange };

    ghost use Rattle.svc_expr.specs.contracts.expr.Expr as e;
    ghost use Rattle.std.specs.Coded.{codes};

    ghost coded = { Prim.hlevel (codes, e.the_row.coded) };

    ghost use Rattle.node_tests.specs.Written.{IsWell};

    ghost view = { λ written. written.change };

    ghost invariant = { λ written. IsWell written.change };
}

impl Written {
    /// The change.
    pub(crate) fn change(&self) -> Result<Change, OutOfMemory>
        ensures { IfOk result IsWell }
    {
        self.change.copy()
    }
}

// Whether these are at most two services, which differ.
fn differ(ids: &[ServiceId]) -> bool
    ensures { result ≡ true → AreDistinct ids.now }
{
    match ids {
        [] => true,
        [_] => true,
        [one, other] => *one != *other,
        _ => false,
    }
}

// The formula of this text, with a service for each of its names.
fn formula(
    alloc: Global,
    text: &str,
    fixed: &[ServiceId],
    members: &[ServiceId],
) -> Result<Formula, Fail>
    ensures { IfOk result IsWritten }
{
    let reading = read_expr(alloc, text)?;
    if usize::from(names_of(&reading.expr)) != fixed.len() || !differ(fixed) {
        return Err("the names have other services".into());
    }
    Ok(Formula {
        expr: reading.expr,
        fixed: Ids::from_slice(alloc, fixed)?,
        members: Ids::from_slice(alloc, members)?,
    })
}

/// The birth of an input.
pub(crate) fn input(number: i64) -> Written {
    Written {
        change: Change::Birth(Definition::Input(Value::Int(number))),
    }
}

/// The birth of an input of a text.
pub(crate) fn text_input(alloc: Global, text: &str) -> Result<Written, Fail> {
    let text = ValueText::new(alloc, text)?;
    Ok(Written {
        change: Change::Birth(Definition::Input(Value::Words(text))),
    })
}

/// The birth of a derived service.
pub(crate) fn derived(
    alloc: Global,
    text: &str,
    fixed: &[ServiceId],
    members: &[ServiceId],
) -> Result<Written, Fail> {
    let formula = formula(alloc, text, fixed, members)?;
    Ok(Written {
        change: Change::Birth(Definition::Derived(formula)),
    })
}

/// Another formula.
pub(crate) fn define(
    alloc: Global,
    text: &str,
    fixed: &[ServiceId],
    members: &[ServiceId],
) -> Result<Written, Fail> {
    let formula = formula(alloc, text, fixed, members)?;
    Ok(Written {
        change: Change::Define(formula),
    })
}

/// Another value.
pub(crate) fn set(number: i64) -> Written {
    Written {
        change: Change::Set(Value::Int(number)),
    }
}

/// One member more.
pub(crate) fn add(id: ServiceId) -> Written {
    Written {
        change: Change::Add(id),
    }
}

/// One member less.
pub(crate) fn take_out(id: ServiceId) -> Written {
    Written {
        change: Change::Drop(id),
    }
}
