// The definitions that changes bring.
ghost use Rattle.std.specs.Prelude.{◌≡◌, ◌++◌, ◌==◌, not, filter, IfOk};
ghost use Rattle.propagation.specs.Lists.{is_among};
ghost use Rattle.svc_graph.specs.History.{dependencies};
ghost use Rattle.node_core.specs.Coming.{next};

use std::alloc::Global;
use svc_graph::{Change, Definition, Formula};
use svc_value::{Fault, Ids, OutOfMemory, ServiceId, Value};

// The definition after a change.
pub(crate) fn next_definition(
    alloc: Global,
    current: &Option<Definition>,
    change: &Change,
) -> Result<Definition, OutOfMemory>
    ensures { IfOk result (λ definition. definition ≡ next current.now change.now) }
{
    match change {
        Change::Birth(first) => first.copy(),
        Change::Set(value) => Ok(Definition::Input(value.copy()?)),
        Change::Define(formula) => Ok(Definition::Derived(formula.copy()?)),
        Change::Add(member) => match current {
            None => Ok(Definition::Input(Value::Bad(Fault::Empty))),
            Some(Definition::Input(value)) => Ok(Definition::Input(value.copy()?)),
            Some(Definition::Derived(formula)) => {
                let Formula {
                    expr,
                    fixed,
                    mut members,
                } = formula.copy()?;
                members.push(*member)?;
                Ok(Definition::Derived(Formula {
                    expr,
                    fixed,
                    members,
                }))
            }
        },
        Change::Drop(member) => match current {
            None => Ok(Definition::Input(Value::Bad(Fault::Empty))),
            Some(Definition::Input(value)) => Ok(Definition::Input(value.copy()?)),
            Some(Definition::Derived(formula)) => Ok(Definition::Derived(Formula {
                expr: formula.expr.copy()?,
                fixed: Ids::from_slice(alloc, formula.fixed.as_slice())?,
                members: others(alloc, formula.members.as_slice(), *member)?,
            })),
        },
    }
}

// The members but that one.
fn others(alloc: Global, members: &[ServiceId], member: ServiceId) -> Result<Ids, OutOfMemory>
    ensures { IfOk result (λ kept. kept ≡ filter (λ p. not (p == member)) members.now) }
{
    let kept: Vec<ServiceId> = members
        .iter()
        .copied()
        .filter(|p| *p != member)
        .collect(alloc)?;
    Ok(Ids::from_vec(kept))
}

// The services that a definition rests on.
pub(crate) fn dependencies_of(alloc: Global, definition: &Definition) -> Result<Ids, OutOfMemory>
    ensures { IfOk result (λ ids. ids ≡ dependencies definition.now) }
{
    match definition {
        Definition::Input(_) => Ok(Ids::new(alloc)),
        Definition::Derived(formula) => {
            let mut ids = Vec::from_slice(alloc, formula.fixed.as_slice())?;
            ids.extend_from_slice(formula.members.as_slice())?;
            Ok(Ids::from_vec(ids))
        }
    }
}

// Whether the service is in the list.
pub(crate) fn has(ids: &[ServiceId], id: ServiceId) -> bool
    ensures { result ≡ is_among ids.now id }
{
    for one in ids {
        if *one == id {
            return true;
        }
    }
    false
}
