// The central evaluation of a book.
ghost use Rattle.std.specs.Prelude.{◌≡◌, ℕ, ◌<◌, ◌≤◌, ◌++◌, map, length, slice_set, All, IfOk, OnOk};
ghost use Rattle.svc_graph.specs.Central.{AreBorn, AreCentral};
ghost use Rattle.svc_graph.specs.History.{dependencies};
ghost use Rattle.svc_graph.specs.Lent.{definition_lent};
ghost use Rattle.central_eval.specs.Values.{value_at, value_by};

use std::alloc::{AllocError, Global};
use svc_expr::eval;
use svc_graph::{Book, DefinitionRef};
use svc_value::limits::MAX_DEPENDENCIES;
use svc_value::{Fault, OutOfMemory, ServiceId, Value};

// The place of a service among all.
pub(crate) fn place(id: ServiceId) -> usize
    ensures { result ≡ id }
{
    usize::from(id.0)
}

// Values that are not there.
pub(crate) fn no_values(alloc: Global, count: usize) -> Result<Vec<Value>, AllocError>
    ensures { IfOk result (λ values. length values.items ≡ count) }
{
    let mut values = Vec::with_capacity(alloc, count)?;
    for _ in 0..count {
        values.push_reserved(Value::Bad(Fault::Empty));
    }
    Ok(values)
}

// Appends copies of the values of these services.
fn gather(values: &[Value], ids: &[ServiceId], given: &mut Vec<Value>) -> Result<(), OutOfMemory>
    requires { All (λ p. p < length values.now) ids.now }
    ensures { OnOk result (given.new.items ≡ given.old.items ++ map (value_at values.now) ids.now) }
{
    given.reserve(ids.len())?;
    for id in ids {
        let value = values[place(*id)].copy()?;
        given.push_reserved(value);
    }
    Ok(())
}

// The meaning of a definition over the values of its dependencies, which take the place of those in `given`.
fn value_by(
    alloc: Global,
    definition: DefinitionRef<'_>,
    values: &[Value],
    given: &mut Vec<Value>,
) -> Result<Value, OutOfMemory>
    requires few { length (dependencies (definition_lent definition)) ≤ MAX_DEPENDENCIES }
    requires below { All (λ p. p < length values.now) (dependencies (definition_lent definition)) }
    ensures { IfOk result (λ value. value ≡ value_by (definition_lent definition.entry) values.now) }
{
    match definition {
        DefinitionRef::Input(value) => value.copy(),
        DefinitionRef::Derived(formula) => {
            given.clear();
            gather(values, formula.fixed, given)?;
            gather(values, formula.members, given)?;
            let (fixed, members) = given.as_slice().split_at(formula.fixed.len());
            eval(alloc, formula.expr, fixed, members)
        }
    }
}

// Puts the meaning of a service's definition over the values into its place among them; `given` is room for those that it is over.
pub(crate) fn put_value(
    alloc: Global,
    definition: DefinitionRef<'_>,
    id: ServiceId,
    values: &mut Vec<Value>,
    given: &mut Vec<Value>,
) -> Result<(), OutOfMemory>
    requires few { length (dependencies (definition_lent definition)) ≤ MAX_DEPENDENCIES }
    requires below { All (λ p. p < length values.old.items) (dependencies (definition_lent definition)) }
    requires place { id < length values.old.items }
    ensures { OnOk result (values.new.items ≡ slice_set values.old.items id (value_by (definition_lent definition.entry) values.old.items)) }
{
    let value = value_by(alloc, definition, values.as_slice(), given)?;
    values[place(id)] = value;
    Ok(())
}

/// The values of all services of the book, by their numbers: each by its last definition over the values of its dependencies.
/// Every service has a definition. `OutOfMemory` only when memory runs out.
pub fn central(alloc: Global, book: &Book) -> Result<Vec<Value>, OutOfMemory>
    requires { AreBorn book.now }
    ensures { IfOk result (λ values. AreCentral book.now values.items) }
{
    let order = book.rank_order()?;
    let mut values = no_values(alloc, book.len())?;
    let mut given = Vec::with_capacity(alloc, MAX_DEPENDENCIES)?;
    for id in order.as_slice() {
        let definition = book.history(*id).present().unwrap();
        put_value(alloc, definition, *id, &mut values, &mut given)?;
    }
    Ok(values)
}
