// Services with numbers in place of names.
ghost use Rattle.std.specs.Prelude.{◌≡◌, ◌<◌, ◌^◌, map, length, All, IfOk};
ghost use Rattle.std.specs.Result.{IsErrOf};
ghost use Rattle.std.specs.Prelude.{List, ℕ};
ghost use Rattle.svc_expr.specs.Grammar.{name_index};
ghost use Rattle.saved_state.specs.Named.{names_of, numbered_definition, numbered_row, numbered_rows, IsKnown};

use crate::named::{NamedDefinition, NamedFormula, NamedRow};
use crate::{ServiceRow, ServiceRows, StateError};
use std::alloc::Global;
use svc_graph::{Definition, Formula};
use svc_value::{Ids, Name, ServiceId};

/// The services, with the number of each in place of its name; `Bad` where a name is that of no service.
pub(crate) fn numbered_rows(alloc: Global, rows: &[NamedRow]) -> Result<ServiceRows, StateError>
    requires { length rows.now < 2 ^ 8 }
    ensures services { IfOk result (λ services. services ≡ numbered_rows rows.now) }
    ensures known { IfOk result (λ services. All (λ row. IsKnown (names_of rows.now) row.definition) rows.now) }
    ensures bad { IsErrOf result StateError.Bad → All (λ row. IsKnown (names_of rows.now) row.definition) rows.now → ⊥ }
{
    let mut services = ServiceRows::new(alloc);
    for row in rows {
        services.push(numbered_row(alloc, rows, row)?)?;
    }
    Ok(services)
}

// A service with numbers; `Bad` where a name is that of no service.
fn numbered_row(alloc: Global, rows: &[NamedRow], row: &NamedRow) -> Result<ServiceRow, StateError>
    requires { length rows.now < 2 ^ 8 }
    ensures service { IfOk result (λ service. service ≡ numbered_row (names_of rows.now) row.now) }
    ensures known { IfOk result (λ service. IsKnown (names_of rows.now) row.now.definition) }
    ensures bad { IsErrOf result StateError.Bad → IsKnown (names_of rows.now) row.now.definition → ⊥ }
{
    let definition = match &row.definition {
        NamedDefinition::Input(value) => Definition::Input(value.copy()?),
        NamedDefinition::Derived(formula) => {
            Definition::Derived(numbered_formula(alloc, rows, formula)?)
        }
    };
    let name = Name::from_slice(alloc, row.name.as_slice())?;
    Ok(ServiceRow {
        name,
        rank: row.rank,
        ty: row.ty,
        definition,
    })
}

// A formula with numbers; `Bad` where a name is that of no service.
fn numbered_formula(
    alloc: Global,
    rows: &[NamedRow],
    formula: &NamedFormula,
) -> Result<Formula, StateError>
    requires { length rows.now < 2 ^ 8 }
    ensures formula { IfOk result (λ numbered. Definition.Derived numbered ≡ numbered_definition (names_of rows.now) (NamedDefinition.Derived formula.now)) }
    ensures known { IfOk result (λ numbered. IsKnown (names_of rows.now) (NamedDefinition.Derived formula.now)) }
    ensures bad { IsErrOf result StateError.Bad → IsKnown (names_of rows.now) (NamedDefinition.Derived formula.now) → ⊥ }
{
    let fixed = numbers_of(alloc, rows, formula.names.as_slice())?;
    let expr = formula.expr.copy()?;
    let members = Ids::from_slice(alloc, formula.members.as_slice())?;
    Ok(Formula {
        expr,
        fixed,
        members,
    })
}

// The numbers of the services with these names; `Bad` where one is that of no service.
fn numbers_of(alloc: Global, rows: &[NamedRow], names: &[Name]) -> Result<Ids, StateError>
    requires { length rows.now < 2 ^ 8 }
    ensures ids { IfOk result (λ ids. ids ≡ map (name_index (names_of rows.now)) names.now) }
    ensures known { IfOk result (λ ids. All (λ name. name_index (names_of rows.now) name < length (names_of rows.now)) names.now) }
    ensures bad { IsErrOf result StateError.Bad → All (λ name. name_index (names_of rows.now) name < length (names_of rows.now)) names.now → ⊥ }
{
    let mut ids = Ids::new(alloc);
    for name in names {
        let place = place_of(rows, name.as_slice());
        if place >= rows.len() {
            return Err(StateError::Bad);
        }
        ids.push(ServiceId(place as u16))?;
    }
    Ok(ids)
}

// The place of a name among those of the services, or their number where it is not among them.
fn place_of(rows: &[NamedRow], name: &[u8]) -> usize
    ensures { result ≡ name_index (names_of rows.now) name.now }
{
    for (place, row) in rows.iter().enumerate() {
        if row.name.as_slice() == name {
            return place;
        }
    }
    rows.len()
}
