// The bytes of a state.
ghost use Rattle.std.specs.Prelude.{◌≡◌, ◌≤◌, ◌<◌, ◌^◌, ◌++◌, ◌∷◌, [], ℕ, List, codes, length, flat_map, map, All, IfOk, OnOk, OnErr};
ghost use Rattle.svc_expr.specs.Canonical.{name_at};
ghost use Rattle.svc_expr.specs.Canonical.{IsWithin as IsTreeWithin};
ghost use Rattle.svc_expr.specs.Tree.{tree_of};
ghost use Rattle.saved_state.specs.Bytes.{definition_bytes, formula_text, service_bytes, state_bytes, type_code, u16_bytes, u32_bytes, Fits, FitsDefinition};
ghost use Rattle.saved_state.specs.States.{names_in, names_at, IsState};
ghost use Rattle.saved_state.specs.Writing.{IsPrintable, IsPrintableFormula};

use crate::{Saved, ServiceRow};
use std::alloc::Global;
use svc_expr::print_expr;
use svc_graph::{Definition, Formula};
use svc_token::MAX_NAME_LEN;
use svc_value::limits::MAX_DEPENDENCIES;
use svc_value::{Name, Names, OutOfMemory, ServiceId, ValueType, put_value};

/// Appends the bytes of a state. After `OutOfMemory` `out` is as it was.
pub fn write_state(saved: &Saved, out: &mut Vec<u8>) -> Result<(), OutOfMemory>
    requires { IsState saved.now }
    ensures ok { OnOk result (out.new.items ≡ out.old.items ++ state_bytes saved.now) }
    ensures fits { OnOk result (Fits saved.now) }
    ensures err { OnErr result (out.new.items ≡ out.old.items) }
{
    let alloc = *out.allocator();
    let services = saved.services.as_slice();
    let mut bytes = Vec::new(alloc);
    bytes.extend_from_slice(b"QPS1")?;
    bytes.extend_from_slice(&saved.leg.to_be_bytes())?;
    bytes.push(services.len() as u8)?;
    put_services(alloc, services, &mut bytes)?;
    out.extend_from_slice(&bytes)?;
    Ok(())
}

// Appends the bytes of the services.
fn put_services(
    alloc: Global,
    services: &[ServiceRow],
    out: &mut Vec<u8>,
) -> Result<(), OutOfMemory>
    requires { All (IsPrintable (names_in services.now)) services.now }
    ensures ok { OnOk result (out.new.items ≡ out.old.items ++ flat_map (service_bytes (names_in services.now)) services.now) }
    ensures fits { OnOk result (All (λ service. FitsDefinition (names_in services.now) service.definition) services.now) }
{
    for service in services {
        put_service(alloc, services, service, out)?;
    }
    Ok(())
}

// Appends the bytes of a service.
fn put_service(
    alloc: Global,
    services: &[ServiceRow],
    service: &ServiceRow,
    out: &mut Vec<u8>,
) -> Result<(), OutOfMemory>
    requires { IsPrintable (names_in services.now) service.now }
    ensures ok { OnOk result (out.new.items ≡ out.old.items ++ service_bytes (names_in services.now) service.now) }
    ensures fits { OnOk result (FitsDefinition (names_in services.now) service.now.definition) }
{
    put_head(service, out)?;
    match &service.definition {
        Definition::Input(value) => put_value(value, out),
        Definition::Derived(formula) => put_formula(alloc, services, formula, out),
    }
}

// Appends the name, the type and the rank of a service.
fn put_head(service: &ServiceRow, out: &mut Vec<u8>) -> Result<(), OutOfMemory>
    requires { length service.now.name ≤ MAX_NAME_LEN }
    ensures { OnOk result (out.new.items ≡ out.old.items ++ (length service.now.name ∷ service.now.name ++ type_code service.now.ty ∷ u16_bytes service.now.rank)) }
{
    out.push(service.name.len() as u8)?;
    out.extend_from_slice(service.name.as_slice())?;
    out.push(code_of(service.ty))?;
    out.extend_from_slice(&service.rank.0.to_be_bytes())?;
    Ok(())
}

// The code of a type.
fn code_of(ty: ValueType) -> u8
    ensures { result ≡ type_code ty }
{
    match ty {
        ValueType::Int => 1,
        ValueType::Text => 2,
    }
}

// Appends the bytes of a formula.
fn put_formula(
    alloc: Global,
    services: &[ServiceRow],
    formula: &Formula,
    out: &mut Vec<u8>,
) -> Result<(), OutOfMemory>
    requires { IsPrintableFormula (names_in services.now) formula.now }
    ensures ok { OnOk result (out.new.items ≡ out.old.items ++ definition_bytes (names_in services.now) (Definition.Derived formula.now)) }
    ensures fits { OnOk result (FitsDefinition (names_in services.now) (Definition.Derived formula.now)) }
{
    let text = text_of(alloc, services, formula)?;
    put_text(&text, out)?;
    put_members(formula.members.as_slice(), out)
}

// The canonical text of the expression of a formula.
fn text_of(
    alloc: Global,
    services: &[ServiceRow],
    formula: &Formula,
) -> Result<Vec<u8>, OutOfMemory>
    requires { IsPrintableFormula (names_in services.now) formula.now }
    ensures within { OnOk result (IsTreeWithin (tree_of formula.now.expr)) }
    ensures text { IfOk result (λ text. text.items ≡ formula_text (names_in services.now) formula.now) }
{
    let names = names_of(alloc, services, formula.fixed.as_slice())?;
    let mut text = Vec::new(alloc);
    print_expr(&formula.expr, &names, &mut text)?;
    Ok(text)
}

// Appends a text after its length; `OutOfMemory` also where the length has no 4 bytes, which no expression of a state has.
fn put_text(text: &[u8], out: &mut Vec<u8>) -> Result<(), OutOfMemory>
    ensures ok { OnOk result (out.new.items ≡ out.old.items ++ (u32_bytes (length text.now) ++ text.now)) }
    ensures fits { OnOk result (length text.now < 2 ^ 32) }
{
    let Ok(len) = u32::try_from(text.len()) else {
        return Err(OutOfMemory);
    };
    out.extend_from_slice(&len.to_be_bytes())?;
    out.extend_from_slice(text)?;
    Ok(())
}

// Appends members after their number.
fn put_members(members: &[ServiceId], out: &mut Vec<u8>) -> Result<(), OutOfMemory>
    requires { length members.now ≤ MAX_DEPENDENCIES }
    ensures { OnOk result (out.new.items ≡ out.old.items ++ length members.now ∷ flat_map u16_bytes members.now) }
{
    out.push(members.len() as u8)?;
    for member in members {
        out.extend_from_slice(&member.0.to_be_bytes())?;
    }
    Ok(())
}

// The names of services.
fn names_of(alloc: Global, services: &[ServiceRow], ids: &[ServiceId]) -> Result<Names, OutOfMemory>
    ensures { IfOk result (λ names. names ≡ names_at (names_in services.now) ids.now) }
{
    let mut names = Names::new(alloc);
    for id in ids {
        names.push(Name::from_slice(alloc, name_of(services, *id))?)?;
    }
    Ok(names)
}

// The name of a service, none if it is not there.
fn name_of(services: &[ServiceRow], id: ServiceId) -> &[u8]
    ensures { result.now ≡ name_at (names_in services.now) id }
{
    match services.get(usize::from(id.0)) {
        Some(service) => service.name.as_slice(),
        None => &[],
    }
}
