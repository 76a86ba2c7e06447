// The canonical document of a plan.
ghost use Rattle.std.specs.Prelude.{◌≡◌, ◌++◌, [], ℕ, List, All, codes, flat_map, length, map, pos, OnOk, OnErr};
ghost use Rattle.svc_graph.specs.Accepting.{IsWritten};
ghost use Rattle.svc_plan.specs.declared.plan.Leg.{Leg as AnyLeg};
ghost use Rattle.svc_plan.specs.declared.plan.Mode.{Mode};
ghost use Rattle.svc_plan.specs.Rows.{AreLegsAfter};
ghost use Rattle.document_reading.specs.Document.{HasLegs};
ghost use Rattle.document_printing.specs.Canonical.{name_of, type_text, declared_text, over_text, formula_text, change_text, step_text, leg_lines, with_line_ends, canonical_text, IsPrintable, IsWithinLimits, AreReadAgain};
ghost use Rattle.svc_value.specs.Printed.{printed_value};

use crate::services::{ServiceRef, lend_services, name_of, names_of};
use std::alloc::Global;
use svc_expr::print_expr;
use svc_graph::{Change, Definition, Formula};
use svc_plan::{Leg, Plan, PlanChange, ServiceLine, StepEvent, StepLine};
use svc_value::{OutOfMemory, ServiceId, Value, ValueType, print_value};

/// Appends the canonical document of a plan. After `OutOfMemory` `out` is as it was.
pub fn print_document(plan: &Plan, out: &mut Vec<u8>) -> Result<(), OutOfMemory>
    requires { AreLegsAfter [] plan.now.legs }
    ensures ok { OnOk result (out.new.items ≡ out.old.items ++ canonical_text plan.now.legs) }
    ensures err { OnErr result (out.new.items ≡ out.old.items) }
{
    let alloc = *out.allocator();
    let legs = plan.legs.as_slice();
    let services = lend_services(alloc, legs)?;
    let mut text = Vec::new(alloc);
    append_legs(alloc, &services, legs, &mut text)?;
    out.extend_from_slice(&text)?;
    Ok(())
}

// Appends the lines of all legs.
fn append_legs(
    alloc: Global,
    services: &[ServiceRef<'_>],
    legs: &[Leg],
    out: &mut Vec<u8>,
) -> Result<(), OutOfMemory>
    requires { All (λ leg. All (IsPrintable (length services.now)) leg.changes) legs.now }
    ensures { OnOk result (out.new.items ≡ out.old.items ++ with_line_ends (flat_map (leg_lines services.now) legs.now)) }
{
    for leg in legs {
        append_leg(alloc, services, leg, out)?;
    }
    Ok(())
}

// Appends the lines of a leg.
fn append_leg(
    alloc: Global,
    services: &[ServiceRef<'_>],
    leg: &Leg,
    out: &mut Vec<u8>,
) -> Result<(), OutOfMemory>
    requires { All (IsPrintable (length services.now)) leg.now.changes }
    ensures { OnOk result (out.new.items ≡ out.old.items ++ with_line_ends (leg_lines services.now leg.now)) }
{
    append_changes(alloc, services, leg.changes.as_slice(), out)?;
    append_steps(services, leg.steps.as_slice(), out)?;
    out.extend_from_slice(b"settle\n")?;
    Ok(())
}

// Appends the lines of changes.
fn append_changes(
    alloc: Global,
    services: &[ServiceRef<'_>],
    changes: &[PlanChange],
    out: &mut Vec<u8>,
) -> Result<(), OutOfMemory>
    requires { All (IsPrintable (length services.now)) changes.now }
    ensures { OnOk result (out.new.items ≡ out.old.items ++ with_line_ends (map (λ change. change_text services.now change.id change.change) changes.now)) }
{
    for change in changes {
        append_change(alloc, services, change, out)?;
        out.extend_from_slice(b"\n")?;
    }
    Ok(())
}

// Appends step lines.
fn append_steps(
    services: &[ServiceRef<'_>],
    steps: &[StepLine],
    out: &mut Vec<u8>,
) -> Result<(), OutOfMemory>
    ensures { OnOk result (out.new.items ≡ out.old.items ++ with_line_ends (map (λ step. step_text services.now step.event) steps.now)) }
{
    for step in steps {
        append_step(services, step.event, out)?;
        out.extend_from_slice(b"\n")?;
    }
    Ok(())
}

// Appends what a step line says.
fn append_step(
    services: &[ServiceRef<'_>],
    event: StepEvent,
    out: &mut Vec<u8>,
) -> Result<(), OutOfMemory>
    ensures { OnOk result (out.new.items ≡ out.old.items ++ step_text services.now event) }
{
    match event {
        StepEvent::Do(id) => append_named("do ", services, id, out),
        StepEvent::Take(reader, sender) => {
            append_named("take ", services, reader, out)?;
            append_named(" from ", services, sender, out)
        }
        StepEvent::Turn(id) => append_named("turn ", services, id, out),
    }
}

// Appends what the line of a change says.
fn append_change(
    alloc: Global,
    services: &[ServiceRef<'_>],
    change: &PlanChange,
    out: &mut Vec<u8>,
) -> Result<(), OutOfMemory>
    requires { IsPrintable (length services.now) change.now }
    ensures { OnOk result (out.new.items ≡ out.old.items ++ change_text services.now change.now.id change.now.change) }
{
    let id = change.id;
    match &change.change {
        Change::Birth(Definition::Input(value)) => {
            append_input(services[usize::from(id.0)].get(), value, out)
        }
        Change::Birth(Definition::Derived(formula)) => {
            append_derived(services[usize::from(id.0)].get(), out)?;
            append_formula(alloc, services, formula, out)
        }
        Change::Set(value) => {
            append_named("set ", services, id, out)?;
            append_value(value, out)
        }
        Change::Add(member) => append_pair("add ", services, id, *member, out),
        Change::Drop(member) => append_pair("drop ", services, id, *member, out),
        Change::Define(formula) => {
            append_named("define ", services, id, out)?;
            append_formula(alloc, services, formula, out)
        }
    }
}

// Appends the declaration of an input.
fn append_input(line: &ServiceLine, value: &Value, out: &mut Vec<u8>) -> Result<(), OutOfMemory>
    ensures { OnOk result (out.new.items ≡ out.old.items ++ (codes "input " ++ declared_text line.now ++ codes " = " ++ printed_value value.now)) }
{
    out.extend_from_slice(b"input ")?;
    append_declared(line, out)?;
    append_value(value, out)
}

// Appends the declaration of a derived service up to its rank.
fn append_derived(line: &ServiceLine, out: &mut Vec<u8>) -> Result<(), OutOfMemory>
    ensures { OnOk result (out.new.items ≡ out.old.items ++ (codes "derived " ++ declared_text line.now ++ codes " rank " ++ printed_value (Value.Int (pos line.now.rank)))) }
{
    out.extend_from_slice(b"derived ")?;
    append_declared(line, out)?;
    out.extend_from_slice(b" rank ")?;
    print_value(&Value::Int(i64::from(line.rank.0)), out)
}

// Appends the name and the type of a service.
fn append_declared(line: &ServiceLine, out: &mut Vec<u8>) -> Result<(), OutOfMemory>
    ensures { OnOk result (out.new.items ≡ out.old.items ++ declared_text line.now) }
{
    out.extend_from_slice(line.name.as_slice())?;
    out.extend_from_slice(b" : ")?;
    out.extend_from_slice(type_text(line.ty).as_bytes())?;
    Ok(())
}

// `int` or `text`.
fn type_text(ty: ValueType) -> &'static str
    ensures { result.now ≡ type_text ty }
{
    match ty {
        ValueType::Int => "int",
        ValueType::Text => "text",
    }
}

// Appends `=` and a value.
fn append_value(value: &Value, out: &mut Vec<u8>) -> Result<(), OutOfMemory>
    ensures { OnOk result (out.new.items ≡ out.old.items ++ (codes " = " ++ printed_value value.now)) }
{
    out.extend_from_slice(b" = ")?;
    print_value(value, out)
}

// Appends `=`, an expression and its members.
fn append_formula(
    alloc: Global,
    services: &[ServiceRef<'_>],
    formula: &Formula,
    out: &mut Vec<u8>,
) -> Result<(), OutOfMemory>
    requires { IsWritten formula.now }
    ensures { OnOk result (out.new.items ≡ out.old.items ++ (codes " = " ++ formula_text services.now formula.now)) }
{
    out.extend_from_slice(b" = ")?;
    let names = names_of(alloc, services, formula.fixed.as_slice())?;
    print_expr(&formula.expr, &names, out)?;
    append_over(services, formula.members.as_slice(), out)
}

// Appends members behind `over`, where there are any.
fn append_over(
    services: &[ServiceRef<'_>],
    members: &[ServiceId],
    out: &mut Vec<u8>,
) -> Result<(), OutOfMemory>
    ensures { OnOk result (out.new.items ≡ out.old.items ++ over_text (map (name_of services.now) members.now)) }
{
    let [first, others @ ..] = members else {
        return Ok(());
    };
    append_named(" over ", services, *first, out)?;
    for id in others {
        append_named(", ", services, *id, out)?;
    }
    Ok(())
}

// Appends a word, a name, a blank and another name.
fn append_pair(
    word: &str,
    services: &[ServiceRef<'_>],
    reader: ServiceId,
    member: ServiceId,
    out: &mut Vec<u8>,
) -> Result<(), OutOfMemory>
    ensures { OnOk result (out.new.items ≡ out.old.items ++ (word.now ++ name_of services.now reader ++ codes " " ++ name_of services.now member)) }
{
    append_named(word, services, reader, out)?;
    append_named(" ", services, member, out)
}

// Appends a word and the name of a service.
fn append_named(
    word: &str,
    services: &[ServiceRef<'_>],
    id: ServiceId,
    out: &mut Vec<u8>,
) -> Result<(), OutOfMemory>
    ensures { OnOk result (out.new.items ≡ out.old.items ++ (word.now ++ name_of services.now id)) }
{
    out.extend_from_slice(word.as_bytes())?;
    out.extend_from_slice(name_of(services, id))?;
    Ok(())
}

/// The canonical document of an accepted document is accepted, where it is within the limits of bytes and lines, and says the
/// same but for the numbers of the step lines.
pub fn printed_is_read_again()
    ensures { (mode : Mode) (bytes : List ℕ) (legs : List AnyLeg) → HasLegs mode bytes legs → IsWithinLimits legs → (again : List AnyLeg) × AreReadAgain mode legs again }
{}
