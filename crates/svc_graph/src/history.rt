// The accepted definitions of one service.
ghost use Rattle.std.specs.Prelude.{◌≡◌, ◌++◌, ◌∷◌, [], ◌==◌, not, true, filter, length, option_map, None, IfOk, OnOk, OnErr, take};
ghost use Rattle.svc_graph.specs.Lent.{definition_lent};
ghost use Rattle.svc_graph.specs.Versions.{definition_of, is_within, with_member, without_member};

use crate::{Change, Definition, DefinitionRef, Formula, FormulaRef};
use std::alloc::Global;
use std::marker::Model;
use svc_expr::Expr;
use svc_value::{Ids, OutOfMemory, ServiceId, Value};

// An expression with the services of its names: what a formula keeps while its members come and go.
#[derive(Debug, Drop)]
struct Body {
    expr: Expr,
    fixed: Ids,
}

// What one accepted change left: a value, or the number of a body with the members.
#[derive(Debug, Drop)]
enum Version {
    Input(Value),
    Derived(usize, Ids),
}

/// The accepted definitions of one service, oldest first. Contracts see it as their list. An expression is kept once for all
/// the definitions that have it.
#[derive(Debug, Drop)]
pub struct History {
    alloc: Global,
    bodies: Vec<Body>,
    versions: Vec<Version>,
}

impl Model for History {
    ghost use Rattle.std.specs.Prelude.{List};
    ghost use Rattle.svc_graph.specs.declared.definition.Definition.{Definition};

    ghost Value = { List Definition };

    ghost use Rattle.svc_expr.specs.contracts.expr.Expr as e;
    ghost use Rattle.std.specs.Coded.{codes};

    ghost coded = { Prim.hlevel (codes, e.the_row.coded) };

    ghost use Rattle.svc_graph.specs.Versions.{definitions, HasBodies};

    ghost view = { λ h. definitions h.bodies.items h.versions.items };

    ghost invariant = { λ h. HasBodies h.bodies.items h.versions.items };
}

// The definition that a version stands for, lent.
fn lent<'a>(bodies: &'a [Body], version: &'a Version) -> DefinitionRef<'a>
    requires { is_within bodies.now version.now ≡ true }
    ensures { definition_lent result ≡ definition_of bodies.now version.now }
{
    match version {
        Version::Input(value) => DefinitionRef::Input(value),
        Version::Derived(number, members) => {
            let body = &bodies[*number];
            DefinitionRef::Derived(FormulaRef {
                expr: &body.expr,
                fixed: body.fixed.as_slice(),
                members: members.as_slice(),
            })
        }
    }
}

// The members and one more.
fn one_more(alloc: Global, members: &[ServiceId], member: ServiceId) -> Result<Ids, OutOfMemory>
    ensures { IfOk result (λ more. more ≡ members.now ++ member ∷ []) }
{
    let mut more = Vec::with_capacity(alloc, members.len().saturating_add(1))?;
    more.extend_from_slice(members)?;
    more.push(member)?;
    Ok(Ids::from_vec(more))
}

// A version with one member more.
fn with_member(alloc: Global, version: &Version, member: ServiceId) -> Result<Version, OutOfMemory>
    ensures { IfOk result (λ next. next ≡ with_member version.now member) }
{
    Ok(match version {
        Version::Input(value) => Version::Input(value.copy()?),
        Version::Derived(number, members) => {
            Version::Derived(*number, one_more(alloc, members.as_slice(), member)?)
        }
    })
}

// A version without that member.
fn without_member(
    alloc: Global,
    version: &Version,
    member: ServiceId,
) -> Result<Version, OutOfMemory>
    ensures { IfOk result (λ next. next ≡ without_member version.now member) }
{
    Ok(match version {
        Version::Input(value) => Version::Input(value.copy()?),
        Version::Derived(number, members) => {
            Version::Derived(*number, others(alloc, members.as_slice(), member)?)
        }
    })
}

// The members but that one.
fn others(alloc: Global, members: &[ServiceId], member: ServiceId) -> Result<Ids, OutOfMemory>
    ensures { IfOk result (λ kept. kept ≡ filter (λ p. not (p == member)) members.now) }
{
    let kept: Vec<ServiceId> = members
        .iter()
        .copied()
        .filter(|p| *p != member)
        .collect(alloc)?;
    Ok(Ids::from_vec(kept))
}

impl History {
    ghost use Rattle.svc_graph.specs.History.{at_clock, present, definitions_brought, is_birth};
    ghost use Rattle.svc_graph.specs.declared.definition.Definition.TheVariants.{Derived};

    /// No definition yet. The history takes its memory from `alloc`.
    pub fn new(alloc: Global) -> History
        ensures { result ≡ [] }
    {
        History {
            alloc,
            bodies: Vec::new(alloc),
            versions: Vec::new(alloc),
        }
    }

    /// How many definitions were accepted: the clock of the service.
    pub fn len(&self) -> usize
        ensures { result ≡ length self.now }
    {
        self.versions.len()
    }

    /// The definition at the clock `clock`, lent; `None` exactly where the clock is 0 or past the last one.
    pub fn at(&self, clock: usize) -> Option<DefinitionRef<'_>>
        ensures { option_map definition_lent result ≡ at_clock self.now clock }
    {
        let version = self.versions.get(clock.checked_sub(1)?)?;
        Some(lent(self.bodies.as_slice(), version))
    }

    /// The last definition, lent; `None` exactly before the birth.
    pub fn present(&self) -> Option<DefinitionRef<'_>>
        ensures { option_map definition_lent result ≡ present self.now }
    {
        self.at(self.versions.len())
    }

    /// Keeps the first `len` definitions.
    pub(crate) fn truncate(&mut self, len: usize)
        ensures { self.new ≡ take len self.old }
    {
        self.versions.truncate(len);
    }

    /// Appends the definition that `change` brings. After `OutOfMemory` the history is as it was, and the change is dropped.
    pub(crate) fn append(&mut self, change: Change) -> Result<(), OutOfMemory>
        requires { present self.old ≡ None → is_birth change ≡ true }
        ensures ok { OnOk result (self.new ≡ self.old ++ definitions_brought (present self.old) change) }
        ensures err { OnErr result (self.new ≡ self.old) }
    {
        match change {
            Change::Birth(definition) => self.push(definition),
            Change::Set(value) => self.push(Definition::Input(value)),
            Change::Add(member) => {
                let last = self.versions.last().unwrap();
                let next = with_member(self.alloc, last, member)?;
                Ok(self.versions.push(next)?)
            }
            Change::Drop(member) => {
                let last = self.versions.last().unwrap();
                let next = without_member(self.alloc, last, member)?;
                Ok(self.versions.push(next)?)
            }
            Change::Define(formula) => self.push(Definition::Derived(formula)),
        }
    }

    // Appends a definition.
    fn push(&mut self, definition: Definition) -> Result<(), OutOfMemory>
        ensures ok { OnOk result (self.new ≡ self.old ++ definition ∷ []) }
        ensures err { OnErr result (self.new ≡ self.old) }
    {
        match definition {
            Definition::Input(value) => Ok(self.versions.push(Version::Input(value))?),
            Definition::Derived(formula) => self.push_formula(formula),
        }
    }

    // Appends the definition by a formula. Where the last step finds no memory, a body stays that no version names.
    fn push_formula(&mut self, formula: Formula) -> Result<(), OutOfMemory>
        ensures ok { OnOk result (self.new ≡ self.old ++ Derived formula ∷ []) }
        ensures err { OnErr result (self.new ≡ self.old) }
    {
        let number = self.bodies.len();
        let Formula {
            expr,
            fixed,
            members,
        } = formula;
        self.bodies.push(Body { expr, fixed })?;
        self.versions.push(Version::Derived(number, members))?;
        Ok(())
    }
}
