// The tests of a change, each by its own function, in the order in which they are made.
ghost use Rattle.std.specs.Prelude.{◌≡◌, ◌<◌, ◌^◌, ◌+◌, ◌++◌, ◌==◌, ◌||◌, ◌≢◌, Bool, Option, Some, None, List, ℕ, map, length, if◌then◌else◌, IfOk, IfErr, OnOk, option_map};
ghost use Rattle.std.specs.List.{list_any};
ghost use Rattle.propagation.specs.Lists.{is_among};
ghost use Rattle.svc_expr.specs.Tree.{tree_of, nodes};
ghost use Rattle.svc_expr.specs.Types.{type_in};
ghost use Rattle.svc_graph.specs.declared.errors.ChangeError.TheVariants.{OutOfMemory};
ghost use Rattle.svc_graph.specs.Accepting.{IsSmallChange};
ghost use Rattle.svc_graph.specs.Lent.{definition_lent};
ghost use Rattle.svc_graph.specs.Refusals.{any_named, brings_again, changes_input, drops_other, has_too_many, has_wrong_type, is_derived, is_high, is_ill_typed, is_large, is_text, is_type, is_unknown, kind_at, last_dependencies, last_members, last_takes_numbers, names_high, names_unknown, first_error, repeats, sets_derived};

use crate::{Change, ChangeError, Definition, DefinitionRef, Formula, FormulaRef, Kind};
use std::alloc::{AllocError, Global};
use svc_expr::{Expr, needs_int_members, type_of};
pub use svc_value::limits::MAX_DEPENDENCIES;
use svc_value::{Rank, ServiceId, ValueType};

// The rank and the type of a service; those of an input of whole numbers if it is not declared.
pub(crate) fn kind_of(kinds: &[Kind], id: ServiceId) -> Kind
    ensures { result ≡ kind_at kinds.now id }
{
    match kinds.get(usize::from(id.0)) {
        Some(kind) => *kind,
        None => Kind {
            rank: Rank(0),
            ty: ValueType::Int,
        },
    }
}

// Whether the service is derived.
fn is_derived(kinds: &[Kind], id: ServiceId) -> bool
    ensures { result ≡ is_derived kinds.now id }
{
    kind_of(kinds, id).rank.0 > 0
}

// Whether a service is in the list.
fn is_among(ids: &[ServiceId], id: ServiceId) -> bool
    ensures { result ≡ is_among ids.now id }
{
    ids.contains(&id)
}

// Whether the service is not declared.
fn is_unknown(kinds: &[Kind], id: ServiceId) -> bool
    ensures { result ≡ is_unknown kinds.now id }
{
    usize::from(id.0) >= kinds.len()
}

// Whether a service has no lower rank than its reader.
fn is_high(kinds: &[Kind], reader: ServiceId, id: ServiceId) -> bool
    ensures { result ≡ is_high kinds.now reader id }
{
    kind_of(kinds, reader).rank.0 <= kind_of(kinds, id).rank.0
}

// Whether the values of a service are texts.
fn is_text(kinds: &[Kind], id: ServiceId) -> bool
    ensures { result ≡ is_text kinds.now id }
{
    kind_of(kinds, id).ty == ValueType::Text
}

// Whether some service is not declared.
fn any_unknown(kinds: &[Kind], ids: &[ServiceId]) -> bool
    ensures { result ≡ list_any (is_unknown kinds.now) ids.now }
{
    ids.iter().any(|p| is_unknown(kinds, *p))
}

// Whether some service is not declared or is this one.
fn any_unknown_or(kinds: &[Kind], id: ServiceId, ids: &[ServiceId]) -> bool
    ensures { result ≡ list_any (λ p. is_unknown kinds.now p || p == id) ids.now }
{
    ids.iter().any(|p| is_unknown(kinds, *p) || *p == id)
}

// Whether some service has no lower rank.
fn any_high(kinds: &[Kind], reader: ServiceId, ids: &[ServiceId]) -> bool
    ensures { result ≡ list_any (is_high kinds.now reader) ids.now }
{
    ids.iter().any(|p| is_high(kinds, reader, *p))
}

// Whether the values of some service are texts.
fn any_text(kinds: &[Kind], ids: &[ServiceId]) -> bool
    ensures { result ≡ list_any (is_text kinds.now) ids.now }
{
    ids.iter().any(|p| is_text(kinds, *p))
}

// Whether a member stands among the names or again behind.
fn repeats(names: &[ServiceId], members: &[ServiceId]) -> bool
    ensures { result ≡ repeats names.now members.now }
{
    match members {
        [] => false,
        [first, others @ ..] => {
            is_among(names, *first) || is_among(others, *first) || repeats(names, others)
        }
    }
}

// The types of services.
fn types_of(alloc: Global, kinds: &[Kind], ids: &[ServiceId]) -> Result<Vec<ValueType>, AllocError>
    ensures { IfOk result (λ types. types.items ≡ map (λ p. (kind_at kinds.now p).ty) ids.now) }
{
    ids.iter().map(|p| kind_of(kinds, *p).ty).collect(alloc)
}

// Whether the expression has this type where its names have these.
fn has_type(expr: &Expr, types: &[ValueType], ty: ValueType) -> bool
    requires { nodes (tree_of expr.now) < 2 ^ 32 }
    ensures { result ≡ is_type (type_in (tree_of expr.now) types.now) ty }
{
    match type_of(expr, types) {
        Ok(found) => found == ty,
        Err(_) => false,
    }
}

// Whether the formula has not the type of the service, or a member that has to be a number is a text.
fn is_ill_typed(
    alloc: Global,
    kinds: &[Kind],
    id: ServiceId,
    formula: &Formula,
) -> Result<bool, AllocError>
    requires { nodes (tree_of formula.now.expr) < 2 ^ 32 }
    ensures { IfOk result (λ holds. holds ≡ is_ill_typed kinds.now id formula.now) }
{
    let types = types_of(alloc, kinds, formula.fixed.as_slice())?;
    Ok(
        !has_type(&formula.expr, types.as_slice(), kind_of(kinds, id).ty)
            || needs_int_members(&formula.expr) && any_text(kinds, formula.members.as_slice()),
    )
}

// Whether a formula has more than 16 dependencies.
fn is_large(formula: &Formula) -> bool
    ensures { result ≡ is_large formula.now }
{
    formula.fixed.len().saturating_add(formula.members.len()) > MAX_DEPENDENCIES
}

// Whether the service is a dependency of the formula.
#[tactic(auto, using(crate::proofs::Lists::is_among_append))]
fn depends_on(formula: FormulaRef<'_>, id: ServiceId) -> bool
    ensures { result ≡ is_among (formula.entry.fixed.now ++ formula.entry.members.now) id }
{
    is_among(formula.fixed, id) || is_among(formula.members, id)
}

// Whether the service is a dependency of the last definition.
fn is_dependency(last: Option<DefinitionRef<'_>>, id: ServiceId) -> bool
    ensures { result ≡ is_among (last_dependencies (option_map definition_lent last.entry)) id }
{
    match last {
        Some(DefinitionRef::Derived(formula)) => depends_on(formula, id),
        _ => false,
    }
}

// How many dependencies the last definition has.
fn count_dependencies(last: Option<DefinitionRef<'_>>) -> usize
    ensures { result ≡ length (last_dependencies (option_map definition_lent last.entry)) }
{
    match last {
        Some(DefinitionRef::Derived(formula)) => formula.fixed.len() + formula.members.len(),
        _ => 0,
    }
}

// Whether the service is a member of the last definition.
fn is_member(last: Option<DefinitionRef<'_>>, id: ServiceId) -> bool
    ensures { result ≡ is_among (last_members (option_map definition_lent last.entry)) id }
{
    match last {
        Some(DefinitionRef::Derived(formula)) => is_among(formula.members, id),
        _ => false,
    }
}

// Whether the members of the last definition have to be whole numbers.
fn takes_numbers(last: Option<DefinitionRef<'_>>) -> bool
    ensures { result ≡ last_takes_numbers (option_map definition_lent last.entry) }
{
    match last {
        Some(DefinitionRef::Derived(formula)) => needs_int_members(formula.expr),
        _ => false,
    }
}

// Whether the change names a service that is not declared, where a birth's own counts as such.
fn names_unknown(kinds: &[Kind], id: ServiceId, change: &Change) -> bool
    ensures { result ≡ names_unknown kinds.now id change.now }
{
    match change {
        Change::Birth(Definition::Input(_)) | Change::Set(_) => false,
        Change::Birth(Definition::Derived(formula)) => {
            any_unknown_or(kinds, id, formula.fixed.as_slice())
                || any_unknown_or(kinds, id, formula.members.as_slice())
        }
        Change::Add(member) | Change::Drop(member) => is_unknown(kinds, *member),
        Change::Define(formula) => {
            any_unknown(kinds, formula.fixed.as_slice())
                || any_unknown(kinds, formula.members.as_slice())
        }
    }
}

// Whether a formula names a service that has no lower rank.
fn any_named_high(kinds: &[Kind], id: ServiceId, formula: &Formula) -> bool
    ensures { result ≡ any_named (is_high kinds.now id) formula.now }
{
    any_high(kinds, id, formula.fixed.as_slice()) || any_high(kinds, id, formula.members.as_slice())
}

// Whether the change names a dependency that has no lower rank.
fn names_high(kinds: &[Kind], id: ServiceId, change: &Change) -> bool
    ensures { result ≡ names_high kinds.now id change.now }
{
    match change {
        Change::Birth(Definition::Derived(formula)) => any_named_high(kinds, id, formula),
        Change::Add(member) => is_derived(kinds, id) && is_high(kinds, id, *member),
        Change::Define(formula) => is_derived(kinds, id) && any_named_high(kinds, id, formula),
        Change::Birth(Definition::Input(_)) | Change::Set(_) | Change::Drop(_) => false,
    }
}

// Whether the change brings a value, an expression or a member of another type.
fn has_wrong_type(
    alloc: Global,
    kinds: &[Kind],
    id: ServiceId,
    last: Option<DefinitionRef<'_>>,
    change: &Change,
) -> Result<bool, AllocError>
    requires { IsSmallChange change.now }
    ensures { IfOk result (λ holds. holds ≡ has_wrong_type kinds.now id (option_map definition_lent last.entry) change.now) }
{
    Ok(match change {
        Change::Birth(Definition::Input(value)) => !value.has_type(kind_of(kinds, id).ty),
        Change::Birth(Definition::Derived(formula)) => is_ill_typed(alloc, kinds, id, formula)?,
        Change::Set(value) => !is_derived(kinds, id) && !value.has_type(kind_of(kinds, id).ty),
        Change::Add(member) => {
            is_derived(kinds, id) && takes_numbers(last) && is_text(kinds, *member)
        }
        Change::Drop(_) => false,
        Change::Define(formula) => {
            is_derived(kinds, id) && is_ill_typed(alloc, kinds, id, formula)?
        }
    })
}

// Whether the change makes more than 16 dependencies.
fn has_too_many(
    kinds: &[Kind],
    id: ServiceId,
    last: Option<DefinitionRef<'_>>,
    change: &Change,
) -> bool
    ensures { result ≡ has_too_many kinds.now id (option_map definition_lent last.entry) change.now }
{
    match change {
        Change::Birth(Definition::Derived(formula)) => is_large(formula),
        Change::Add(member) => {
            is_derived(kinds, id)
                && !is_dependency(last, *member)
                && count_dependencies(last) >= MAX_DEPENDENCIES
        }
        Change::Define(formula) => is_derived(kinds, id) && is_large(formula),
        Change::Birth(Definition::Input(_)) | Change::Set(_) | Change::Drop(_) => false,
    }
}

// Whether the change sets the value of a derived service.
fn sets_derived(kinds: &[Kind], id: ServiceId, change: &Change) -> bool
    ensures { result ≡ sets_derived kinds.now id change.now }
{
    matches!(change, Change::Set(_)) && is_derived(kinds, id)
}

// Whether the change changes the members or the formula of an input.
fn changes_input(kinds: &[Kind], id: ServiceId, change: &Change) -> bool
    ensures { result ≡ changes_input kinds.now id change.now }
{
    matches!(change, Change::Add(_) | Change::Drop(_) | Change::Define(_)) && !is_derived(kinds, id)
}

// Whether the change brings a member that is a dependency already.
fn brings_again(
    kinds: &[Kind],
    id: ServiceId,
    last: Option<DefinitionRef<'_>>,
    change: &Change,
) -> bool
    ensures { result ≡ brings_again kinds.now id (option_map definition_lent last.entry) change.now }
{
    match change {
        Change::Birth(Definition::Derived(formula)) => {
            repeats(formula.fixed.as_slice(), formula.members.as_slice())
        }
        Change::Add(member) => is_dependency(last, *member),
        Change::Define(formula) => {
            is_derived(kinds, id) && repeats(formula.fixed.as_slice(), formula.members.as_slice())
        }
        Change::Birth(Definition::Input(_)) | Change::Set(_) | Change::Drop(_) => false,
    }
}

// Whether the change takes out a service that is no member.
fn drops_other(
    kinds: &[Kind],
    id: ServiceId,
    last: Option<DefinitionRef<'_>>,
    change: &Change,
) -> bool
    ensures { result ≡ drops_other kinds.now id (option_map definition_lent last.entry) change.now }
{
    match change {
        Change::Drop(member) => is_derived(kinds, id) && !is_member(last, *member),
        _ => false,
    }
}

/// Makes all tests of a change of the service `id`, whose last definition is `last`. The error is that of the first test that
/// holds, or `OutOfMemory` where the types of an expression's names find no memory.
pub(crate) fn check(
    alloc: Global,
    kinds: &[Kind],
    id: ServiceId,
    last: Option<DefinitionRef<'_>>,
    change: &Change,
) -> Result<(), ChangeError>
    requires { IsSmallChange change.now }
    ensures ok { OnOk result (first_error kinds.now id (option_map definition_lent last.entry) change.now ≡ None) }
    ensures refused { IfErr result (λ e. e ≢ OutOfMemory → first_error kinds.now id (option_map definition_lent last.entry) change.now ≡ Some e) }
{
    if names_unknown(kinds, id, change) {
        return Err(ChangeError::Unknown);
    }
    if names_high(kinds, id, change) {
        return Err(ChangeError::RankNotLower);
    }
    if has_wrong_type(alloc, kinds, id, last, change)? {
        return Err(ChangeError::WrongType);
    }
    if has_too_many(kinds, id, last, change) {
        return Err(ChangeError::TooMany);
    }
    if sets_derived(kinds, id, change) {
        return Err(ChangeError::NotInput);
    }
    if changes_input(kinds, id, change) {
        return Err(ChangeError::NotDerived);
    }
    if brings_again(kinds, id, last, change) {
        return Err(ChangeError::Already);
    }
    if drops_other(kinds, id, last, change) {
        return Err(ChangeError::NotMember);
    }
    Ok(())
}
