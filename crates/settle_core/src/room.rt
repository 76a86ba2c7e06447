// Room in links for what an event will send, made before it.
ghost use Rattle.std.specs.Prelude.{◌≡◌, ◌<◌, ◌≤◌, ℕ, length, option_map, OnOk, Some};
ghost use Rattle.propagation.specs.Lists.{Has};
ghost use Rattle.service_machine.specs.Steps.{targets};
ghost use Rattle.svc_graph.specs.declared.definition.Definition.{Definition as TheDefinition};
ghost use Rattle.svc_graph.specs.History.{dependencies};
ghost use Rattle.svc_graph.specs.Lent.{definition_lent};
ghost use Rattle.settle_core.specs.Inside.Table.{link_in, SameWaiting};
ghost use Rattle.settle_core.specs.Net.{place_of};

use crate::links::{Links, reserve};
use svc_graph::DefinitionRef;
use svc_value::{Clock, OutOfMemory, ServiceId};

/// Makes room for two frames to each of these services.
pub(crate) fn reserve_all(
    links: &mut Links,
    to: &[(ServiceId, Clock)],
    sender: ServiceId,
) -> Result<(), OutOfMemory>
    requires { (q : ℕ) → Has (targets to.now) q → place_of q sender < length links.old.items }
    ensures room { OnOk result ((q : ℕ) → Has (targets to.now) q → 2 ≤ (link_in links.new.items q sender).spare) }
    ensures same { SameWaiting links.old.items links.new.items }
{
    for edge in to {
        reserve(links, edge.0, sender)?;
    }
    Ok(())
}

// Does so for services without epochs.
fn reserve_each(links: &mut Links, to: &[ServiceId], sender: ServiceId) -> Result<(), OutOfMemory>
    requires { (q : ℕ) → Has to.now q → place_of q sender < length links.old.items }
    ensures room { OnOk result ((q : ℕ) → Has to.now q → 2 ≤ (link_in links.new.items q sender).spare) }
    ensures same { SameWaiting links.old.items links.new.items }
{
    for id in to {
        reserve(links, *id, sender)?;
    }
    Ok(())
}

// Makes room for two frames to each dependency of a definition.
fn reserve_definition(
    links: &mut Links,
    definition: DefinitionRef<'_>,
    id: ServiceId,
) -> Result<(), OutOfMemory>
    requires { (q : ℕ) → Has (dependencies (definition_lent definition)) q → place_of q id < length links.old.items }
    ensures room { OnOk result ((q : ℕ) → Has (dependencies (definition_lent definition.entry)) q → 2 ≤ (link_in links.new.items q id).spare) }
    ensures same { SameWaiting links.old.items links.new.items }
{
    match definition {
        DefinitionRef::Input(_) => Ok(()),
        DefinitionRef::Derived(formula) => {
            reserve_each(links, formula.fixed, id)?;
            reserve_each(links, formula.members, id)
        }
    }
}

/// Does so for a definition that may be missing.
pub(crate) fn reserve_named(
    links: &mut Links,
    next: Option<DefinitionRef<'_>>,
    id: ServiceId,
) -> Result<(), OutOfMemory>
    requires { (d : TheDefinition) → option_map definition_lent next ≡ Some d → (q : ℕ) → Has (dependencies d) q → place_of q id < length links.old.items }
    ensures room { OnOk result ((d : TheDefinition) → option_map definition_lent next.entry ≡ Some d → (q : ℕ) → Has (dependencies d) q → 2 ≤ (link_in links.new.items q id).spare) }
    ensures same { SameWaiting links.old.items links.new.items }
{
    match next {
        None => Ok(()),
        Some(definition) => reserve_definition(links, definition, id),
    }
}
