// What depends on what, and in which order services can be computed.
ghost use Rattle.std.specs.Prelude.{◌≡◌, ◌≤◌, ◌<◌, ◌++◌, List, length, option_map, IfOk, IsPermutation};
ghost use Rattle.std.specs.List.{range_with_len};
ghost use Rattle.std.specs.List.Sorted.{IsNonDecreasingBy};
ghost use Rattle.svc_graph.specs.Order.{order_key};
ghost use Rattle.svc_graph.specs.Lent.{definition_lent};
ghost use Rattle.svc_graph.specs.Refusals.{last_dependencies};

use super::Book;
use crate::checks::kind_of;
use crate::{DefinitionRef, Kind};
use std::alloc::{AllocError, Global};
use svc_value::limits::MAX_SERVICES;
use svc_value::{Ids, OutOfMemory, ServiceId};

// Two lists of services, one after the other.
fn concatenation(alloc: Global, front: &[ServiceId], back: &[ServiceId]) -> Result<Ids, OutOfMemory>
    ensures { IfOk result (λ ids. ids ≡ front.now ++ back.now) }
{
    let mut ids = Vec::with_capacity(alloc, front.len().saturating_add(back.len()))?;
    ids.extend_from_slice(front)?;
    ids.extend_from_slice(back)?;
    Ok(Ids::from_vec(ids))
}

// The dependencies of a definition, none where there is none.
fn dependencies(alloc: Global, last: Option<DefinitionRef<'_>>) -> Result<Ids, OutOfMemory>
    ensures { IfOk result (λ ids. ids ≡ last_dependencies (option_map definition_lent last.entry)) }
{
    match last {
        Some(DefinitionRef::Derived(formula)) => concatenation(
            alloc,
            formula.fixed,
            formula.members,
        ),
        _ => Ok(Ids::new(alloc)),
    }
}

// The numbers of the first services.
fn first_services(alloc: Global, count: usize) -> Result<Vec<ServiceId>, AllocError>
    requires { count ≤ MAX_SERVICES }
    ensures { IfOk result (λ ids. ids.items ≡ range_with_len 0 count) }
{
    let mut ids = Vec::with_capacity(alloc, count)?;
    for number in 0..count {
        ids.push_reserved(ServiceId(number as u16));
    }
    Ok(ids)
}

// A number that is higher where the rank is, and in one rank where the number of the service is.
fn order_key(kinds: &[Kind], id: ServiceId) -> u32
    ensures { result ≡ order_key kinds.now id }
{
    u32::from(kind_of(kinds, id).rank.0) * 65536 + u32::from(id.0)
}

// The services by that number.
fn sorted(kinds: &[Kind], mut ids: Vec<ServiceId>) -> Result<Vec<ServiceId>, AllocError>
    ensures all { IfOk result (λ v. IsPermutation ids.items v.items) }
    ensures ordered { IfOk result (λ v. IsNonDecreasingBy (order_key kinds.now) v.items) }
{
    ids.sort_by_key(|id| order_key(kinds, *id))?;
    Ok(ids)
}

impl Book {
    ghost use Rattle.propagation.specs.History.{deps, now};
    ghost use Rattle.svc_graph.specs.Central.{services};
    ghost use Rattle.svc_graph.specs.History.{theory};
    ghost use Rattle.svc_graph.specs.Order.{IsInOrder};

    /// The dependencies of the last definition of the service `id`, none before its birth.
    pub fn deps_of(&self, id: ServiceId) -> Result<Ids, OutOfMemory>
        requires { id < length self.now }
        ensures { IfOk result (λ ids. ids ≡ deps (theory self.now) id (now (theory self.now) id)) }
    {
        dependencies(self.alloc, self.history(id).present())
    }

    /// All services by rank, and those of one rank by number.
    pub fn rank_order(&self) -> Result<Ids, OutOfMemory>
        ensures all { IfOk result (IsPermutation (services self.now)) }
        ensures ordered { IfOk result (IsInOrder self.now) }
    {
        let ids = first_services(self.alloc, self.len())?;
        Ok(Ids::from_vec(sorted(self.kinds.as_slice(), ids)?))
    }
}
