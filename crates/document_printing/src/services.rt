// The services of a plan, lent.
ghost use Rattle.std.specs.Prelude.{◌≡◌, ◌++◌, map, IfOk, OnOk};
ghost use Rattle.document_printing.specs.Canonical.{services_of, name_of};

use std::alloc::Global;
use std::marker::Model;
use svc_plan::{Leg, ServiceLine};
use svc_value::{Name, Names, OutOfMemory, ServiceId};

/// A declaration of a plan, lent. Contracts see the declaration.
#[derive(Debug, Drop)]
pub(crate) struct ServiceRef<'a> {
    line: &'a ServiceLine,
}

impl<'a> Model for ServiceRef<'a> {
    ghost use Rattle.svc_plan.specs.declared.plan.ServiceLine.{ServiceLine};

    ghost Value = { ServiceLine };

    ghost view = { λ lent. lent.line.now };
}

impl<'a> ServiceRef<'a> {
    /// The declaration in this line.
    pub(crate) fn new(line: &'a ServiceLine) -> Self
        ensures { result ≡ line.now }
    {
        ServiceRef { line }
    }

    /// The declaration, lent as long as the plan is.
    pub(crate) fn get(&self) -> &'a ServiceLine
        ensures { result.now ≡ self.now }
    {
        self.line
    }
}

/// The services that the legs declare.
pub(crate) fn lend_services(alloc: Global, legs: &[Leg]) -> Result<Vec<ServiceRef<'_>>, OutOfMemory>
    ensures { IfOk result (λ services. services.items ≡ services_of legs.now) }
{
    let mut services = Vec::new(alloc);
    for leg in legs {
        lend_more(leg.services.as_slice(), &mut services)?;
    }
    Ok(services)
}

// Appends the services that these lines declare.
fn lend_more<'a>(
    lines: &'a [ServiceLine],
    services: &mut Vec<ServiceRef<'a>>,
) -> Result<(), OutOfMemory>
    ensures { OnOk result (services.new.items ≡ services.old.items ++ lines.now) }
{
    for line in lines {
        services.push(ServiceRef::new(line))?;
    }
    Ok(())
}

/// The name of a service, none if it is not declared.
pub(crate) fn name_of<'a>(services: &[ServiceRef<'a>], id: ServiceId) -> &'a [u8]
    ensures { result.now ≡ name_of services.now id }
{
    match services.get(usize::from(id.0)) {
        Some(service) => service.get().name.as_slice(),
        None => &[],
    }
}

/// The names of services.
pub(crate) fn names_of(
    alloc: Global,
    services: &[ServiceRef<'_>],
    ids: &[ServiceId],
) -> Result<Names, OutOfMemory>
    ensures { IfOk result (λ names. names ≡ map (name_of services.now) ids.now) }
{
    let mut names = Names::new(alloc);
    for id in ids {
        names.push(Name::from_slice(alloc, name_of(services, *id))?)?;
    }
    Ok(names)
}
