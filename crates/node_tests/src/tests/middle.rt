// A service between two others.
use super::services::Service;
use super::written::derived;
use std::alloc::Global;
use std::test::Fail;
use svc_value::{ServiceId, ValueType};

const SERVICES: [(&'static str, u16); 3] = [("x", 0), ("n", 1), ("r", 2)];

/// The unborn service of number 1 and rank 1; the service 0 has the rank 0, and the service 2 the rank 2.
pub(crate) fn middle(alloc: Global) -> Result<Service, Fail> {
    Service::new(alloc, ServiceId(1), ValueType::Int, &SERVICES)
}

// Its birth, by which it names the service 0, is to be done.
fn opened(alloc: Global, service: &mut Service) -> Result<(), Fail> {
    let birth = derived(alloc, "x", &[ServiceId(0)], &[])?;
    service.open(&[birth])
}

/// It names the service 0, and has done its birth.
pub(crate) fn born(alloc: Global, service: &mut Service) -> Result<(), Fail> {
    opened(alloc, service)?;
    service.change()
}
