// A text goes from service to service, and what is no text is refused.
use super::events::{change_all, derive, open, settle, unborn_of};
use super::offering::{Offer, offer};
use super::services::Service;
use super::written::text_input;
use node_core::TakeRefusal;
use std::alloc::Global;
use std::process::Abort;
use std::test::Fail;
use svc_value::{ServiceId, Value, ValueType};

const X: u16 = 0;

const N: u16 = 1;

const SERVICES: [(&'static str, u16); 2] = [("x", 0), ("n", 1)];

// The input `x` is born as `ab`.
fn opened(alloc: Global, services: &mut [Service]) -> Result<(), Fail> {
    let birth = text_input(alloc, "ab")?;
    open(services, X, &[birth])
}

// And `n` is `x` and a mark; all are at rest.
fn settled(alloc: Global, services: &mut [Service]) -> Result<(), Fail> {
    opened(alloc, services)?;
    derive(alloc, services, N, "x ++ \"!\"", &[ServiceId(X)], &[])?;
    change_all(services)?;
    settle(services, 2)
}

// Whether the last value of the service is this text.
fn is_text(service: &Service, expected: &str) -> bool {
    match service.node().value() {
        Some(Value::Words(text)) => text.as_str() == expected,
        Some(Value::Int(_) | Value::Bad(_)) | None => false,
    }
}

// A number of `x`, a text and a fault.
const OFFERS: [Offer<'static>; 3] = [
    (
        X,
        &[5, 0, 0, 0, 1, 1, 0, 0, 0, 0, 0, 0, 0, 3, 1, 0, 0, 0, 0, 2],
        Some(TakeRefusal::WrongType),
    ),
    (X, &[5, 0, 0, 0, 1, 2, 0, 1, 97, 1, 0, 0, 0, 0, 2], None),
    (X, &[5, 0, 0, 0, 1, 3, 3, 1, 0, 0, 0, 0, 3], None),
];

// The texts are joined, and `n` is offered values of `x`.
fn joined(rt: &impl Abort, alloc: Global, services: &mut [Service]) -> Result<(), Fail> {
    let [x, n] = services else {
        return Err("there are not two services".into());
    };
    assert!(rt; is_text(x, "ab"));
    assert!(rt; is_text(n, "ab!"));
    offer(rt, alloc, n, &OFFERS)
}

// All of it.
fn played(rt: &impl Abort, alloc: Global, services: &mut [Service]) -> Result<(), Fail> {
    settled(alloc, services)?;
    joined(rt, alloc, services)
}

#[test]
fn texts_are_joined(rt: HostRuntime) -> Result<(), Fail> {
    let mut services = unborn_of(rt.alloc(), ValueType::Text, &SERVICES)?;
    played(&rt, rt.alloc(), &mut services)
}
