// Frames that are offered to one service.
use super::services::Service;
use node_core::TakeRefusal;
use pred_queue::Emission;
use std::alloc::Global;
use std::process::Abort;
use std::test::Fail;
use svc_value::{Bytes, Clock, ServiceId, Value};

/// A sender, its bytes, and why they are refused, if they are.
pub(crate) type Offer<'a> = (u16, &'a [u8], Option<TakeRefusal>);

// What can be seen of a node: how many entries its log has, whether it is at rest, the value of its last emission, and the clocks
// of the services 0 and 1 in it.
#[derive(Clone, Copy, Debug, PartialEq, Eq)]
struct Seen {
    entries: usize,
    rests: bool,
    value: Option<i64>,
    clocks: (Option<Clock>, Option<Clock>),
}

// The value of an emission, and the clocks of the services 0 and 1 in it.
fn parts(last: Option<&Emission>) -> (Option<i64>, (Option<Clock>, Option<Clock>)) {
    let Some(emission) = last else {
        return (None, (None, None));
    };
    let clocks = (
        emission.stamps.get(ServiceId(0)),
        emission.stamps.get(ServiceId(1)),
    );
    match &emission.value {
        Value::Int(number) => (Some(*number), clocks),
        Value::Words(_) | Value::Bad(_) => (None, clocks),
    }
}

fn sight_of(service: &Service) -> Seen {
    let (value, clocks) = parts(service.node().last());
    Seen {
        entries: service.node().log().len(),
        rests: service.node().at_rest(),
        value,
        clocks,
    }
}

// The answer to bytes; those that are refused come back, and nothing changes by them.
fn offered(
    rt: &impl Abort,
    alloc: Global,
    service: &mut Service,
    sender: u16,
    bytes: &[u8],
) -> Result<Option<TakeRefusal>, Fail> {
    let before = sight_of(service);
    match service.take(ServiceId(sender), Bytes::from_slice(alloc, bytes)?) {
        Ok(()) => {
            assert!(rt; before.entries < sight_of(service).entries);
            Ok(None)
        }
        Err((refusal, back)) => {
            assert_eq!(rt; back.as_slice(), bytes);
            assert_eq!(rt; sight_of(service), before);
            Ok(Some(refusal))
        }
    }
}

/// These frames are offered in order, and answered so.
pub(crate) fn offer(
    rt: &impl Abort,
    alloc: Global,
    service: &mut Service,
    offers: &[Offer<'_>],
) -> Result<(), Fail> {
    for (sender, bytes, refusal) in offers {
        let answer = offered(rt, alloc, service, *sender, bytes)?;
        assert_eq!(rt; answer, *refusal, "{bytes:?} of {sender}");
    }
    Ok(())
}

/// The next frame of a service to another one is this one; none where there are no bytes.
pub(crate) fn sends(rt: &impl Abort, service: &mut Service, to: u16, expected: &[u8]) {
    match service.next_out(ServiceId(to)) {
        None => assert!(rt; expected.is_empty()),
        Some(bytes) => assert_eq!(rt; bytes.as_slice(), expected),
    }
}
