// Events of services, and the frames between them. A service is named by its number.
use super::services::Service;
use super::written::{Written, define, derived};
use node_core::{Entry, Turned};
use std::alloc::Global;
use std::process::Abort;
use std::test::Fail;
use svc_value::{Bytes, ServiceId, ValueType};

// The most frames that wait between two services, and the most rounds until all are at rest.
const MANY: usize = 64;

/// What a service is to do.
#[derive(Clone, Copy, Debug)]
pub(crate) enum Event {
    /// Its next change.
    Do(u16),
    /// A turn.
    Turn(u16),
    /// The first service takes the oldest frame that the second sent to it.
    Take(u16, u16),
}

/// What came of it.
#[derive(Clone, Copy, Debug, PartialEq, Eq)]
pub(crate) enum Happened {
    /// The change was done.
    Did,
    /// The frame was taken.
    Took,
    /// There was no frame.
    Idle,
    /// The answer to the turn.
    Turned(Turned),
}

// One service more, unborn.
fn add(
    alloc: Global,
    nodes: &mut Vec<Service>,
    id: u16,
    ty: ValueType,
    services: &[(&str, u16)],
) -> Result<(), Fail> {
    let service = Service::new(alloc, ServiceId(id), ty, services)?;
    Ok(nodes.push(service)?)
}

/// The services of these names and ranks and of this type, unborn.
pub(crate) fn unborn_of(
    alloc: Global,
    ty: ValueType,
    services: &[(&str, u16)],
) -> Result<Vec<Service>, Fail> {
    let mut nodes = Vec::new(alloc);
    let mut id = 0u16;
    for _ in services {
        add(alloc, &mut nodes, id, ty, services)?;
        id = id.wrapping_add(1);
    }
    Ok(nodes)
}

/// Those of whole numbers.
pub(crate) fn unborn(alloc: Global, services: &[(&str, u16)]) -> Result<Vec<Service>, Fail> {
    unborn_of(alloc, ValueType::Int, services)
}

/// The next leg of a service has these changes.
pub(crate) fn open(services: &mut [Service], id: u16, changes: &[Written]) -> Result<(), Fail> {
    let Some(service) = services.get_mut(usize::from(id)) else {
        return Err("there is no such service".into());
    };
    service.open(changes)
}

/// The next leg of a service is its birth by this formula.
pub(crate) fn derive(
    alloc: Global,
    services: &mut [Service],
    id: u16,
    text: &str,
    fixed: &[ServiceId],
    members: &[ServiceId],
) -> Result<(), Fail> {
    let birth = derived(alloc, text, fixed, members)?;
    open(services, id, &[birth])
}

/// The next leg of a service brings this formula in place of the one before.
pub(crate) fn redefine(
    alloc: Global,
    services: &mut [Service],
    id: u16,
    text: &str,
    fixed: &[ServiceId],
    members: &[ServiceId],
) -> Result<(), Fail> {
    let change = define(alloc, text, fixed, members)?;
    open(services, id, &[change])
}

/// The log of a service; empty where there is no such service.
pub(crate) fn log(services: &[Service], id: u16) -> &[Entry] {
    match services.get(usize::from(id)) {
        None => &[],
        Some(service) => service.node().log(),
    }
}

// The service of this number does its next change.
fn change(services: &mut [Service], id: u16) -> Result<(), Fail> {
    let Some(service) = services.get_mut(usize::from(id)) else {
        return Err("there is no such service".into());
    };
    service.change()
}

// It takes a turn.
fn turn(services: &mut [Service], id: u16) -> Result<Turned, Fail> {
    let Some(service) = services.get_mut(usize::from(id)) else {
        return Err("there is no such service".into());
    };
    Ok(service.turn()?)
}

// The oldest frame from one service to another.
fn out(services: &mut [Service], from: u16, to: u16) -> Option<Bytes> {
    services.get_mut(usize::from(from))?.next_out(ServiceId(to))
}

// A service takes a frame.
fn into(services: &mut [Service], to: u16, from: u16, bytes: Bytes) -> Result<(), Fail> {
    let Some(service) = services.get_mut(usize::from(to)) else {
        return Err("there is no such service".into());
    };
    if service.take(ServiceId(from), bytes).is_err() {
        return Err("a frame is refused".into());
    }
    Ok(())
}

/// The first service takes the oldest frame of the second; whether there was one.
pub(crate) fn take(services: &mut [Service], to: u16, from: u16) -> Result<bool, Fail> {
    let Some(bytes) = out(services, from, to) else {
        return Ok(false);
    };
    into(services, to, from, bytes)?;
    Ok(true)
}

// An event.
fn answer_of(services: &mut [Service], event: Event) -> Result<Happened, Fail> {
    match event {
        Event::Do(id) => {
            change(services, id)?;
            Ok(Happened::Did)
        }
        Event::Turn(id) => Ok(Happened::Turned(turn(services, id)?)),
        Event::Take(to, from) => {
            if take(services, to, from)? {
                Ok(Happened::Took)
            } else {
                Ok(Happened::Idle)
            }
        }
    }
}

/// These events happen, and this comes of each.
pub(crate) fn happen(
    rt: &impl Abort,
    services: &mut [Service],
    events: &[(Event, Happened)],
) -> Result<(), Fail> {
    for (event, expected) in events {
        assert_eq!(rt; answer_of(services, *event)?, *expected, "{event:?}");
    }
    Ok(())
}

// Each service does its next change.
pub(crate) fn change_all(services: &mut [Service]) -> Result<(), Fail> {
    for service in services {
        service.change()?;
    }
    Ok(())
}

// Turns until nothing comes of it.
fn turn_on(service: &mut Service) -> Result<(), Fail> {
    for _ in 0..MANY {
        match service.turn()? {
            Turned::Computed | Turned::Advanced => continue,
            Turned::Empty(_) | Turned::Lags { .. } | Turned::Still => break,
        }
    }
    Ok(())
}

// All frames of one service to another are taken.
fn take_all(services: &mut [Service], to: u16, from: u16) -> Result<(), Fail> {
    for _ in 0..MANY {
        if !take(services, to, from)? {
            break;
        }
    }
    Ok(())
}

// All frames to a service are taken.
fn hear_all(services: &mut [Service], to: u16, count: u16) -> Result<(), Fail> {
    for from in 0..count {
        take_all(services, to, from)?;
    }
    Ok(())
}

// All frames are carried, and each service turns.
fn round(services: &mut [Service], count: u16) -> Result<(), Fail> {
    for to in 0..count {
        hear_all(services, to, count)?;
    }
    for service in services {
        turn_on(service)?;
    }
    Ok(())
}

// Whether all are at rest.
fn all_rest(services: &[Service]) -> bool {
    for service in services {
        if !service.node().at_rest() {
            return false;
        }
    }
    true
}

/// Frames are carried between so many services, all that there are, and they turn, until all are at rest.
pub(crate) fn settle(services: &mut [Service], count: u16) -> Result<(), Fail> {
    for _ in 0..MANY {
        if all_rest(services) {
            return Ok(());
        }
        round(services, count)?;
    }
    Err("the services are not at rest".into())
}
