// What the logs of services say.
use node_core::{Computation, Entry};
use svc_value::{Clock, ServiceId, Value};

/// A computation: the value, the clocks that it rests on, and the picks.
pub(crate) type Row<'a> = (i64, &'a [(u16, u32)], &'a [u64]);

// Whether the computation is this one.
fn is_row(computation: &Computation, row: Row<'_>) -> bool {
    let (number, clocks, picks) = row;
    if computation.stamps.len() != clocks.len() || computation.picks.as_slice() != picks {
        return false;
    }
    for (id, clock) in clocks {
        if computation.stamps.get(ServiceId(*id)) != Some(Clock(*clock)) {
            return false;
        }
    }
    match &computation.value {
        Value::Int(value) => *value == number,
        Value::Words(_) | Value::Bad(_) => false,
    }
}

/// Whether the computations of a log are these.
pub(crate) fn computes(log: &[Entry], rows: &[Row<'_>]) -> bool {
    let mut left = rows;
    for entry in log {
        if let Entry::Computed(computation) = entry {
            let [first, rest @ ..] = left else {
                return false;
            };
            if !is_row(computation, *first) {
                return false;
            }
            left = rest;
        }
    }
    left.is_empty()
}

/// A change that was done or a frame that was sent.
#[derive(Clone, Copy)]
pub(crate) enum Done<'a> {
    /// The change after which this is the clock.
    Did(u32),
    /// This frame to this service.
    Sent(u16, &'a [u8]),
}

// Whether the entry says this.
fn says(entry: &Entry, done: Done<'_>) -> bool {
    match (entry, done) {
        (Entry::Did(clock), Done::Did(expected)) => *clock == expected,
        (Entry::Sent(to, bytes), Done::Sent(expected, frame)) => {
            to.0 == expected && bytes.as_slice() == frame
        }
        _ => false,
    }
}

/// Whether the changes and the sent frames of a log are these.
pub(crate) fn makes(log: &[Entry], rows: &[Done<'_>]) -> bool {
    let mut left = rows;
    for entry in log {
        if let Entry::Did(_) | Entry::Sent(_, _) = entry {
            let [first, rest @ ..] = left else {
                return false;
            };
            if !says(entry, *first) {
                return false;
            }
            left = rest;
        }
    }
    left.is_empty()
}

/// Whether a log begins with these.
pub(crate) fn begins(log: &[Entry], rows: &[Done<'_>]) -> bool {
    let mut left = log;
    for done in rows {
        let [entry, rest @ ..] = left else {
            return false;
        };
        if !says(entry, *done) {
            return false;
        }
        left = rest;
    }
    true
}
