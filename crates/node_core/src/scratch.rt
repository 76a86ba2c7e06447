// What an event is made ready in.
use crate::outgoing::Outgoing;
use pred_queue::Emission;
use std::alloc::Global;
use std::mem;
use svc_value::{Clocks, Value};
use wire_frame::PlaceClock;

/// The lists in which events are made ready. They are kept from one event to the next, so that their memory is used again;
/// what they hold means nothing.
#[derive(Drop)]
pub(crate) struct Scratch {
    alloc: Global,
    pub(crate) values: Vec<Value>,
    pub(crate) places: Vec<PlaceClock>,
    outgoing: Outgoing,
    stamps: Clocks,
    joined: Clocks,
}

impl Scratch {
    // Empty lists.
    pub(crate) fn new(alloc: Global) -> Scratch {
        Scratch {
            alloc,
            values: Vec::new(alloc),
            places: Vec::new(alloc),
            outgoing: Outgoing::new(alloc),
            stamps: Clocks::new(alloc),
            joined: Clocks::new(alloc),
        }
    }

    // A list for frames.
    pub(crate) fn take_outgoing(&mut self) -> Outgoing {
        mem::replace(&mut self.outgoing, Outgoing::new(self.alloc))
    }

    // A list for the clocks of new stamps.
    pub(crate) fn take_stamps(&mut self) -> Clocks {
        mem::replace(&mut self.stamps, Clocks::new(self.alloc))
    }

    // A list for the clocks of stamps that are joined.
    pub(crate) fn take_joined(&mut self) -> Clocks {
        mem::replace(&mut self.joined, Clocks::new(self.alloc))
    }

    // A list of frames that is needed no longer.
    pub(crate) fn keep_outgoing(&mut self, outgoing: Outgoing) {
        let _ = mem::replace(&mut self.outgoing, outgoing);
    }

    // Clocks of stamps that were joined to others.
    pub(crate) fn keep_joined(&mut self, clocks: Clocks) {
        let _ = mem::replace(&mut self.joined, clocks);
    }

    // An emission that is needed no longer, if there is one.
    pub(crate) fn keep_stamps(&mut self, emission: Option<Emission>) {
        if let Some(emission) = emission {
            let _ = mem::replace(&mut self.stamps, emission.stamps.into_clocks());
        }
    }
}
