// The dependencies of a service.
ghost use Rattle.std.specs.Prelude.{◌≡◌, ◌==◌, ◌∷◌, ◌++◌, [], None, Some, not, filter, length, IfOk, IsSome, OnOk, OnErr};
ghost use Rattle.service_machine.specs.States.{epoch_in, edges_to};

use crate::pairs::{clock_in, leave_out};
use std::alloc::Global;
use std::marker::Model;
use svc_value::{Clock, OutOfMemory, ServiceId};

/// The dependencies of a service in order, each with the epoch of the edge to it. Contracts see the list of the pairs.
#[derive(Debug, Drop)]
pub struct Edges {
    alloc: Global,
    edges: Vec<(ServiceId, Clock)>,
}

impl Model for Edges {
    ghost use Rattle.std.specs.Prelude.{List, ℕ};

    ghost Value = { List (ℕ × ℕ) };

    ghost view = { λ e. e.edges.items };
}

impl Edges {
    /// No edges yet. They take their memory from `alloc`.
    pub fn new(alloc: Global) -> Edges
        ensures { result ≡ [] }
    {
        Edges {
            alloc,
            edges: Vec::new(alloc),
        }
    }

    /// Appends the edge to `id`, to which there is none yet, under `epoch`. After `OutOfMemory` the edges are as they were.
    pub fn add(&mut self, id: ServiceId, epoch: Clock) -> Result<(), OutOfMemory>
        requires { epoch_in self.old id ≡ None }
        ensures ok { OnOk result (self.new ≡ self.old ++ (id, epoch) ∷ []) }
        ensures err { OnErr result (self.new ≡ self.old) }
    {
        self.edges.push((id, epoch))?;
        Ok(())
    }

    /// Takes out the edge to `id`, which has to be there, and answers its epoch.
    pub fn drop_edge(&mut self, id: ServiceId) -> Clock
        requires { IsSome (epoch_in self.old id) }
        ensures epoch { epoch_in self.old id ≡ Some result }
        ensures left { self.new ≡ filter (λ edge. not (edge.0 == id)) self.old }
    {
        let epoch = clock_in(self.edges.as_slice(), id).unwrap();
        leave_out(&mut self.edges, id);
        epoch
    }

    /// The epoch of the edge to `id`; None exactly where there is none.
    pub fn epoch(&self, id: ServiceId) -> Option<Clock>
        ensures { result ≡ epoch_in self.now id }
    {
        clock_in(self.edges.as_slice(), id)
    }

    /// The edges to the services `ids` in this order: those that are here keep their epochs, and the others have the epoch
    /// `clock`. `OutOfMemory` where there is no memory for them.
    pub fn rewired(&self, ids: &[ServiceId], clock: Clock) -> Result<Edges, OutOfMemory>
        ensures { IfOk result (λ edges. edges ≡ edges_to self.now clock ids.now) }
    {
        let mut edges = Vec::with_capacity(self.alloc, ids.len())?;
        for id in ids {
            let epoch = self.epoch(*id).unwrap_or(clock);
            edges.push((*id, epoch))?;
        }
        Ok(Edges {
            alloc: self.alloc,
            edges,
        })
    }

    /// The edges in order, lent.
    pub fn as_slice(&self) -> &[(ServiceId, Clock)]
        ensures { result.now ≡ self.now }
    {
        self.edges.as_slice()
    }

    /// The number of edges.
    pub fn len(&self) -> usize
        ensures { result ≡ length self.now }
    {
        self.edges.len()
    }

    /// Equal edges; `OutOfMemory` where there is no memory for them.
    pub fn copy(&self) -> Result<Edges, OutOfMemory>
        ensures { IfOk result (λ edges. edges ≡ self.now) }
    {
        Ok(Edges {
            alloc: self.alloc,
            edges: Vec::from_slice(self.alloc, self.edges.as_slice())?,
        })
    }
}
