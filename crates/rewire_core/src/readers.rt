// The readers of a service.
ghost use Rattle.std.specs.Prelude.{◌≡◌, ◌==◌, ◌∷◌, ◌++◌, [], not, filter, IfOk, IfErr, OnOk, OnErr, None, Some, if◌then◌else◌};
ghost use Rattle.propagation.specs.Logs.{is_epoch};
ghost use Rattle.propagation.specs.Stamps.{clock_of};
ghost use Rattle.service_machine.specs.States.{epoch_in, with_clock};
ghost use Rattle.service_machine.specs.Refusing.{refuse_subscribe};
ghost use Rattle.service_machine.specs.Refusing.Refusal.{Unknown as Unread};

use crate::ReaderError;
use crate::pairs::{clock_in, leave_out, put_clock};
use std::alloc::Global;
use std::marker::Model;
use svc_value::{Clock, OutOfMemory, ServiceId};

/// The readers of a service in the order of their Subscribes, each with its epoch, and the last epoch that each service ever
/// had as a reader. Contracts see both lists.
#[derive(Debug, Drop)]
pub struct Readers {
    alloc: Global,
    present: Vec<(ServiceId, Clock)>,
    past: Vec<(ServiceId, Clock)>,
}

impl Model for Readers {
    ghost use Rattle.rewire_core.specs.Reading.{Reading};

    ghost Value = { Reading };

    ghost view = { λ r. record { present = r.present.items; past = r.past.items } };
}

impl Readers {
    ghost use Rattle.rewire_core.specs.Refusals.{refusal_in};

    /// No readers yet. They take their memory from `alloc`.
    pub fn new(alloc: Global) -> Readers
        ensures { result ≡ record { present = []; past = [] } }
    {
        Readers {
            alloc,
            present: Vec::new(alloc),
            past: Vec::new(alloc),
        }
    }

    /// `reader` reads from now on, under `epoch`; `above` says that its rank is known to be above that of the service. It is
    /// refused, in this order: `RankNotHigher` exactly where `above` is false; `Twice` exactly where it reads already;
    /// `EpochBack` exactly where its last epoch, or 0 without one, is not below this one; `OutOfMemory` when memory runs out. A
    /// refusal leaves the readers as they were.
    pub fn subscribe(
        &mut self,
        reader: ServiceId,
        above: bool,
        epoch: Clock,
    ) -> Result<(), ReaderError>
        ensures exactly { refusal_in result ≡ refuse_subscribe above (epoch_in self.old.present reader) (clock_of self.old.past reader) epoch }
        ensures ok { OnOk result (self.new ≡ record { present = self.old.present ++ (reader, epoch) ∷ []; past = with_clock reader epoch self.old.past }) }
        ensures err { OnErr result (self.new ≡ self.old) }
    {
        if !above {
            return Err(ReaderError::RankNotHigher);
        }
        if self.epoch(reader).is_some() {
            return Err(ReaderError::Twice);
        }
        let had = self.last_epoch(reader);
        if epoch <= had {
            return Err(ReaderError::EpochBack { had });
        }
        self.present.reserve(1)?;
        self.past.reserve(1)?;
        self.present.push_reserved((reader, epoch));
        put_clock(&mut self.past, reader, epoch);
        Ok(())
    }

    /// `reader` no longer reads. `Unknown` exactly where it does not read under `epoch`; the readers are then as they were. It
    /// never wants memory.
    pub fn unsubscribe(&mut self, reader: ServiceId, epoch: Clock) -> Result<(), ReaderError>
        ensures exactly { refusal_in result ≡ (if is_epoch (epoch_in self.old.present reader) epoch then None else Some Unread) }
        ensures known { IfErr result (λ error. error ≡ ReaderError.Unknown) }
        ensures ok { OnOk result (self.new ≡ record self.old { present = filter (λ pair. not (pair.0 == reader)) self.old.present }) }
        ensures err { OnErr result (self.new ≡ self.old) }
    {
        if self.epoch(reader) != Some(epoch) {
            return Err(ReaderError::Unknown);
        }
        leave_out(&mut self.present, reader);
        Ok(())
    }

    /// The epoch under which `reader` reads; None exactly where it does not.
    pub fn epoch(&self, reader: ServiceId) -> Option<Clock>
        ensures { result ≡ epoch_in self.now.present reader }
    {
        clock_in(self.present.as_slice(), reader)
    }

    /// The last epoch that `reader` ever had, or 0 where it had none.
    #[tactic(auto, using(crate::proofs::PairLemmas::clock_or_zero))]
    pub fn last_epoch(&self, reader: ServiceId) -> Clock
        ensures { result ≡ clock_of self.now.past reader }
    {
        clock_in(self.past.as_slice(), reader).unwrap_or(Clock(0))
    }

    /// The readers in the order of their Subscribes, each with its epoch, lent.
    pub fn as_slice(&self) -> &[(ServiceId, Clock)]
        ensures { result.now ≡ self.now.present }
    {
        self.present.as_slice()
    }

    /// Equal readers; `OutOfMemory` where there is no memory for them.
    pub fn copy(&self) -> Result<Readers, OutOfMemory>
        ensures { IfOk result (λ readers. readers ≡ self.now) }
    {
        Ok(Readers {
            alloc: self.alloc,
            present: Vec::from_slice(self.alloc, self.present.as_slice())?,
            past: Vec::from_slice(self.alloc, self.past.as_slice())?,
        })
    }
}
