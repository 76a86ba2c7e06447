// Frames that a service takes.
ghost use Rattle.std.specs.Prelude.{◌≡◌, IfErr, OnOk, None};
ghost use Rattle.propagation.specs.Logs.Frame.{Subscribe as TheSubscribe, Unsubscribe as TheUnsubscribe};
ghost use Rattle.service_machine.specs.Steps.{after_taking, took_log};
ghost use Rattle.wire_frame.specs.declared.frame.Frame.TheVariants.{Subscribe as IsSubscribe, Unsubscribe as IsUnsubscribe};
ghost use Rattle.wire_frame.specs.Frames.{FrameOf};
ghost use Rattle.node_core.specs.declared.entry.Entry.TheVariants.{Took};

use super::Node;
use crate::outgoing::Outgoing;
use crate::ranks::is_below;
use crate::received::Received;
use crate::receiving::receive;
use crate::refusing::of_readers;
use crate::welcome::staged_welcome;
use crate::{Entry, TakeRefusal};
use svc_value::{Bytes, Clock, ServiceId};

impl Node {
    ghost use Rattle.node_core.specs.View.{Grows, Logs};
    ghost use Rattle.node_core.specs.Taking.{IsRefused, Takes, TellsOf, failed_test};

    // A reader comes, and is told the last emission.
    fn take_subscribe(
        &mut self,
        sender: ServiceId,
        epoch: Clock,
        bytes: Bytes,
    ) -> Result<(), (TakeRefusal, Bytes)>
        requires frame { FrameOf (IsSubscribe epoch) bytes }
        ensures tested { OnOk result (failed_test self.old sender (TheSubscribe epoch) ≡ None) }
        ensures state { OnOk result (self.new.state ≡ after_taking sender (TheSubscribe epoch) self.old.state) }
        ensures log { OnOk result (Grows self.old self.new (took_log sender (TheSubscribe epoch) self.old.state)) }
        ensures took { OnOk result (Logs (Took sender bytes) self.old self.new) }
        ensures err { IfErr result (λ refused. (self.new ≡ self.old) × (refused.1 ≡ bytes)) }
        ensures refused { IfErr result (λ refused. TellsOf (failed_test self.old sender (TheSubscribe epoch)) refused.0) }
    {
        let Ok(outgoing) = staged_welcome(
            self.alloc,
            &mut self.journal,
            sender,
            epoch,
            &self.last,
            &mut self.scratch,
        ) else {
            return Err((TakeRefusal::OutOfMemory, bytes));
        };
        let above = is_below(self.roster.as_slice(), self.id, sender);
        if let Err(error) = self.readers.subscribe(sender, above, epoch) {
            return Err((of_readers(error), bytes));
        }
        let outgoing = self.journal.record(Entry::Took(sender, bytes), outgoing);
        self.scratch.keep_outgoing(outgoing);
        Ok(())
    }

    // A reader goes.
    fn take_unsubscribe(
        &mut self,
        sender: ServiceId,
        epoch: Clock,
        bytes: Bytes,
    ) -> Result<(), (TakeRefusal, Bytes)>
        requires frame { FrameOf (IsUnsubscribe epoch) bytes }
        ensures tested { OnOk result (failed_test self.old sender (TheUnsubscribe epoch) ≡ None) }
        ensures state { OnOk result (self.new.state ≡ after_taking sender (TheUnsubscribe epoch) self.old.state) }
        ensures log { OnOk result (Grows self.old self.new (took_log sender (TheUnsubscribe epoch) self.old.state)) }
        ensures took { OnOk result (Logs (Took sender bytes) self.old self.new) }
        ensures err { IfErr result (λ refused. (self.new ≡ self.old) × (refused.1 ≡ bytes)) }
        ensures refused { IfErr result (λ refused. TellsOf (failed_test self.old sender (TheUnsubscribe epoch)) refused.0) }
    {
        if self.journal.reserve(0).is_err() {
            return Err((TakeRefusal::OutOfMemory, bytes));
        }
        if let Err(error) = self.readers.unsubscribe(sender, epoch) {
            return Err((of_readers(error), bytes));
        }
        let _ = self
            .journal
            .record(Entry::Took(sender, bytes), Outgoing::new(self.alloc));
        Ok(())
    }

    /// Takes a frame of `sender`, which is logged with its bytes, and does as the protocol says: a reader comes or goes, keys
    /// are announced, or a value is put into the sender's slot. A new reader is sent the last emission, if there is one.
    ///
    /// It is refused, in this order: `Frame` exactly where the bytes are not just one frame; `Old` exactly where the frame is
    /// a value of version 1; then as the first test says that fails of the message, in the order of the variants. Want of
    /// memory may come in place of any answer. A refusal hands the bytes back and leaves the node as it was.
    pub fn take(&mut self, sender: ServiceId, bytes: Bytes) -> Result<(), (TakeRefusal, Bytes)>
        ensures ok { OnOk result (Takes sender bytes self.old self.new) }
        ensures took { OnOk result (Logs (Took sender bytes) self.old self.new) }
        ensures err { IfErr result (λ refused. (self.new ≡ self.old) × (refused.1 ≡ bytes)) }
        ensures refused { IfErr result (λ refused. IsRefused self.old sender bytes refused.0) }
    {
        let roster = self.roster.as_slice();
        let (slots, journal) = (&mut self.slots, &mut self.journal);
        let (id, own) = (self.id, self.own);
        let lent = bytes.as_slice();
        let received = match receive(self.alloc, roster, id, own, slots, journal, sender, lent) {
            Ok(received) => received,
            Err(refusal) => return Err((refusal, bytes)),
        };
        match received {
            Received::Subscribe(epoch) => self.take_subscribe(sender, epoch, bytes),
            Received::Unsubscribe(epoch) => self.take_unsubscribe(sender, epoch, bytes),
            Received::Put => {
                let outgoing = Outgoing::new(self.alloc);
                let _ = self.journal.record(Entry::Took(sender, bytes), outgoing);
                Ok(())
            }
        }
    }
}
