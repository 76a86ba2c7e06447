// What is heard of a sender, put into its slot.
ghost use Rattle.std.specs.Prelude.{◌≡◌, ◌<◌, ◌≤◌, ℕ, All, length, OnOk, OnErr, IfOk, IfErr};
ghost use Rattle.propagation.specs.Logs.Frame.{Sources as TheSources, Changed as TheChanged};
ghost use Rattle.propagation.specs.Stamps.{Rise, RisePairs};
ghost use Rattle.pred_queue.specs.Refusals.{refusal_in};
ghost use Rattle.service_machine.specs.Refusing.{refuse_back, refuse_put};
ghost use Rattle.service_machine.specs.States.{announced_to, put as put_to, slot_at, with_slot};
ghost use Rattle.wire_frame.specs.Frames.{pairs};
ghost use Rattle.node_core.specs.Receiving.{place_in, failed_in, Receives, IsReceived, IsRefusedFrame};
ghost use Rattle.node_core.specs.Taking.{TellsOf};
ghost use Rattle.node_core.specs.View.{SameKept};

use crate::TakeRefusal;
use crate::admission::{check_sources, test_value};
use crate::journal::Journal;
use crate::reading::whole_frame;
use crate::received::Received;
use crate::refusing::of_slot;
use pred_queue::{Slot, SlotError};
use std::alloc::Global;
use svc_graph::Kind;
use svc_value::limits::MAX_SERVICES;
use svc_value::{Clock, ServiceId};
use wire_frame::{AnnouncedRef, DeltaRef, FrameRef};

// The place of the slot of a sender.
fn place_of(slots: &[Slot], sender: ServiceId) -> Option<usize>
    ensures { result ≡ place_in slots.now sender }
{
    slots.iter().position(|slot| slot.sender() == sender)
}

// Keys of a sender, of which every test before the slot's was made; the first that are heard of it make its slot.
fn announce(
    alloc: Global,
    slots: &mut Vec<Slot>,
    sender: ServiceId,
    announced: AnnouncedRef<'_>,
) -> Result<(), SlotError>
    requires rise { Rise 0 announced.keys }
    requires below { All (λ key. key < MAX_SERVICES) announced.keys }
    ensures exactly { refusal_in result ≡ refuse_back (slot_at slots.old.items sender).announced announced.entry.epoch }
    ensures ok { OnOk result (slots.new.items ≡ with_slot (announced_to announced.entry.epoch announced.entry.keys (slot_at slots.old.items sender)) slots.old.items) }
    ensures err { OnErr result (slots.new.items ≡ slots.old.items) }
{
    let AnnouncedRef { epoch, keys } = announced;
    let Some(place) = place_of(slots.as_slice(), sender) else {
        if slots.reserve(1).is_err() {
            return Err(SlotError::OutOfMemory);
        }
        let mut slot = Slot::new(alloc, sender, None);
        slot.announce_keys(epoch, keys)?;
        slots.push_reserved(slot);
        return Ok(());
    };
    let slot = &mut slots[place];
    slot.announce_keys(epoch, keys)
}

// A value of a sender, of which every test before the slot's was made.
fn put(
    slots: &mut Vec<Slot>,
    sender: ServiceId,
    own: Clock,
    delta: DeltaRef<'_>,
) -> Result<(), SlotError>
    requires rise { RisePairs 0 (pairs delta.clocks) }
    ensures exactly { refusal_in result ≡ refuse_put (slot_at slots.old.items sender).announced (slot_at slots.old.items sender).carried delta.entry.epoch (pairs delta.entry.clocks) }
    ensures ok { OnOk result (slots.new.items ≡ with_slot (put_to own delta.entry.epoch delta.entry.value (pairs delta.entry.clocks) (slot_at slots.old.items sender)) slots.old.items) }
    ensures err { OnErr result (slots.new.items ≡ slots.old.items) }
{
    let Some(place) = place_of(slots.as_slice(), sender) else {
        return Err(SlotError::NoSources);
    };
    let slot = &mut slots[place];
    let DeltaRef {
        epoch,
        value,
        clocks,
    } = delta;
    match slot.put_places(own, epoch, value, clocks) {
        Ok(_) => Ok(()),
        Err(refused) => Err(refused.0),
    }
}

// Keys of a sender come to the service `id`, if no test fails, and there is room for their entry in the journal.
fn receive_keys(
    alloc: Global,
    roster: &[Kind],
    id: ServiceId,
    slots: &mut Vec<Slot>,
    journal: &mut Journal,
    sender: ServiceId,
    announced: AnnouncedRef<'_>,
) -> Result<(), TakeRefusal>
    requires few { length roster.now ≤ MAX_SERVICES }
    requires rise { Rise 0 announced.keys }
    ensures ok { OnOk result ((own : ℕ) → IsReceived roster.now id own sender (TheSources announced.entry.epoch announced.entry.keys) slots.old.items slots.new.items) }
    ensures room { OnOk result (0 < journal.new.entry_room) }
    ensures same { SameKept journal.old journal.new }
    ensures err { OnErr result (slots.new.items ≡ slots.old.items) }
    ensures refused { IfErr result (TellsOf (failed_in roster.now id slots.old.items sender (TheSources announced.entry.epoch announced.entry.keys))) }
{
    if let Err(error) = check_sources(roster, id, sender, &announced.keys) {
        return Err(error);
    }
    if journal.reserve(0).is_err() {
        return Err(TakeRefusal::OutOfMemory);
    }
    match announce(alloc, slots, sender, announced) {
        Ok(()) => Ok(()),
        Err(error) => Err(of_slot(error)),
    }
}

// A value of a sender comes to the service `id`, if no test fails, and there is room for its entry in the journal.
fn receive_value(
    roster: &[Kind],
    id: ServiceId,
    own: Clock,
    slots: &mut Vec<Slot>,
    journal: &mut Journal,
    sender: ServiceId,
    delta: DeltaRef<'_>,
) -> Result<(), TakeRefusal>
    requires rise { RisePairs 0 (pairs delta.clocks) }
    ensures ok { OnOk result (IsReceived roster.now id own sender (TheChanged delta.entry.epoch delta.entry.value (pairs delta.entry.clocks)) slots.old.items slots.new.items) }
    ensures room { OnOk result (0 < journal.new.entry_room) }
    ensures same { SameKept journal.old journal.new }
    ensures err { OnErr result (slots.new.items ≡ slots.old.items) }
    ensures refused { IfErr result (TellsOf (failed_in roster.now id slots.old.items sender (TheChanged delta.entry.epoch delta.entry.value (pairs delta.entry.clocks)))) }
{
    if let Err(error) = test_value(roster, id, sender, &delta.value) {
        return Err(error);
    }
    if journal.reserve(0).is_err() {
        return Err(TakeRefusal::OutOfMemory);
    }
    match put(slots, sender, own, delta) {
        Ok(()) => Ok(()),
        Err(error) => Err(of_slot(error)),
    }
}

// Bytes of a sender come to the service `id`. Keys and values are put into its slot, if no test fails, and there is room for
// their entry in the journal; what readers ask is told.
pub(crate) fn receive(
    alloc: Global,
    roster: &[Kind],
    id: ServiceId,
    own: Clock,
    slots: &mut Vec<Slot>,
    journal: &mut Journal,
    sender: ServiceId,
    bytes: &[u8],
) -> Result<Received, TakeRefusal>
    requires few { length roster.now ≤ MAX_SERVICES }
    ensures ok { IfOk result (Receives roster.now id own sender bytes.now slots.old.items slots.new.items) }
    ensures room { IfOk result (λ received. received ≡ Received.Put → 0 < journal.new.entry_room) }
    ensures same { SameKept journal.old journal.new }
    ensures err { OnErr result (slots.new.items ≡ slots.old.items) }
    ensures refused { IfErr result (IsRefusedFrame roster.now id sender bytes.now slots.old.items) }
{
    let frame = match whole_frame(alloc, bytes) {
        Ok(frame) => frame,
        Err(refusal) => return Err(refusal),
    };
    match frame {
        FrameRef::Subscribe(epoch) => Ok(Received::Subscribe(epoch)),
        FrameRef::Unsubscribe(epoch) => Ok(Received::Unsubscribe(epoch)),
        FrameRef::Sources(announced) => {
            receive_keys(alloc, roster, id, slots, journal, sender, announced)?;
            Ok(Received::Put)
        }
        FrameRef::Carried(_) => Err(TakeRefusal::Old),
        FrameRef::Changed(delta) => {
            receive_value(roster, id, own, slots, journal, sender, delta)?;
            Ok(Received::Put)
        }
    }
}
