// The frames that were sent in the leg and not yet handed over.
ghost use Rattle.std.specs.Prelude.{◌≡◌, ◌+◌, ◌≤◌, ◌<◌, [], ◌∷◌, ◌++◌, length};
ghost use Rattle.std.specs.VecDeque.{deque_len, deque_capacity};
ghost use Rattle.std.specs.Vec.{vec_len, vec_capacity};
ghost use Rattle.node_core.specs.Outbox.{TakesOut};
ghost use Rattle.node_core.specs.OutgoingFrames.{waiting_frames, log_entries};

use crate::Entry;
use crate::outgoing::OutgoingFrame;
use std::collections::VecDeque;
use svc_value::{Bytes, ServiceId};

// Takes out the oldest frame to a service.
#[tactic(auto, using(crate::proofs::OutboxLemmas::none_to))]
pub(crate) fn take_out(outbox: &mut VecDeque<(ServiceId, Bytes)>, to: ServiceId) -> Option<Bytes>
    ensures taken { TakesOut to outbox.old.items outbox.new.items result }
    ensures capacity { deque_capacity outbox.new ≡ deque_capacity outbox.old }
{
    let place = first_to(outbox, to)?;
    let (_, frame) = outbox.remove(place)?;
    Some(frame)
}

// Puts these frames behind the others in the log and in the outbox, which have room for them, and none is left.
#[tactic(auto, using(crate::proofs::OutgoingFrameLemmas::waiting_frames_snoc, crate::proofs::OutgoingFrameLemmas::log_entries_snoc))]
pub(crate) fn put_all(
    log: &mut Vec<Entry>,
    outbox: &mut VecDeque<(ServiceId, Bytes)>,
    outgoing_frames: &mut VecDeque<OutgoingFrame>,
)
    requires log_room { vec_len log.old + length outgoing_frames.old.items ≤ vec_capacity log.old }
    requires room { deque_len outbox.old + length outgoing_frames.old.items ≤ deque_capacity outbox.old }
    ensures entries { log.new.items ≡ log.old.items ++ log_entries outgoing_frames.old.items }
    ensures items { outbox.new.items ≡ outbox.old.items ++ waiting_frames outgoing_frames.old.items }
    ensures left { outgoing_frames.new.items ≡ [] }
    ensures len { deque_len outbox.new ≡ deque_len outbox.old + length outgoing_frames.old.items }
    ensures capacity { deque_capacity outbox.new ≡ deque_capacity outbox.old }
{
    for _ in 0..outgoing_frames.len() {
        let Some(outgoing_frame) = outgoing_frames.pop_front() else {
            return;
        };
        let OutgoingFrame {
            to,
            logged,
            waiting,
        } = outgoing_frame;
        log.push_reserved(Entry::Sent(to, logged));
        outbox.push_back_reserved((to, waiting));
    }
}

// The place of the oldest frame to a service.
fn first_to(outbox: &VecDeque<(ServiceId, Bytes)>, to: ServiceId) -> Option<usize>
    ensures { result ≡ Rattle.node_core.specs.Outbox.first_to to outbox.now.items }
{
    outbox
        .iter()
        .position(|outgoing_frame| outgoing_frame.0 == to)
}
