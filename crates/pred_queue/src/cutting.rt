// What of a slot is live.
ghost use Rattle.std.specs.Prelude.{◌≡◌};
ghost use Rattle.service_machine.specs.States.{is_live as live, cut_head, cut_queue as queue_cut};
ghost use Rattle.service_machine.specs.Openings.{first_head};

use crate::held::{Held, Waiting};
use std::collections::VecDeque;
use svc_value::Clock;

// Whether a value under the epoch is, or may yet become, one of the edge.
pub(crate) fn is_live(edge: &Option<Clock>, own: Clock, epoch: Clock) -> bool
    ensures { result ≡ live edge.now own epoch }
{
    if own < epoch {
        return true;
    }
    match edge {
        None => false,
        Some(present) => *present == epoch,
    }
}

// The head, if its epoch is live.
pub(crate) fn live_head(head: Option<Held>, edge: &Option<Clock>, clock: Clock) -> Option<Held>
    ensures { result ≡ cut_head edge.now clock head }
{
    match head {
        None => None,
        Some(held) => {
            if is_live(edge, clock, held.epoch) {
                Some(held)
            } else {
                None
            }
        }
    }
}

// Drops what waits under an epoch that is not live.
pub(crate) fn cut_queue(queue: &mut VecDeque<Waiting>, edge: &Option<Clock>, clock: Clock)
    ensures { queue.new.items ≡ queue_cut edge.now clock queue.old.items }
{
    queue.retain(|waiting: &Waiting| is_live(edge, clock, waiting.epoch));
}

// The head, with the number 0.
pub(crate) fn first(head: Option<Held>) -> Option<Held>
    ensures { result ≡ first_head head }
{
    match head {
        None => None,
        Some(held) => Some(Held {
            epoch: held.epoch,
            number: 0,
            emission: held.emission,
        }),
    }
}
