// Lists of services, each with a clock.
ghost use Rattle.std.specs.Prelude.{◌≡◌, ◌<◌, ◌==◌, not, filter, IfSome, IfNone, None, vec_len, vec_capacity};
ghost use Rattle.service_machine.specs.States.{epoch_in, with_clock};

use svc_value::{Clock, ServiceId};

// The clock of the first pair of the service.
pub(crate) fn clock_in(pairs: &[(ServiceId, Clock)], id: ServiceId) -> Option<Clock>
    ensures { result ≡ epoch_in pairs.now id }
{
    for pair in pairs {
        if pair.0 == id {
            return Some(pair.1);
        }
    }
    None
}

// The list without the pairs of the service.
pub(crate) fn leave_out(pairs: &mut Vec<(ServiceId, Clock)>, id: ServiceId)
    ensures { pairs.new.items ≡ filter (λ pair. not (pair.0 == id)) pairs.old.items }
{
    pairs.retain(|pair: &(ServiceId, Clock)| pair.0 != id);
}

// The list with this clock of the service, in the place of the one before or at the end, for which there is room.
#[tactic(auto, using(crate::proofs::PairLemmas::passed, crate::proofs::PairLemmas::replaced, crate::proofs::PairLemmas::appended))]
pub(crate) fn put_clock(pairs: &mut Vec<(ServiceId, Clock)>, id: ServiceId, clock: Clock)
    requires { vec_len pairs.old < vec_capacity pairs.old }
    ensures { pairs.new.items ≡ with_clock id clock pairs.old.items }
{
    for i in 0..pairs.len() {
        if pairs[i].0 == id {
            pairs[i] = (id, clock);
            return;
        }
    }
    pairs.push_reserved((id, clock));
}
