// A service at work apart from the others.
ghost use Rattle.std.specs.Prelude.{◌≡◌};
ghost use Rattle.settle_core.specs.Inside.Working.{IsOf, IsWorker};
ghost use Rattle.settle_core.specs.Rings.{ringed};

use crate::wired::WiredNode;
use svc_value::ServiceId;

/// A service at work: its node, and the ends of a ring to and of a ring from each service that it may speak to in the leg. Whatever
/// its calls do, its log keeps the rules with the opening of its node; the items that were handed to a ring are the first frames that
/// it sent to that service, in order; and the items that were received from a ring are the frames that it took from that service, in
/// order, and then at most one that it could not take. Its peers are the services to which it has a ring, rising; a service that is no
/// peer has no frame that waits for it.
#[derive(Drop)]
pub struct Worker {
    pub(crate) id: ServiceId,
    pub(crate) wired: WiredNode,
    pub(crate) peers: Vec<ServiceId>,
    ghost log: { ∥ IsOf id wired.node ∥₁ },
    ghost kept: { IsWorker wired },
    ghost ringed: { peers.items ≡ ringed 0 wired.to.items },
}
