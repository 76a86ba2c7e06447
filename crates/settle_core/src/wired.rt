// A node with the ends of its rings.
ghost use Rattle.std.specs.Prelude.{◌≡◌, length};
ghost use Rattle.svc_value.specs.declared.limits.TheConstants.{MAX_SERVICES};

use link_fifo::{PieceIn, PieceOut};
use node_core::Node;
use svc_value::Bytes;
use svc_value::limits::MAX_SERVICES;

/// A node, and at the place of each service the end of the ring to it, the end of the ring from it, and the frame that was received
/// from it and not taken. There are 64 places.
#[derive(Drop)]
pub(crate) struct WiredNode {
    pub node: Node,
    pub to: Vec<Option<PieceOut>>,
    pub from: Vec<Option<PieceIn>>,
    pub held: Vec<Option<Bytes>>,
    ghost to_wide: { length to.items ≡ MAX_SERVICES },
    ghost from_wide: { length from.items ≡ MAX_SERVICES },
    ghost held_wide: { length held.items ≡ MAX_SERVICES },
}
