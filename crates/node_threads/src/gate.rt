// What is called before each turn.
use node_core::Node;

/// What is called before each turn of a worker. Threads share it. No promise depends on it.
pub trait Gate: Sync {
    /// The service `service` is about to take its turn of this number, counted from 1; at the greatest number the number stays.
    /// `node` is its node. The turn is taken when the call has returned.
    fn at_turn(&self, service: u16, number: u32, node: &Node);
}

/// A gate that does nothing.
#[derive(Clone, Copy, Debug)]
pub struct NoGate;

impl Gate for NoGate {
    fn at_turn(&self, _service: u16, _number: u32, _node: &Node) {}
}
