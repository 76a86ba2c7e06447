// Whether anything is left to do for nodes.
ghost use Rattle.std.specs.Prelude.{◌≡◌, ◌<◌, ◌==◌, length, map};
ghost use Rattle.std.specs.List.{list_all};
ghost use Rattle.service_machine.specs.Draining.{is_work};
ghost use Rattle.service_machine.specs.Steps.{choice_of};
ghost use Rattle.settle_core.specs.Quiet.{is_finished};

use node_core::Node;
use std::marker::Brand;
use std::sync::ledger::{Blank, Ledger};
use svc_value::Steps;

// Whether a turn would take a value or compute; the looks are counted in this book.
fn has_turn_by<L: Ledger>(node: &Node, looks: Blank) -> bool
    requires name { looks.name ≡ L.name }
    requires parts { looks.parts ≡ L.parts }
    requires some { 0 < looks.parts }
    ensures { result ≡ is_work (choice_of node.now.state) }
{
    let mut looks = Steps::<L>::new(looks);
    node.has_turn(&mut looks)
}

// Whether a turn would take a value or compute, with looks that nobody counts.
fn has_turn(node: &Node) -> bool
    ensures { result ≡ is_work (choice_of node.now.state) }
{
    has_turn_by::<Brand>(node, Blank::new(1))
}

/// Whether the node has no change left, and a turn would neither take a value nor compute.
pub(crate) fn is_finished(node: &Node) -> bool
    ensures { result ≡ is_finished node.now }
{
    !node.has_change() && !has_turn(node)
}

/// Whether each node is finished.
pub(crate) fn all_finished(nodes: &[Node]) -> bool
    ensures { result ≡ list_all is_finished nodes.now }
{
    nodes.iter().all(|node| is_finished(node))
}
