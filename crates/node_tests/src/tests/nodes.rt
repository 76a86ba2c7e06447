// What a node does leaves it at the definitions that the book has of its service.
ghost use Rattle.std.specs.Prelude.{◌≡◌, ◌<◌, IfOk};
ghost use Rattle.node_tests.specs.Serving.{Keeps, GoesOn};

use super::accepting::accept_all;
use super::written::Written;
use node_core::{Node, TakeRefusal, Turned};
use std::alloc::Global;
use std::marker::Brand;
use std::sync::ledger::{Blank, Ledger};
use std::test::Fail;
use svc_graph::Book;
use svc_value::{Bytes, OutOfMemory, ServiceId, Steps};

/// The leg ends, if there was one, and another one with these changes is opened; the book with them.
pub(crate) fn opened(
    alloc: Global,
    node: &mut Node,
    id: ServiceId,
    mut book: Book,
    written: &[Written],
) -> Result<Book, Fail>
    requires { Keeps id node.old book }
    ensures { IfOk result (λ after. Keeps id node.new after) }
{
    if !node.at_rest() {
        return Err("the node is not at rest".into());
    }
    let changes = accept_all(alloc, &mut book, id, written)?;
    let roster = book.roster()?;
    if usize::from(id.0) >= book.len() {
        return Err("there is no such service".into());
    }
    node.close_leg();
    node.open_leg(&roster, changes)?;
    Ok(book)
}

/// Does the next change; whether there was one.
pub(crate) fn done(node: &mut Node) -> Result<bool, OutOfMemory>
    ensures { GoesOn node.old node.new }
{
    node.do_next()
}

fn turn_with<M: Ledger, L: Ledger>(
    node: &mut Node,
    moves: Blank,
    looks: Blank,
) -> Result<Turned, OutOfMemory>
    requires moves_name { moves.name ≡ M.name }
    requires moves_parts { moves.parts ≡ M.parts }
    requires moves_some { 0 < moves.parts }
    requires looks_name { looks.name ≡ L.name }
    requires looks_parts { looks.parts ≡ L.parts }
    requires looks_some { 0 < looks.parts }
    ensures { GoesOn node.old node.new }
{
    let mut moves = Steps::<M>::new(moves);
    let mut looks = Steps::<L>::new(looks);
    node.turn(&mut moves, &mut looks)
}

/// A turn.
pub(crate) fn turned(node: &mut Node) -> Result<Turned, OutOfMemory>
    ensures { GoesOn node.old node.new }
{
    turn_with::<Brand, Brand>(node, Blank::new(1), Blank::new(1))
}

/// A frame is offered.
pub(crate) fn taken(
    node: &mut Node,
    sender: ServiceId,
    bytes: Bytes,
) -> Result<(), (TakeRefusal, Bytes)>
    ensures { GoesOn node.old node.new }
{
    node.take(sender, bytes)
}

/// The oldest frame to another service is handed over, and given back; whether there was one.
pub(crate) fn given_back(node: &mut Node, to: ServiceId) -> bool
    ensures { GoesOn node.old node.new }
{
    let Some(frame) = node.next_out(to) else {
        return false;
    };
    node.give_back(to, frame);
    true
}

/// The oldest frame to another service is handed over.
pub(crate) fn handed_over(node: &mut Node, to: ServiceId) -> Option<Bytes>
    ensures { GoesOn node.old node.new }
{
    node.next_out(to)
}
