// Services by hand: each is a node, with a book in which its changes are accepted.
use super::accepting::book_of;
use super::nodes::{done, given_back, handed_over, opened, taken, turned};
use super::written::Written;
use node_core::{Node, TakeRefusal, Turned};
use std::alloc::Global;
use std::marker::Model;
use std::test::Fail;
use svc_graph::Book;
use svc_value::{Bytes, OutOfMemory, ServiceId, ValueType};

/// A service of a book.
#[derive(Drop)]
pub(crate) struct Service {
    alloc: Global,
    id: ServiceId,
    node: Node,
    book: Option<Book>,
}

impl Model for Service {
    ghost use Rattle.node_core.specs.View.{NodeView as TheService};

    ghost Value = { TheService };

    ghost use Rattle.svc_expr.specs.contracts.expr.Expr as e;
    ghost use Rattle.std.specs.Coded.{codes};

    ghost coded = { Prim.hlevel (codes, e.the_row.coded) };

    ghost use Rattle.node_tests.specs.Serving.{IsKept};

    ghost view = { λ service. service.node };

    ghost invariant = { λ service. IsKept service.id service.node service.book };
}

impl Service {
    /// The unborn service of this number, among those of these names and ranks and of this type.
    pub(crate) fn new(
        alloc: Global,
        id: ServiceId,
        ty: ValueType,
        services: &[(&str, u16)],
    ) -> Result<Service, Fail> {
        let book = book_of(alloc, ty, services)?;
        if usize::from(id.0) >= book.len() || book.clock(id).0 != 0 {
            return Err("there is no such service".into());
        }
        Ok(Service {
            alloc,
            id,
            node: Node::new(alloc, id),
            book: Some(book),
        })
    }

    /// The leg ends, if there was one, and another one with these changes is opened.
    pub(crate) fn open(&mut self, written: &[Written]) -> Result<(), Fail> {
        let Some(book) = self.book.take() else {
            return Err("the changes of a leg were refused".into());
        };
        let book = opened(self.alloc, &mut self.node, self.id, book, written)?;
        self.book = Some(book);
        Ok(())
    }

    // Does the next change; whether there was one.
    fn do_next(&mut self) -> Result<bool, OutOfMemory> {
        done(&mut self.node)
    }

    /// The next change is done.
    pub(crate) fn change(&mut self) -> Result<(), Fail> {
        if !self.do_next()? {
            return Err("no change is left".into());
        }
        Ok(())
    }

    /// A turn.
    pub(crate) fn turn(&mut self) -> Result<Turned, OutOfMemory> {
        turned(&mut self.node)
    }

    /// A frame is offered.
    pub(crate) fn take(
        &mut self,
        sender: ServiceId,
        bytes: Bytes,
    ) -> Result<(), (TakeRefusal, Bytes)> {
        taken(&mut self.node, sender, bytes)
    }

    /// The oldest frame to another service is handed over.
    pub(crate) fn next_out(&mut self, to: ServiceId) -> Option<Bytes> {
        handed_over(&mut self.node, to)
    }

    /// The oldest frame to another service is handed over, and given back; whether there was one.
    pub(crate) fn give_back(&mut self, to: ServiceId) -> bool {
        given_back(&mut self.node, to)
    }

    /// The node.
    pub(crate) fn node(&self) -> &Node {
        &self.node
    }
}
