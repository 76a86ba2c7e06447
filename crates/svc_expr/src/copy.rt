// Copies of trees.
ghost use Rattle.std.specs.Prelude.{◌≡◌, IfOk};

use crate::{Boxed, Expr, ExprKind};
use svc_value::OutOfMemory;

impl Expr {
    /// An equal expression; `OutOfMemory` where there is no memory for it.
    pub fn copy(&self) -> Result<Expr, OutOfMemory>
        ensures { IfOk result (λ expr. expr ≡ self.now) }
    {
        let kind = match self.kind.get() {
            ExprKind::Int(number) => ExprKind::Int(*number),
            ExprKind::Words(text) => ExprKind::Words(text.copy()?),
            ExprKind::Given(place) => ExprKind::Given(*place),
            ExprKind::Neg(a) => ExprKind::Neg(a.copy()?),
            ExprKind::Not(a) => ExprKind::Not(a.copy()?),
            ExprKind::Pair(op, a, b) => ExprKind::Pair(*op, a.copy()?, b.copy()?),
            ExprKind::If(c, a, b) => ExprKind::If(c.copy()?, a.copy()?, b.copy()?),
            ExprKind::Len(a) => ExprKind::Len(a.copy()?),
            ExprKind::Number(a) => ExprKind::Number(a.copy()?),
            ExprKind::TextOf(a) => ExprKind::TextOf(a.copy()?),
            ExprKind::Sum => ExprKind::Sum,
            ExprKind::Count => ExprKind::Count,
            ExprKind::Min => ExprKind::Min,
            ExprKind::Max => ExprKind::Max,
        };
        Ok(Expr {
            kind: Boxed::new(self.kind.allocator(), kind)?,
        })
    }
}
