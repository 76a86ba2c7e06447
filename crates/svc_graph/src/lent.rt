// Definitions that are lent in their parts.
ghost use Rattle.std.specs.Prelude.{◌≡◌, IfOk};

use crate::{Definition, Formula};
use svc_expr::Expr;
use svc_value::{Ids, OutOfMemory, ServiceId, Value};

/// A formula, lent in its parts.
#[derive(Clone, Copy)]
pub struct FormulaRef<'a> {
    /// The expression.
    pub expr: &'a Expr,
    /// The service of each name of the expression.
    pub fixed: &'a [ServiceId],
    /// The members.
    pub members: &'a [ServiceId],
}

/// A definition, lent in its parts.
#[derive(Clone, Copy)]
pub enum DefinitionRef<'a> {
    /// The value of an input.
    Input(&'a Value),
    /// The formula of a derived service.
    Derived(FormulaRef<'a>),
}

impl<'a> FormulaRef<'a> {
    ghost use Rattle.svc_graph.specs.Lent.{formula_lent};

    /// An equal formula that is not lent; `OutOfMemory` where there is no memory for it.
    pub fn copy(self) -> Result<Formula, OutOfMemory>
        ensures { IfOk result (λ formula. formula ≡ formula_lent self.entry) }
    {
        let alloc = self.expr.kind.allocator();
        Ok(Formula {
            expr: self.expr.copy()?,
            fixed: Ids::from_slice(alloc, self.fixed)?,
            members: Ids::from_slice(alloc, self.members)?,
        })
    }
}

impl<'a> DefinitionRef<'a> {
    ghost use Rattle.svc_graph.specs.Lent.{definition_lent};

    /// An equal definition that is not lent; `OutOfMemory` where there is no memory for it.
    pub fn copy(self) -> Result<Definition, OutOfMemory>
        ensures { IfOk result (λ definition. definition ≡ definition_lent self.entry) }
    {
        Ok(match self {
            DefinitionRef::Input(value) => Definition::Input(value.copy()?),
            DefinitionRef::Derived(formula) => Definition::Derived(formula.copy()?),
        })
    }
}
