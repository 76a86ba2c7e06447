// What a service is defined by, and how that changes.
ghost use Rattle.std.specs.Prelude.{◌≡◌, IfOk};

use svc_expr::Expr;
use svc_value::{Ids, OutOfMemory, ServiceId, Value};

/// What defines a derived service: an expression over the values of other services.
#[derive(Debug, Drop)]
pub struct Formula {
    /// The expression.
    pub expr: Expr,
    /// The service of each name of the expression, in the order of first mention.
    pub fixed: Ids,
    /// The members, over whose values the aggregates of the expression go, in order.
    pub members: Ids,
}

/// What defines a service at one clock.
#[derive(Debug, Drop)]
pub enum Definition {
    /// The value of an input.
    Input(Value),
    /// The formula of a derived service.
    Derived(Formula),
}

/// A change of a service.
#[derive(Debug, Drop)]
pub enum Change {
    /// Its first definition.
    Birth(Definition),
    /// Another value for an input.
    Set(Value),
    /// One member more, as the last.
    Add(ServiceId),
    /// One member less.
    Drop(ServiceId),
    /// Another formula for a derived service.
    Define(Formula),
}

impl Formula {
    /// An equal formula; `OutOfMemory` where there is no memory for it.
    pub fn copy(&self) -> Result<Formula, OutOfMemory>
        ensures { IfOk result (λ formula. formula ≡ self.now) }
    {
        let alloc = self.expr.kind.allocator();
        Ok(Formula {
            expr: self.expr.copy()?,
            fixed: Ids::from_slice(alloc, self.fixed.as_slice())?,
            members: Ids::from_slice(alloc, self.members.as_slice())?,
        })
    }
}

impl Definition {
    /// An equal definition; `OutOfMemory` where there is no memory for it.
    pub fn copy(&self) -> Result<Definition, OutOfMemory>
        ensures { IfOk result (λ definition. definition ≡ self.now) }
    {
        Ok(match self {
            Definition::Input(value) => Definition::Input(value.copy()?),
            Definition::Derived(formula) => Definition::Derived(formula.copy()?),
        })
    }
}

impl Change {
    /// An equal change; `OutOfMemory` where there is no memory for it.
    pub fn copy(&self) -> Result<Change, OutOfMemory>
        ensures { IfOk result (λ change. change ≡ self.now) }
    {
        Ok(match self {
            Change::Birth(definition) => Change::Birth(definition.copy()?),
            Change::Set(value) => Change::Set(value.copy()?),
            Change::Add(id) => Change::Add(*id),
            Change::Drop(id) => Change::Drop(*id),
            Change::Define(formula) => Change::Define(formula.copy()?),
        })
    }
}
