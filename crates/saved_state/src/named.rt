// The services of a state as its bytes have them.
use svc_expr::Expr;
use svc_value::{Ids, ListOf, Name, Names, Rank, Value, ValueType};

/// A formula whose expression has names.
#[derive(Debug, Drop)]
pub(crate) struct NamedFormula {
    /// The expression.
    pub(crate) expr: Expr,
    /// Its names, in the order of first mention.
    pub(crate) names: Names,
    /// The members, in order.
    pub(crate) members: Ids,
}

/// A definition whose expression has names.
#[derive(Debug, Drop)]
pub(crate) enum NamedDefinition {
    /// The value of an input.
    Input(Value),
    /// The formula of a derived service.
    Derived(NamedFormula),
}

/// A service whose expression has names.
#[derive(Debug, Drop)]
pub(crate) struct NamedRow {
    /// Its name.
    pub(crate) name: Name,
    /// Its rank.
    pub(crate) rank: Rank,
    /// The type of its values.
    pub(crate) ty: ValueType,
    /// What it is defined by.
    pub(crate) definition: NamedDefinition,
}

/// A list of services whose expressions have names.
pub(crate) type NamedRows = ListOf<NamedRow>;
