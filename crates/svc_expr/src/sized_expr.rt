// Trees within the limits, and why none was read.
ghost use Rattle.svc_expr.specs.declared.sized_expr.TheConstants.{MAX_DEPTH, MAX_NODES};
ghost use Rattle.svc_expr.specs.declared.gathering.TheConstants.{MAX_NAMES};
ghost use Rattle.std.specs.Prelude.{◌≡◌, ◌≤◌};
ghost use Rattle.svc_expr.specs.Tree.{tree_of, nodes, depth};
ghost use Rattle.svc_expr.specs.Types.{name_count};

use crate::Expr;

/// The most nodes of a tree.
pub(crate) const MAX_NODES: u32 = 128;

/// The greatest depth of a tree.
pub(crate) const MAX_DEPTH: u32 = 32;

/// A tree within the limits, with its size.
#[derive(Debug, Drop)]
pub(crate) struct SizedExpr {
    pub(crate) expr: Expr,
    pub(crate) count: u32,
    pub(crate) height: u32,
    ghost counted: { count ≡ nodes (tree_of expr) },
    ghost measured: { height ≡ depth (tree_of expr) },
    ghost few: { count ≤ MAX_NODES },
    ghost low: { height ≤ MAX_DEPTH },
    ghost named: { name_count (tree_of expr) ≤ MAX_NAMES },
}

/// Why nothing was read.
#[derive(Debug, Drop)]
pub(crate) enum ReadError {
    /// Out of memory.
    Memory,
    /// The tokens are not in the grammar.
    Bad,
}
