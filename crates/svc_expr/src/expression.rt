// From tokens and texts to expressions.
ghost use Rattle.std.specs.Prelude.{◌≡◌, ℕ, List, IfOk, length};
ghost use Rattle.std.specs.Result.{IsErrOf};
ghost use Rattle.svc_token.specs.declared.token.Token.{Token};
ghost use Rattle.svc_expr.specs.declared.expr.Expr.{Expr};
ghost use Rattle.svc_expr.specs.Tree.{Tree, tree_of, IsSmall};
ghost use Rattle.svc_expr.specs.Grammar.{IsExpression, IsReading};
ghost use Rattle.svc_expr.specs.Names.{Differ};
ghost use Rattle.svc_expr.specs.Types.{name_count};
ghost use Rattle.svc_expr.specs.SizedExpr.{reading, Answers};

use crate::gathering::gather;
use crate::level::Level;
use crate::reading::read;
use crate::{Expr, ExprError, Reading};
use std::alloc::Global;
use svc_token::{CutError, Token, cut};
use svc_value::Name;

// The levels of the text that may be open at once.
const MAX_LEVELS: u32 = 64;

// The tree of all the tokens.
#[tactic(auto, unfolding(crate::specs::SizedExpr::reading))]
fn read_all(alloc: Global, names: &[Name], tokens: &[Token]) -> Result<Expr, ExprError>
    ensures { Answers result (reading names.now tokens.now) }
{
    let (part, rest) = read(alloc, names, Level::Whole, MAX_LEVELS, tokens)?;
    if !rest.is_empty() {
        return Err(ExprError::Bad);
    }
    match part {
        Some(small) => Ok(small.expr),
        None => Err(ExprError::TooLarge),
    }
}

/// Reads the expression that the tokens are. `Bad` exactly where they are not in the grammar; `TooLarge` exactly where the
/// tree has more than 128 nodes or a depth above 32; `OutOfMemory` when memory runs out. The names differ, and are as many
/// as `names_of` says.
pub fn read_tokens(alloc: Global, tokens: &[Token]) -> Result<Reading, ExprError>
    ensures found { IfOk result (λ reading. IsExpression tokens.now (tree_of reading.expr) reading.names × IsSmall (tree_of reading.expr)) }
    ensures count { IfOk result (λ reading. length reading.names ≡ name_count (tree_of reading.expr)) }
    ensures differ { IfOk result (λ reading. Differ reading.names) }
    ensures bad { IsErrOf result ExprError.Bad → (e : Tree) (names : List (List ℕ)) → IsExpression tokens.now e names → ⊥ }
    ensures large { IsErrOf result ExprError.TooLarge → (e : Tree) × (names : List (List ℕ)) × IsExpression tokens.now e names × (IsSmall e → ⊥) }
{
    let names = match gather(alloc, tokens) {
        Ok(names) => names,
        Err(_) => return Err(ExprError::OutOfMemory),
    };
    match read_all(alloc, names.as_slice(), tokens) {
        Ok(expr) => Ok(Reading { expr, names }),
        Err(error) => Err(error),
    }
}

/// Reads the expression that the text is. `Bad` exactly where it is not in the grammar; `TooLarge` exactly where the tree
/// has more than 128 nodes or a depth above 32; `OutOfMemory` when memory runs out. The names differ, and are as many as
/// `names_of` says.
pub fn read_expr(alloc: Global, text: &str) -> Result<Reading, ExprError>
    ensures found { IfOk result (λ reading. IsReading text.now (tree_of reading.expr) reading.names × IsSmall (tree_of reading.expr)) }
    ensures count { IfOk result (λ reading. length reading.names ≡ name_count (tree_of reading.expr)) }
    ensures differ { IfOk result (λ reading. Differ reading.names) }
    ensures bad { IsErrOf result ExprError.Bad → (e : Tree) (names : List (List ℕ)) → IsReading text.now e names → ⊥ }
    ensures large { IsErrOf result ExprError.TooLarge → (e : Tree) × (names : List (List ℕ)) × IsReading text.now e names × (IsSmall e → ⊥) }
{
    let mut tokens = Vec::new(alloc);
    match cut(text.as_bytes(), &mut tokens) {
        Ok(()) => read_tokens(alloc, &tokens),
        Err(CutError::Bad) => Err(ExprError::Bad),
        Err(CutError::OutOfMemory) => Err(ExprError::OutOfMemory),
    }
}

/// No tokens are two expressions, and none has two lists of names.
pub fn one_expression()
    ensures { (tokens : List Token) (a b : Tree) (n m : List (List ℕ)) → IsExpression tokens a n → IsExpression tokens b m → (a ≡ b) × (n ≡ m) }
{}

/// Two expressions with one tree are one.
pub fn one_tree()
    ensures { (a b : Expr) → tree_of a ≡ tree_of b → a ≡ b }
{}

/// No text is two expressions, and none has two lists of names.
pub fn one_reading()
    ensures { (text : List ℕ) (a b : Tree) (n m : List (List ℕ)) → IsReading text a n → IsReading text b m → (a ≡ b) × (n ≡ m) }
{}
