// The canonical text of an expression.
ghost use Rattle.std.specs.Prelude.{◌≡◌, ◌++◌, ◌≤◌, All, List, ℕ, codes, length, OnOk, OnErr};
ghost use Rattle.std.specs.Io.{StartsWith};
ghost use Rattle.std.specs.Str.{IsUtf8};
ghost use Rattle.svc_value.specs.Printed.{between_quotes};
ghost use Rattle.svc_token.specs.Word.{IsName};
ghost use Rattle.svc_expr.specs.Canonical.{IsInOrder, IsWithin, sign_text, has_bracket, bracketed, name_at, canonical_text};
ghost use Rattle.svc_expr.specs.Grammar.{IsReading};
ghost use Rattle.svc_expr.specs.Tree.{IsSmall, Tree, tree_of};
ghost use Rattle.svc_expr.specs.Types.{name_count};

use crate::{Expr, ExprKind, Op};
use svc_value::{MAX_TEXT_LEN, Name, Names, OutOfMemory, Value, ValueText, print_value};

fn sign_text(op: Op) -> &'static str
    ensures { result.now ≡ sign_text op }
{
    match op {
        Op::Add => " + ",
        Op::Sub => " - ",
        Op::Mul => " * ",
        Op::Div => " / ",
        Op::Rem => " % ",
        Op::Join => " ++ ",
        Op::Eq => " = ",
        Op::Ne => " <> ",
        Op::Lt => " < ",
        Op::Le => " <= ",
        Op::Gt => " > ",
        Op::Ge => " >= ",
        Op::And => " and ",
        Op::Or => " or ",
    }
}

fn has_bracket(expr: &Expr) -> bool
    ensures { result ≡ has_bracket (tree_of expr.now) }
{
    match expr.kind.get() {
        ExprKind::Not(_) | ExprKind::Pair(_, _, _) | ExprKind::If(_, _, _) => true,
        ExprKind::Int(_)
        | ExprKind::Words(_)
        | ExprKind::Given(_)
        | ExprKind::Neg(_)
        | ExprKind::Len(_)
        | ExprKind::Number(_)
        | ExprKind::TextOf(_)
        | ExprKind::Sum
        | ExprKind::Count
        | ExprKind::Min
        | ExprKind::Max => false,
    }
}

fn push(text: &str, out: &mut Vec<u8>) -> Result<(), OutOfMemory>
    ensures ok { OnOk result (out.new.items ≡ out.old.items ++ text.now) }
    ensures err { OnErr result (out.new.items ≡ out.old.items) }
{
    out.extend_from_slice(text.as_bytes())?;
    Ok(())
}

fn push_words(text: &ValueText, out: &mut Vec<u8>) -> Result<(), OutOfMemory>
    ensures ok { OnOk result (out.new.items ≡ out.old.items ++ between_quotes text.now) }
    ensures err { OnErr result (out.new.items ≡ out.old.items) }
    ensures within { (length text.now ≤ MAX_TEXT_LEN) × IsUtf8 text.now }
{
    prove!(text.as_str().len() <= MAX_TEXT_LEN);
    let value = Value::Words(text.copy()?);
    print_value(&value, out)
}

fn push_name(names: &[Name], place: u8, out: &mut Vec<u8>) -> Result<(), OutOfMemory>
    ensures ok { OnOk result (out.new.items ≡ out.old.items ++ name_at names.now place) }
    ensures err { OnErr result (out.new.items ≡ out.old.items) }
{
    match names.get(usize::from(place)) {
        Some(name) => {
            out.extend_from_slice(name.as_slice())?;
            Ok(())
        }
        None => Ok(()),
    }
}

// An operand, in brackets where its text does not begin with one.
#[cycle(printing)]
fn append_bracketed(expr: &Expr, names: &[Name], out: &mut Vec<u8>) -> Result<(), OutOfMemory>
    ensures ok { OnOk result (out.new.items ≡ out.old.items ++ bracketed (has_bracket (tree_of expr.now)) (canonical_text names.now (tree_of expr.now))) }
    ensures within { OnOk result (IsWithin (tree_of expr.now)) }
    ensures kept { StartsWith out.new.items out.old.items }
{
    if has_bracket(expr) {
        return append(expr, names, out);
    }
    append_call("(", expr, names, out)
}

// What opens a bracket, an expression, and a bracket that closes.
#[cycle(printing)]
#[tactic(auto, using(crate::proofs::PrintLemmas::kept_behind, crate::proofs::PrintLemmas::kept_same))]
fn append_call(
    opening: &str,
    a: &Expr,
    names: &[Name],
    out: &mut Vec<u8>,
) -> Result<(), OutOfMemory>
    ensures ok { OnOk result (out.new.items ≡ out.old.items ++ (opening.now ++ canonical_text names.now (tree_of a.now) ++ codes ")")) }
    ensures within { OnOk result (IsWithin (tree_of a.now)) }
    ensures kept { StartsWith out.new.items out.old.items }
{
    push(opening, out)?;
    append_then(a, ")", names, out)
}

#[cycle(printing)]
#[tactic(auto, using(crate::proofs::PrintLemmas::kept_behind, crate::proofs::PrintLemmas::kept_same))]
fn append_negated(a: &Expr, names: &[Name], out: &mut Vec<u8>) -> Result<(), OutOfMemory>
    ensures ok { OnOk result (out.new.items ≡ out.old.items ++ (codes "-" ++ bracketed (has_bracket (tree_of a.now)) (canonical_text names.now (tree_of a.now)))) }
    ensures within { OnOk result (IsWithin (tree_of a.now)) }
    ensures kept { StartsWith out.new.items out.old.items }
{
    push("-", out)?;
    append_bracketed(a, names, out)
}

#[cycle(printing)]
#[tactic(auto, using(crate::proofs::PrintLemmas::kept_behind, crate::proofs::PrintLemmas::kept_same))]
fn append_denied(a: &Expr, names: &[Name], out: &mut Vec<u8>) -> Result<(), OutOfMemory>
    ensures ok { OnOk result (out.new.items ≡ out.old.items ++ (codes "(not " ++ bracketed (has_bracket (tree_of a.now)) (canonical_text names.now (tree_of a.now)) ++ codes ")")) }
    ensures within { OnOk result (IsWithin (tree_of a.now)) }
    ensures kept { StartsWith out.new.items out.old.items }
{
    push("(not ", out)?;
    append_bracketed(a, names, out)?;
    push(")", out)
}

// An expression, and what stands behind it.
#[cycle(printing)]
#[tactic(auto, using(crate::proofs::PrintLemmas::kept_behind, crate::proofs::PrintLemmas::kept_same))]
fn append_then(a: &Expr, text: &str, names: &[Name], out: &mut Vec<u8>) -> Result<(), OutOfMemory>
    ensures ok { OnOk result (out.new.items ≡ out.old.items ++ (canonical_text names.now (tree_of a.now) ++ text.now)) }
    ensures within { OnOk result (IsWithin (tree_of a.now)) }
    ensures kept { StartsWith out.new.items out.old.items }
{
    append(a, names, out)?;
    push(text, out)
}

// Two expressions with a text between them, and a bracket that closes.
#[cycle(printing)]
#[tactic(auto, using(crate::proofs::PrintLemmas::kept_behind, crate::proofs::PrintLemmas::kept_same))]
fn append_two(
    a: &Expr,
    text: &str,
    b: &Expr,
    names: &[Name],
    out: &mut Vec<u8>,
) -> Result<(), OutOfMemory>
    ensures ok { OnOk result (out.new.items ≡ out.old.items ++ (canonical_text names.now (tree_of a.now) ++ text.now ++ canonical_text names.now (tree_of b.now) ++ codes ")")) }
    ensures within { OnOk result (IsWithin (tree_of a.now) × IsWithin (tree_of b.now)) }
    ensures kept { StartsWith out.new.items out.old.items }
{
    append_then(a, text, names, out)?;
    append_then(b, ")", names, out)
}

#[cycle(printing)]
#[tactic(auto, using(crate::proofs::PrintLemmas::kept_behind, crate::proofs::PrintLemmas::kept_same))]
fn append_pair(
    op: Op,
    a: &Expr,
    b: &Expr,
    names: &[Name],
    out: &mut Vec<u8>,
) -> Result<(), OutOfMemory>
    ensures ok { OnOk result (out.new.items ≡ out.old.items ++ (codes "(" ++ canonical_text names.now (tree_of a.now) ++ sign_text op ++ canonical_text names.now (tree_of b.now) ++ codes ")")) }
    ensures within { OnOk result (IsWithin (tree_of a.now) × IsWithin (tree_of b.now)) }
    ensures kept { StartsWith out.new.items out.old.items }
{
    push("(", out)?;
    append_two(a, sign_text(op), b, names, out)
}

#[cycle(printing)]
#[tactic(auto, using(crate::proofs::PrintLemmas::kept_behind, crate::proofs::PrintLemmas::kept_same))]
fn append_choice(
    c: &Expr,
    a: &Expr,
    b: &Expr,
    names: &[Name],
    out: &mut Vec<u8>,
) -> Result<(), OutOfMemory>
    ensures ok { OnOk result (out.new.items ≡ out.old.items ++ (codes "(if " ++ canonical_text names.now (tree_of c.now) ++ codes " then " ++ canonical_text names.now (tree_of a.now) ++ codes " else " ++ canonical_text names.now (tree_of b.now) ++ codes ")")) }
    ensures within { OnOk result (IsWithin (tree_of c.now) × IsWithin (tree_of a.now) × IsWithin (tree_of b.now)) }
    ensures kept { StartsWith out.new.items out.old.items }
{
    push("(if ", out)?;
    append_then(c, " then ", names, out)?;
    append_two(a, " else ", b, names, out)
}

// The canonical text; after an error a front of it may stand behind what was there.
#[cycle(printing)]
#[tactic(auto, using(crate::proofs::PrintLemmas::kept_behind, crate::proofs::PrintLemmas::kept_same), unfolding(crate::specs::Canonical::canonical_text))]
fn append(expr: &Expr, names: &[Name], out: &mut Vec<u8>) -> Result<(), OutOfMemory>
    ensures ok { OnOk result (out.new.items ≡ out.old.items ++ canonical_text names.now (tree_of expr.now)) }
    ensures within { OnOk result (IsWithin (tree_of expr.now)) }
    ensures kept { StartsWith out.new.items out.old.items }
{
    match expr.kind.get() {
        ExprKind::Int(number) => print_value(&Value::Int(*number), out),
        ExprKind::Words(text) => push_words(text, out),
        ExprKind::Given(place) => push_name(names, *place, out),
        ExprKind::Neg(a) => append_negated(a, names, out),
        ExprKind::Not(a) => append_denied(a, names, out),
        ExprKind::Pair(op, a, b) => append_pair(*op, a, b, names, out),
        ExprKind::If(c, a, b) => append_choice(c, a, b, names, out),
        ExprKind::Len(a) => append_call("len(", a, names, out),
        ExprKind::Number(a) => append_call("number(", a, names, out),
        ExprKind::TextOf(a) => append_call("text(", a, names, out),
        ExprKind::Sum => push("sum()", out),
        ExprKind::Count => push("count()", out),
        ExprKind::Min => push("min()", out),
        ExprKind::Max => push("max()", out),
    }
}

/// Appends the canonical text of the expression, in which the k-th name stands for `Given(k)`. After `OutOfMemory` `out` is as
/// it was.
pub fn print_expr(expr: &Expr, names: &Names, out: &mut Vec<u8>) -> Result<(), OutOfMemory>
    requires { name_count (tree_of expr.now) ≤ length names.now }
    ensures ok { OnOk result (out.new.items ≡ out.old.items ++ canonical_text names.now (tree_of expr.now)) }
    ensures again { OnOk result (All IsName names.now → IsInOrder names.now (tree_of expr.now) → IsSmall (tree_of expr.now) → IsReading (canonical_text names.now (tree_of expr.now)) (tree_of expr.now) names.now) }
    ensures err { OnErr result (out.new.items ≡ out.old.items) }
{
    let start = out.len();
    let result = append(expr, names.as_slice(), out);
    if result.is_err() {
        out.truncate(start);
    }
    result
}

/// The canonical text of a tree within the limits is read as that tree with the same names, where the names stand in the order
/// of first mention.
pub fn read_again()
    ensures { (names : List (List ℕ)) (e : Tree) → All IsName names → name_count e ≤ length names → IsInOrder names e → IsWithin e → IsSmall e → IsReading (canonical_text names e) e names }
{}
