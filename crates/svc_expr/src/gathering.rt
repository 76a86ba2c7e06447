// The names in a list of tokens.
ghost use Rattle.std.specs.Prelude.{◌≡◌, ◌≤◌, [], ◌∷◌, ℕ, List, length, take, IfOk, OnOk};
ghost use Rattle.svc_expr.specs.Grammar.{with_names, names_among};

use crate::operators::place_of;
use std::alloc::Global;
use svc_token::Token;
use svc_value::{Name, Names, OutOfMemory};

// The most names that are kept: more than any tree within the limits has.
pub(crate) const MAX_NAMES: usize = 256;

// Appends a name where it is not among the names, and where there are fewer than 256.
fn add(alloc: Global, names: &mut Names, name: &[u8]) -> Result<(), OutOfMemory>
    requires { length names.old ≤ MAX_NAMES }
    ensures most { OnOk result (length names.new ≤ MAX_NAMES) }
    ensures added { OnOk result ((more : List (List ℕ)) → take MAX_NAMES (with_names names.new more) ≡ take MAX_NAMES (with_names names.old (name.now ∷ more))) }
{
    let count = names.len();
    if count == MAX_NAMES {
        return Ok(());
    }
    if place_of(names.as_slice(), name) < count {
        return Ok(());
    }
    names.push(Name::from_slice(alloc, name)?)
}

/// The first 256 of the names in the tokens, in the order of first mention.
pub(crate) fn gather(alloc: Global, tokens: &[Token]) -> Result<Names, OutOfMemory>
    ensures { IfOk result (λ names. names ≡ take MAX_NAMES (with_names [] (names_among tokens.now))) }
{
    let mut names = Names::new(alloc);
    for token in tokens {
        if let Token::Name(name) = token {
            add(alloc, &mut names, name.as_str().as_bytes())?;
        }
    }
    Ok(names)
}
