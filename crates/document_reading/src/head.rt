// The head of a line: what it says up to its literal or its expression.
ghost use Rattle.std.specs.Prelude.{◌≡◌, option_map};
ghost use Rattle.document_reading.specs.Reading.{input_at, derived_at, set_at, define_at, add_at, drop_at, take_at, do_at, turn_at, head_by, head_at};

use crate::front::{equated, named, ranked, sent_from, typed};
use crate::statement::Statement;
use svc_token::{Keyword, NameRef, Token};
use svc_value::ValueType;

/// What a line says up to its literal or its expression.
#[derive(Debug, Drop)]
pub(crate) enum Head<'a> {
    /// All that it says; nothing may follow.
    Whole(Statement<'a>),
    /// It declares an input of this type; the first value follows.
    Input(NameRef<'a>, ValueType),
    /// It declares a derived service of this type and rank; what it computes by follows.
    Derived(NameRef<'a>, ValueType, u64),
    /// It gives an input the value that follows.
    Set(NameRef<'a>),
    /// It gives a derived service what follows to compute by.
    Define(NameRef<'a>),
}

// What follows `input`, up to the literal.
#[tactic(auto, unfolding(crate::specs::Reading::input_at))]
fn input<'t, 'a>(tokens: &'t [Token<'a>]) -> Option<(Head<'a>, &'t [Token<'a>])>
    ensures { option_map (λ x. (x.0, x.1.now)) result ≡ input_at tokens.now }
{
    let (name, rest) = named(tokens)?;
    let (ty, rest) = typed(rest)?;
    let rest = equated(rest)?;
    Some((Head::Input(name, ty), rest))
}

// What follows `derived`, up to the expression.
#[tactic(auto, unfolding(crate::specs::Reading::derived_at))]
fn derived<'t, 'a>(tokens: &'t [Token<'a>]) -> Option<(Head<'a>, &'t [Token<'a>])>
    ensures { option_map (λ x. (x.0, x.1.now)) result ≡ derived_at tokens.now }
{
    let (name, rest) = named(tokens)?;
    let (ty, rest) = typed(rest)?;
    let (rank, rest) = ranked(rest)?;
    let rest = equated(rest)?;
    Some((Head::Derived(name, ty, rank), rest))
}

// What follows `set`, up to the literal.
#[tactic(auto, unfolding(crate::specs::Reading::set_at))]
fn set<'t, 'a>(tokens: &'t [Token<'a>]) -> Option<(Head<'a>, &'t [Token<'a>])>
    ensures { option_map (λ x. (x.0, x.1.now)) result ≡ set_at tokens.now }
{
    let (name, rest) = named(tokens)?;
    let rest = equated(rest)?;
    Some((Head::Set(name), rest))
}

// What follows `define`, up to the expression.
#[tactic(auto, unfolding(crate::specs::Reading::define_at))]
fn define<'t, 'a>(tokens: &'t [Token<'a>]) -> Option<(Head<'a>, &'t [Token<'a>])>
    ensures { option_map (λ x. (x.0, x.1.now)) result ≡ define_at tokens.now }
{
    let (name, rest) = named(tokens)?;
    let rest = equated(rest)?;
    Some((Head::Define(name), rest))
}

// What follows `add`.
#[tactic(auto, unfolding(crate::specs::Reading::add_at))]
fn add<'t, 'a>(tokens: &'t [Token<'a>]) -> Option<(Head<'a>, &'t [Token<'a>])>
    ensures { option_map (λ x. (x.0, x.1.now)) result ≡ add_at tokens.now }
{
    let (reader, rest) = named(tokens)?;
    let (member, rest) = named(rest)?;
    Some((Head::Whole(Statement::Add(reader, member)), rest))
}

// What follows `drop`.
#[tactic(auto, unfolding(crate::specs::Reading::drop_at))]
fn drop_member<'t, 'a>(tokens: &'t [Token<'a>]) -> Option<(Head<'a>, &'t [Token<'a>])>
    ensures { option_map (λ x. (x.0, x.1.now)) result ≡ drop_at tokens.now }
{
    let (reader, rest) = named(tokens)?;
    let (member, rest) = named(rest)?;
    Some((Head::Whole(Statement::Drop(reader, member)), rest))
}

// What follows `take`.
#[tactic(auto, unfolding(crate::specs::Reading::take_at))]
fn take<'t, 'a>(tokens: &'t [Token<'a>]) -> Option<(Head<'a>, &'t [Token<'a>])>
    ensures { option_map (λ x. (x.0, x.1.now)) result ≡ take_at tokens.now }
{
    let (reader, rest) = named(tokens)?;
    let rest = sent_from(rest)?;
    let (sender, rest) = named(rest)?;
    Some((Head::Whole(Statement::Take(reader, sender)), rest))
}

// What follows `do`.
#[tactic(auto, unfolding(crate::specs::Reading::do_at))]
fn do_next<'t, 'a>(tokens: &'t [Token<'a>]) -> Option<(Head<'a>, &'t [Token<'a>])>
    ensures { option_map (λ x. (x.0, x.1.now)) result ≡ do_at tokens.now }
{
    let (name, rest) = named(tokens)?;
    Some((Head::Whole(Statement::Do(name)), rest))
}

// What follows `turn`.
#[tactic(auto, unfolding(crate::specs::Reading::turn_at))]
fn turn<'t, 'a>(tokens: &'t [Token<'a>]) -> Option<(Head<'a>, &'t [Token<'a>])>
    ensures { option_map (λ x. (x.0, x.1.now)) result ≡ turn_at tokens.now }
{
    let (name, rest) = named(tokens)?;
    Some((Head::Whole(Statement::Turn(name)), rest))
}

// The head of a line that begins with this word.
fn head_by<'t, 'a>(word: Keyword, rest: &'t [Token<'a>]) -> Option<(Head<'a>, &'t [Token<'a>])>
    ensures { option_map (λ x. (x.0, x.1.now)) result ≡ head_by word rest.now }
{
    match word {
        Keyword::Input => input(rest),
        Keyword::Derived => derived(rest),
        Keyword::Set => set(rest),
        Keyword::Add => add(rest),
        Keyword::Drop => drop_member(rest),
        Keyword::Define => define(rest),
        Keyword::Settle => Some((Head::Whole(Statement::Settle), rest)),
        Keyword::Do => do_next(rest),
        Keyword::Take => take(rest),
        Keyword::Turn => turn(rest),
        _ => None,
    }
}

/// The head of the line of these tokens and what follows it; `None` where none stands there.
pub(crate) fn line_head<'t, 'a>(tokens: &'t [Token<'a>]) -> Option<(Head<'a>, &'t [Token<'a>])>
    ensures { option_map (λ x. (x.0, x.1.now)) result ≡ head_at tokens.now }
{
    match tokens {
        [first, rest @ ..] => match first {
            Token::Keyword(word) => head_by(*word, rest),
            _ => None,
        },
        _ => None,
    }
}
