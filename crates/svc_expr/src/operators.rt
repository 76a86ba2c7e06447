// Which tokens are operators, and which keywords name calls.
ghost use Rattle.std.specs.Prelude.{◌≡◌};
ghost use Rattle.svc_expr.specs.Grammar.{operator, level_of, joins, call_of, aggregate_of, name_index};

use crate::Op;
use crate::level::{Aggregate, Form, Level};
use svc_token::{Keyword, Token};
use svc_value::Name;

fn operator(token: &Token) -> Option<Op>
    ensures { result ≡ operator token.now }
{
    Some(match token {
        Token::Plus => Op::Add,
        Token::Minus | Token::Dash => Op::Sub,
        Token::Star => Op::Mul,
        Token::Slash => Op::Div,
        Token::Percent => Op::Rem,
        Token::Join => Op::Join,
        Token::Equals => Op::Eq,
        Token::NotEqual => Op::Ne,
        Token::Less => Op::Lt,
        Token::LessOrEqual => Op::Le,
        Token::Greater => Op::Gt,
        Token::GreaterOrEqual => Op::Ge,
        Token::Keyword(Keyword::And) => Op::And,
        Token::Keyword(Keyword::Or) => Op::Or,
        _ => return None,
    })
}

fn level_of(op: Op) -> Level
    ensures { result ≡ level_of op }
{
    match op {
        Op::Or => Level::Disjunction,
        Op::And => Level::Conjunction,
        Op::Add | Op::Sub | Op::Join => Level::Sum,
        Op::Mul | Op::Div | Op::Rem => Level::Product,
        Op::Eq | Op::Ne | Op::Lt | Op::Le | Op::Gt | Op::Ge => Level::Comparison,
    }
}

/// The operator of this level that the token is.
pub(crate) fn joins(level: Level, token: &Token) -> Option<Op>
    ensures { result ≡ joins level token.now }
{
    let op = operator(token)?;
    if level_of(op) == level {
        Some(op)
    } else {
        None
    }
}

/// The call of one operand that a keyword names.
pub(crate) fn call_of(keyword: Keyword) -> Option<Form>
    ensures { result ≡ call_of keyword }
{
    match keyword {
        Keyword::Len => Some(Form::Len),
        Keyword::Number => Some(Form::Number),
        Keyword::Text => Some(Form::TextOf),
        _ => None,
    }
}

/// The call over the members that a keyword names.
pub(crate) fn aggregate_of(keyword: Keyword) -> Option<Aggregate>
    ensures { result ≡ aggregate_of keyword }
{
    match keyword {
        Keyword::Sum => Some(Aggregate::Sum),
        Keyword::Count => Some(Aggregate::Count),
        Keyword::Min => Some(Aggregate::Min),
        Keyword::Max => Some(Aggregate::Max),
        _ => None,
    }
}

/// The place of a name among names, or their number where it is not among them.
pub(crate) fn place_of(names: &[Name], name: &[u8]) -> usize
    ensures { result ≡ name_index names.now name.now }
{
    for (place, other) in names.iter().enumerate() {
        if other.as_slice() == name {
            return place;
        }
    }
    names.len()
}
