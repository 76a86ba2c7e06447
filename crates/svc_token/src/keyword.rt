// The words that are no names.
ghost use Rattle.std.specs.Prelude.{◌≡◌};
ghost use Rattle.svc_token.specs.Keyword.{first_keywords, inner_keywords, call_keywords, keyword_in, keyword_of};

/// A word with a meaning of its own, which is no name.
#[derive(Clone, Copy, Debug, PartialEq, Eq)]
pub enum Keyword {
    /// `input`
    Input,
    /// `derived`
    Derived,
    /// `set`
    Set,
    /// `add`
    Add,
    /// `drop`
    Drop,
    /// `settle`
    Settle,
    /// `do`
    Do,
    /// `take`
    Take,
    /// `turn`
    Turn,
    /// `define`
    Define,
    /// `from`
    From,
    /// `over`
    Over,
    /// `rank`
    Rank,
    /// `int`
    Int,
    /// `if`
    If,
    /// `then`
    Then,
    /// `else`
    Else,
    /// `and`
    And,
    /// `or`
    Or,
    /// `not`
    Not,
    /// `text`
    Text,
    /// `len`
    Len,
    /// `number`
    Number,
    /// `sum`
    Sum,
    /// `count`
    Count,
    /// `min`
    Min,
    /// `max`
    Max,
}

/// The keyword that these bytes spell; None exactly where they spell none.
#[tactic(auto, unfolding(crate::specs::Keyword::keyword_of))]
pub fn spelled_keyword(word: &[u8]) -> Option<Keyword>
    ensures { result ≡ keyword_of word.now }
{
    if let Some(keyword) = first_keyword(word) {
        return Some(keyword);
    }
    if let Some(keyword) = inner_keyword(word) {
        return Some(keyword);
    }
    call_keyword(word)
}

// The keyword that begins a line of a document.
fn first_keyword(word: &[u8]) -> Option<Keyword>
    ensures { result ≡ keyword_in first_keywords word.now }
{
    if word == b"input".as_slice() {
        Some(Keyword::Input)
    } else if word == b"derived".as_slice() {
        Some(Keyword::Derived)
    } else if word == b"set".as_slice() {
        Some(Keyword::Set)
    } else if word == b"add".as_slice() {
        Some(Keyword::Add)
    } else if word == b"drop".as_slice() {
        Some(Keyword::Drop)
    } else if word == b"settle".as_slice() {
        Some(Keyword::Settle)
    } else if word == b"do".as_slice() {
        Some(Keyword::Do)
    } else if word == b"take".as_slice() {
        Some(Keyword::Take)
    } else if word == b"turn".as_slice() {
        Some(Keyword::Turn)
    } else if word == b"define".as_slice() {
        Some(Keyword::Define)
    } else {
        None
    }
}

// The keyword that stands inside a line or an expression.
fn inner_keyword(word: &[u8]) -> Option<Keyword>
    ensures { result ≡ keyword_in inner_keywords word.now }
{
    if word == b"from".as_slice() {
        Some(Keyword::From)
    } else if word == b"over".as_slice() {
        Some(Keyword::Over)
    } else if word == b"rank".as_slice() {
        Some(Keyword::Rank)
    } else if word == b"int".as_slice() {
        Some(Keyword::Int)
    } else if word == b"if".as_slice() {
        Some(Keyword::If)
    } else if word == b"then".as_slice() {
        Some(Keyword::Then)
    } else if word == b"else".as_slice() {
        Some(Keyword::Else)
    } else if word == b"and".as_slice() {
        Some(Keyword::And)
    } else if word == b"or".as_slice() {
        Some(Keyword::Or)
    } else if word == b"not".as_slice() {
        Some(Keyword::Not)
    } else {
        None
    }
}

// The keyword that names a call; `text` is a type too.
fn call_keyword(word: &[u8]) -> Option<Keyword>
    ensures { result ≡ keyword_in call_keywords word.now }
{
    if word == b"text".as_slice() {
        Some(Keyword::Text)
    } else if word == b"len".as_slice() {
        Some(Keyword::Len)
    } else if word == b"number".as_slice() {
        Some(Keyword::Number)
    } else if word == b"sum".as_slice() {
        Some(Keyword::Sum)
    } else if word == b"count".as_slice() {
        Some(Keyword::Count)
    } else if word == b"min".as_slice() {
        Some(Keyword::Min)
    } else if word == b"max".as_slice() {
        Some(Keyword::Max)
    } else {
        None
    }
}
