// Bytes and names that are lent.
ghost use Rattle.std.specs.Prelude.{◌≡◌};
ghost use Rattle.svc_token.specs.Word.{IsName};

use std::marker::Model;
use std::str;

/// Bytes of a line, lent. Contracts see them as their list.
#[derive(Debug, Drop)]
pub struct BytesRef<'a> {
    bytes: &'a [u8],
}

impl<'a> Model for BytesRef<'a> {
    ghost use Rattle.std.specs.Prelude.{List, ℕ};

    ghost Value = { List ℕ };

    ghost view = { λ span. span.bytes.now };
}

impl<'a> BytesRef<'a> {
    /// The span of these bytes.
    pub fn new(bytes: &'a [u8]) -> Self
        ensures { result ≡ bytes.now }
    {
        BytesRef { bytes }
    }

    /// The bytes, lent as long as the line is.
    pub fn as_slice(&self) -> &'a [u8]
        ensures { result.now ≡ self.now }
    {
        self.bytes
    }
}

/// A name of a line, lent: a word of at most 32 bytes that is no keyword. Contracts see it as its bytes.
#[derive(Debug, Drop)]
pub struct NameRef<'a> {
    text: &'a str,
}

impl<'a> Model for NameRef<'a> {
    ghost use Rattle.std.specs.Prelude.{List, ℕ};
    ghost use Rattle.svc_token.specs.Word.{IsName};

    ghost Value = { List ℕ };

    ghost view = { λ name. name.text.now };

    ghost invariant = { λ name. IsName name.text.now };
}

impl<'a> NameRef<'a> {
    /// The name that these bytes are.
    pub fn new(bytes: &'a [u8]) -> Self
        requires { IsName bytes.now }
        ensures { result ≡ bytes.now }
    {
        match str::from_utf8(bytes) {
            Ok(text) => NameRef { text },
            Err(_) => unreachable!(),
        }
    }

    /// The letters of the name, lent as long as the line is.
    pub fn as_str(&self) -> &'a str
        ensures text { result.now ≡ self.now }
        ensures name { IsName self.now }
    {
        self.text
    }

    /// The same name, lent once more.
    pub fn lend(&self) -> NameRef<'a>
        ensures { result ≡ self.now }
    {
        NameRef { text: self.text }
    }
}
