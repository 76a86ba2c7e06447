// Texts of at most 256 bytes.
ghost use Rattle.std.specs.Prelude.{◌≡◌, ◌<◌, ◌≤◌, length, IfOk, IfErr, IsErrOf};
ghost use Rattle.std.specs.Str.{IsUtf8};
ghost use Rattle.std.specs.String.{string_bytes, string_len};

use crate::OutOfMemory;
pub use crate::limits::MAX_TEXT_LEN;
use std::alloc::Global;
use std::marker::Model;

/// A text of at most 256 bytes of UTF-8. Contracts see it as its bytes.
#[derive(Debug, Drop)]
pub struct ValueText {
    text: String,
}

impl Model for ValueText {
    ghost use Rattle.std.specs.Prelude.{List, ℕ, length, ◌≤◌};
    ghost use Rattle.svc_value.specs.declared.limits.TheConstants.{MAX_TEXT_LEN};
    ghost use Rattle.std.specs.String.{string_bytes};

    ghost Value = { List ℕ };

    ghost view = { λ text. string_bytes text.text };

    ghost invariant = { λ text. length (string_bytes text.text) ≤ MAX_TEXT_LEN };
}

/// Why a text is refused.
#[derive(Clone, Copy, Debug, PartialEq, Eq)]
pub enum TextError {
    /// The text has `len` bytes, more than 256.
    TooLong { len: usize },
    /// Out of memory.
    OutOfMemory,
}

impl From<OutOfMemory> for TextError {
    ghost use Rattle.svc_value.specs.declared.text.TextError.TheVariants.{OutOfMemory};
    ghost use Rattle.std.specs.Prelude.{◌≡◌};

    ghost from_gives = { λ _ e. e ≡ OutOfMemory };

    fn from(_: OutOfMemory) -> Self {
        TextError::OutOfMemory
    }
}

impl ValueText {
    /// The text with the characters of `text`, copied to memory of `alloc`. `TooLong` exactly where it has more than 256
    /// bytes, with their number; `OutOfMemory` when memory runs out.
    pub fn new(alloc: Global, text: &str) -> Result<ValueText, TextError>
        ensures text { IfOk result (λ made. made ≡ text.now) }
        ensures fits { IfOk result (λ _. length text.now ≤ MAX_TEXT_LEN) }
        ensures too_long { IfErr result (λ e. (len : _) → e ≡ TextError.TooLong len → (len ≡ length text.now) × (MAX_TEXT_LEN < length text.now)) }
    {
        if text.len() > MAX_TEXT_LEN {
            return Err(TextError::TooLong { len: text.len() });
        }
        Ok(ValueText::kept(alloc, text)?)
    }

    // The text with the characters of a text that is short enough.
    pub(crate) fn kept(alloc: Global, text: &str) -> Result<ValueText, OutOfMemory>
        requires { length text.now ≤ MAX_TEXT_LEN }
        ensures { IfOk result (λ made. made ≡ text.now) }
    {
        Ok(ValueText {
            text: String::from_str(alloc, text)?,
        })
    }

    // The text with the characters of a text that is short enough.
    pub(crate) fn from_string(text: String) -> ValueText
        requires { string_len text ≤ MAX_TEXT_LEN }
        ensures { result ≡ string_bytes text }
    {
        ValueText { text }
    }

    /// The characters of the text.
    pub fn as_str(&self) -> &str
        ensures text { result.now ≡ self.now }
        ensures fits { length self.now ≤ MAX_TEXT_LEN }
        ensures utf8 { IsUtf8 self.now }
    {
        self.text.as_str()
    }

    /// A text of the same characters; `OutOfMemory` where there is no memory for it.
    pub fn copy(&self) -> Result<ValueText, OutOfMemory>
        ensures { IfOk result (λ text. text ≡ self.now) }
    {
        Ok(ValueText {
            text: self.text.clone()?,
        })
    }
}
