// Why a document is refused.
use svc_value::OutOfMemory;

/// The line of a document that is refused, and why.
#[derive(Clone, Copy, Debug, PartialEq, Eq)]
pub struct Refusal {
    /// The number of the line, from 1; 0 where no line is meant.
    pub line: u32,
    /// The reason.
    pub code: Code,
}

/// Why a line is refused.
#[derive(Clone, Copy, Debug, PartialEq, Eq)]
pub enum Code {
    /// The input has too many bytes.
    E01,
    /// The line has more than 4,096 bytes.
    E02,
    /// The line is not UTF-8.
    E03,
    /// The line is not in the grammar.
    E04,
    /// It declares a name that is declared.
    E05,
    /// It declares a service where 64 are declared.
    E06,
    /// Its rank is not from 1 to 1000.
    E07,
    /// It names a service that is not declared before.
    E08,
    /// It makes a dependency of a service whose rank is not lower.
    E09,
    /// A literal, the expression, a part of it or a member has the wrong type.
    E10,
    /// It makes more than 16 dependencies.
    E11,
    /// Its expression is too large.
    E12,
    /// It sets the value of a derived service.
    E13,
    /// It changes the members or the expression of an input.
    E14,
    /// A member that it brings is named twice, or is a dependency already.
    E15,
    /// It drops a service that is no member.
    E16,
    /// The leg has 1,024 changes.
    E17,
    /// It is a step line where none is allowed.
    E18,
    /// 1,000 legs have ended.
    E19,
    /// The stream is no list of frames.
    E20,
    /// The input has no line between the document and the text.
    E21,
}

/// Why a document is not read.
#[derive(Clone, Copy, Debug, PartialEq, Eq)]
pub enum DocError {
    /// The document is not accepted: its first refused line, with the lowest-numbered code.
    Refused(Refusal),
    /// Out of memory.
    OutOfMemory,
}

impl From<OutOfMemory> for DocError {
    ghost use Rattle.document_reading.specs.declared.refusal.DocError.TheVariants.{OutOfMemory};
    ghost use Rattle.std.specs.Prelude.{◌≡◌};

    ghost from_gives = { λ _ e. e ≡ OutOfMemory };

    fn from(_: OutOfMemory) -> Self {
        DocError::OutOfMemory
    }
}
