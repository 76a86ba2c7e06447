// What a run goes on from.
ghost use Rattle.std.specs.Prelude.{◌≡◌};
ghost use Rattle.command_words.specs.KeptWords.{resumed_at};

/// The kept state that a run goes on from.
#[derive(Clone, Copy, Debug, PartialEq, Eq)]
pub enum Resume {
    /// The one of the last kept leg.
    Last,
    /// The one of this leg, from 1 to 1,000.
    At(u32),
}

/// The state of this leg, or of the last one where no leg is named.
pub(crate) fn resumed_at(leg: Option<u32>) -> Resume
    ensures { result ≡ resumed_at leg }
{
    match leg {
        Some(leg) => Resume::At(leg),
        None => Resume::Last,
    }
}
