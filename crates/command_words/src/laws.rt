//! Laws of the words that stand for commands with an archive.
ghost use Rattle.command_words.specs.KeptLaws.{ArchiveIsAsked, LegsAreInRange, PlainWordsAreRead, PlainWordsStay};

/// Words that stand for a command without an archive stand for the same command with one.
pub fn plain_words_stay()
    ensures { PlainWordsStay }
{}

/// A command that does not ask for the archive is one that its words stand for without an archive.
pub fn plain_words_are_read()
    ensures { PlainWordsAreRead }
{}

/// `run` and `step` with an archive keep states or go on from one.
pub fn archive_is_asked()
    ensures { ArchiveIsAsked }
{}

/// The leg that a run goes on from is from 1 to 1,000.
pub fn legs_are_in_range()
    ensures { LegsAreInRange }
{}
