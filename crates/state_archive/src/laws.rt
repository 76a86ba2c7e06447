//! Laws of what an archive keeps after a save, whatever it kept before.
ghost use Rattle.state_archive.specs.Laws.{SavesKeepRising, LastIsSaved, LowerEntriesStay, EntryIsSaved, HigherEntriesGo, SavesAboveAppend, EntriesAreFound, GreatestIsLast};

/// After a save the legs rise, where they rose before.
pub fn saves_keep_rising()
    ensures { SavesKeepRising }
{}

/// After a save the last entry is the saved one.
pub fn last_is_saved()
    ensures { LastIsSaved }
{}

/// A save leaves each entry of a lower leg as it was.
pub fn lower_entries_stay()
    ensures { LowerEntriesStay }
{}

/// After a save the entry of its leg is the saved one.
pub fn entry_is_saved()
    ensures { EntryIsSaved }
{}

/// After a save no higher leg has an entry.
pub fn higher_entries_go()
    ensures { HigherEntriesGo }
{}

/// A save of a leg above all that are kept appends its entry.
pub fn saves_above_append()
    ensures { SavesAboveAppend }
{}

/// Where the legs rise, each entry is found under its leg.
pub fn entries_are_found()
    ensures { EntriesAreFound }
{}

/// Where the legs rise, the last entry is that of the greatest leg.
pub fn greatest_is_last()
    ensures { GreatestIsLast }
{}
