//! What follows from the definitions. No function here does anything.
ghost use Rattle.sa_ranks.specs.Inside.{ClosedByAnEntry, ClosedByItsSlice};

/// Of an event whose closing is an entry's, pairs are looked for after all its records.
pub fn pairs_are_looked_for_behind_an_entry()
    ensures { ClosedByAnEntry }
{}

/// Of an event that only its slice closes, pairs are looked for directly before the closing.
pub fn pairs_are_looked_for_before_a_slice()
    ensures { ClosedByItsSlice }
{}
