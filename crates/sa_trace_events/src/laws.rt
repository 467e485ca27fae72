//! What holds of all trace events. No function here does anything.
ghost use Rattle.sa_trace_events.specs.Laws.{LinesArePlain, NamesArePlain, SlicesAreNested, WorkIsNested};

/// The slices of a processor are nested: its activations in its owners, and what it does in both.
pub fn slices_are_nested()
    ensures owned { SlicesAreNested }
    ensures run { WorkIsNested }
{}

/// The lines of a trace, its records and the names of slices are small letters, digits, spaces and `, - . :`, so that none needs an escape.
pub fn texts_are_plain()
    ensures lines { LinesArePlain }
    ensures names { NamesArePlain }
{}
