//! The kernel keeps its laws along each of its runs. No function here does anything.
ghost use Rattle.sa_kernel_laws.specs.Calls.{EntriesGoOn, SlicesGoOn};
ghost use Rattle.sa_kernel_laws.specs.Examples.{ShortRunCanBeMade};
ghost use Rattle.sa_kernel_laws.specs.Histories.{QuietEventsGoOn};
ghost use Rattle.sa_kernel_laws.specs.Runs.{RunsAreLawful, RunsAreTheirEvents};

/// For each list of turns that can be taken from the opening on, with fetches of notices between them, over any contexts
/// and whatever the user level does: the kernel's laws hold at each event, and these are the events of the trace.
pub fn runs_are_lawful<C: Drop>()
    ensures lawful { RunsAreLawful C }
    ensures events { RunsAreTheirEvents C }
{}

/// The conditions of turns can be met: a short run can be made, with an interrupt of a free processor and of one that
/// runs, hints, a block and its completion, and the end of a slice.
pub fn a_short_run_can_be_made()
    ensures { ShortRunCanBeMade }
{}

/// By what the contracts of `Kernel::enter` and `Kernel::slice_end` say, the history goes on by one event, at which the
/// kernel's laws hold, and what is kept is kept.
pub fn calls_go_on<C: Drop>()
    ensures entries { EntriesGoOn C }
    ensures slices { SlicesGoOn C }
{}

/// A history goes on by an event of the user level's records alone, at which no slice ends: the kernel's laws hold there too,
/// though the kernel is not called.
pub fn quiet_events_go_on<C: Drop>()
    ensures { QuietEventsGoOn C }
{}
