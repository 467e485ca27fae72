//! What the kernel keeps from turn to turn, and the laws that hold at the event of each. No function here does anything.
ghost use Rattle.sa_laws.specs.Upcalls.{SharesAreCovered, IsToldInTime, RunsWhereOwned, WantHasCause};
ghost use Rattle.sa_kernel_laws.specs.Laws.{AddsItsEvent, AllHold, FetchesKeep, HoldsAtOpening, HoldsAtTurns, LinesAreTheKernels, OpeningIs, OpeningKeeps, QuietEventsKeep, TurnsHaveParts, TurnsKeep, ToldOnce, AllTold, UpcallGiven, InterruptNext, LineCause};

/// After each turn the state of the kernel is what it knows of the history.
pub fn turns_keep<C: Drop>()
    ensures { TurnsKeep C }
{}

/// The fetch of a notice keeps that.
pub fn fetches_keep<C: Drop>()
    ensures { FetchesKeep C }
{}

/// An event of a user level's records alone keeps that, on a processor whose line is low.
pub fn quiet_events_keep<C: Drop>()
    ensures { QuietEventsKeep C }
{}

/// The opening adds the records of the laws' opening, and begins what is kept.
pub fn opening_begins<C: Drop>()
    ensures is { OpeningIs C }
    ensures keeps { OpeningKeeps C }
{}

/// A turn does the same whatever was in the trace before, and adds the items of its event after that.
pub fn turns_add_their_events<C: Drop>()
    ensures { AddsItsEvent C }
{}

/// At the opening the kernel's laws hold.
pub fn opening_is_lawful()
    ensures { HoldsAtOpening AllHold }
{}

/// Each told record but `told add` tells what was untold to the space of the upcall; what is told is untold no longer.
pub fn turns_tell_once<C: Drop>()
    ensures { HoldsAtTurns C ToldOnce }
{}

/// After each turn a space with something untold owns no processor, or its upcall page is being fetched, or it owns a
/// processor whose line is raised.
pub fn turns_tell_in_time<C: Drop>()
    ensures { HoldsAtTurns C IsToldInTime }
{}

/// After each turn each processor is owned by the space of its running life; an up comes where no life runs, and a stop
/// or block names the life that runs there.
pub fn turns_run_where_owned<C: Drop>()
    ensures { HoldsAtTurns C RunsWhereOwned }
{}

/// An upcall's number is in use by nobody, and after it come the added processor, if it was moved, and all that its
/// space was not told, in order, which is something; what is given back was taken.
pub fn upcalls_tell_all<C: Drop>()
    ensures { HoldsAtTurns C AllTold }
{}

/// A block names the number of its I/O, and after it comes an upcall of its space, or the leave.
pub fn blocks_give_upcalls<C: Drop>()
    ensures { HoldsAtTurns C UpcallGiven }
{}

/// A turn is an interrupt exactly where its processor's line was raised; the processor goes to its aim.
pub fn interrupts_are_next<C: Drop>()
    ensures { HoldsAtTurns C InterruptNext }
{}

/// No line is raised that is raised already. After each aim of a processor with a low line comes its line; all other
/// lines, but for one that an entry asks for, come after all aims, and they are those that are due there.
pub fn lines_have_causes<C: Drop>()
    ensures asked { HoldsAtTurns C LineCause }
    ensures alone { LinesAreTheKernels C }
{}

/// But for a hint the wants are those that are due, and after each turn no space that wants no processor must be told
/// anything.
pub fn wants_have_causes<C: Drop>()
    ensures { HoldsAtTurns C WantHasCause }
{}

/// After each turn each space has at least its share of aims. Aims come only where a space misses some, as often as it
/// does, in the order of the spaces' numbers, each of the processor that is first to be chosen.
pub fn aims_cover_shares<C: Drop>()
    ensures { HoldsAtTurns C SharesAreCovered }
{}

/// The event of a turn holds what the user level says, the records of its entry, and the closing, and no others.
pub fn turns_have_parts<C: Drop>()
    ensures { TurnsHaveParts C }
{}
