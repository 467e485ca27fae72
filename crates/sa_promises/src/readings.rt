//! What the fold reads off a legal run is what the words say, at each moment of it, by either package's rules. No function here does anything.
ghost use Rattle.std.specs.Prelude.{List};
ghost use Rattle.sa_base.specs.declared.record.Item.{Item};
ghost use Rattle.sa_spaces.specs.Workload.{WorkloadView, IsWorkload};
ghost use Rattle.sa_laws.specs.Legal.{IsLegal};
ghost use Rattle.sa_base.specs.declared.package.PackageName.{PackageName};
ghost use Rattle.sa_ranks.specs.Packages.{rules_of};
ghost use Rattle.sa_promises.specs.Reads.{AreRead, AreReadAtEvents, MachineIsRead, MarksAreRead, LinesAreRead, LoadsAreRead, HoldingsAreRead, ReadyAreRead, TakenAreRead, IosAreRead, PagesAreRead, StepsAreRead, CountsAreRead, OwnEventIsRead, LivesHaveSpaces};

/// The state of the abstract machine is where its cases lead from the opening; a life runs on a processor from its up until a
/// stop or block there.
pub fn machines_are_read()
    ensures { (which : PackageName) (w : WorkloadView) (items : List Item) → IsLegal (rules_of which) w items
        → AreRead (rules_of which) (MachineIsRead w) w items }
{}

/// A processor is marked idle from a lowering hint there until its next up or raising hint.
pub fn marks_are_read()
    ensures { (which : PackageName) (w : WorkloadView) (items : List Item) → IsLegal (rules_of which) w items
        → AreRead (rules_of which) (MarksAreRead w) w items }
{}

/// A line is raised where there is a line record of it and no later event is its processor's.
pub fn lines_are_read()
    ensures { (which : PackageName) (w : WorkloadView) (items : List Item) → IsLegal (rules_of which) w items
        → AreRead (rules_of which) (LinesAreRead w) w items }
{}

/// What is untold are the stops, blocks and unblocks that no record after them tells, in order; the load is the number of ready and
/// running threads and of the threads of untold stops.
pub fn loads_are_read()
    ensures { (which : PackageName) (w : WorkloadView) (items : List Item) → IsLegal (rules_of which) w items
        → AreRead (rules_of which) (LoadsAreRead w) w items }
{}

/// What each life has: its home, its locks, its hand, an open cont, and the thread of its stop or block.
pub fn holdings_are_read()
    ensures { (which : PackageName) (w : WorkloadView) (items : List Item) → IsLegal (rules_of which) w items
        → AreRead (rules_of which) (HoldingsAreRead w) w items }
{}

/// The ready threads of each space, in the order of their ready records, each with its list.
pub fn ready_threads_are_read()
    ensures { (which : PackageName) (w : WorkloadView) (items : List Item) → IsLegal (rules_of which) w items
        → AreRead (rules_of which) (ReadyAreRead w) w items }
{}

/// A life is taken from the telling of its stop or unblock to its giveback.
pub fn taken_lives_are_read()
    ensures { (which : PackageName) (w : WorkloadView) (items : List Item) → IsLegal (rules_of which) w items
        → AreRead (rules_of which) (TakenAreRead w) w items }
{}

/// How many I/Os were begun; and of a workload in its ranges those under way, each with its number, its end, and what it is for.
pub fn ios_are_read()
    ensures { (which : PackageName) (w : WorkloadView) (items : List Item) → IsLegal (rules_of which) w items
        → AreRead (rules_of which) (IosAreRead w) w items }
{}

/// A page is resident by the last of the absent lines, evict lines and completions that names it.
pub fn pages_are_read()
    ensures { (which : PackageName) (w : WorkloadView) (items : List Item) → IsWorkload w → IsLegal (rules_of which) w items
        → AreRead (rules_of which) (PagesAreRead w) w items }
{}

/// The scan count of each life, and whether its last own event was a free.
pub fn counts_are_read()
    ensures { (which : PackageName) (w : WorkloadView) (items : List Item) → IsLegal (rules_of which) w items
        → AreRead (rules_of which) CountsAreRead w items }
{}

/// Whether each life is in, its scan count, whether its last own event was a free, and whether it was idle at its stop.
pub fn steps_are_read()
    ensures { (which : PackageName) (w : WorkloadView) (items : List Item) → IsLegal (rules_of which) w items
        → AreRead (rules_of which) (StepsAreRead which w) w items }
{}

/// Which events are a life's own, and which of them settle it.
pub fn own_events_are_read()
    ensures { (which : PackageName) (w : WorkloadView) (items : List Item) → IsLegal (rules_of which) w items
        → AreReadAtEvents (rules_of which) (OwnEventIsRead w) w items }
{}

/// The space of each life is one of the workload.
pub fn lives_have_spaces()
    ensures { (which : PackageName) (w : WorkloadView) (items : List Item) → IsLegal (rules_of which) w items
        → AreRead (rules_of which) (LivesHaveSpaces w) w items }
{}
