//! What follows from the laws of a legal run at each moment of it, by either package's rules; what the kernel alone owes, by those of
//! any user level too. No function here does anything.
ghost use Rattle.std.specs.Prelude.{◌≡◌, ℕ, List, Some, slice_get};
ghost use Rattle.sa_base.specs.declared.record.Item.{Item};
ghost use Rattle.sa_spaces.specs.Workload.{WorkloadView, IsWorkload};
ghost use Rattle.sa_laws.specs.Readings.{Readings};
ghost use Rattle.sa_laws.specs.Event.{Event, events_of};
ghost use Rattle.sa_laws.specs.Demand.{DemandIsAnnounced};
ghost use Rattle.sa_laws.specs.Legal.{IsLegal, before};
ghost use Rattle.sa_base.specs.declared.package.PackageName.{PackageName};
ghost use Rattle.sa_base.specs.declared.package.RulesName.{RulesName};
ghost use Rattle.sa_ranks.specs.Packages.{rules_of, rules_named};
ghost use Rattle.sa_promises.specs.Consequences.{AtEachMoment, RunApart, AreLockedOnce, LockersStand, SharesAreTheOnes};
ghost use Rattle.sa_promises.specs.Closings.{ClosingsAddNothing, LowLinesAreAimed, NoLineIsDue};
ghost use Rattle.sa_promises.specs.Demands.{DemandsCoverLoads};

/// After each event of a legal run, no two running lives have one number.
pub fn legal_runs_keep_lives_apart()
    ensures { (which : RulesName) (w : WorkloadView) (items : List Item) → IsLegal (rules_named which) w items
        → AtEachMoment (rules_named which) RunApart w items }
{}

/// After each event of a legal run, each locked list is among the locks of one life alone, which runs, or has an I/O under
/// way, or was stopped or came back and is untold.
pub fn legal_runs_lock_lists_once()
    ensures once { (which : PackageName) (w : WorkloadView) (items : List Item) → IsLegal (rules_of which) w items
        → AtEachMoment (rules_of which) AreLockedOnce w items }
    ensures stand { (which : PackageName) (w : WorkloadView) (items : List Item) → IsLegal (rules_of which) w items
        → AtEachMoment (rules_of which) (LockersStand w) w items }
{}

/// The shares of what the spaces claim at a moment are the only ones.
pub fn claims_have_one_sharing()
    ensures { (w : WorkloadView) (event : ℕ) (r : Readings) → IsWorkload w
        → SharesAreTheOnes w event r }
{}

/// After each event of a legal run no want is due, and no aim while the remainder of the processors begins with the same space: a
/// closing adds neither where nothing changed since the last one.
pub fn closings_add_nothing()
    ensures { (which : RulesName) (w : WorkloadView) (items : List Item) → IsLegal (rules_named which) w items
        → ClosingsAddNothing (rules_named which) w items }
{}

/// After each event of a legal run a processor whose line is low is aimed at by its owner.
pub fn low_lines_are_aimed()
    ensures { (which : PackageName) (w : WorkloadView) (items : List Item) → IsLegal (rules_of which) w items
        → LowLinesAreAimed (rules_of which) w items }
{}

/// After each event of a legal run but the opening no line is due: a closing adds none where nothing changed since the last one.
pub fn closings_add_no_line()
    ensures { (which : PackageName) (w : WorkloadView) (items : List Item) → IsLegal (rules_of which) w items
        → NoLineIsDue (rules_of which) w items }
{}

/// After each event of a legal run, where no life of a space is in, and nothing is untold to it, its demand is at least the smaller
/// of the number of processors and its load.
pub fn demands_cover_loads()
    ensures { (which : PackageName) (w : WorkloadView) (items : List Item) → IsLegal (rules_of which) w items
        → DemandsCoverLoads (rules_of which) w items }
{}

/// At each event of a legal run a step that only a life makes which is out or owes nothing is made by one that is so.
pub fn legal_runs_announce_demand()
    ensures { (which : PackageName) (w : WorkloadView) (items : List Item) → IsLegal (rules_of which) w items
        → (n : ℕ) (e : Event) → slice_get (events_of items) n ≡ Some e
        → DemandIsAnnounced w (before (rules_of which) w (events_of items) n) e }
{}
