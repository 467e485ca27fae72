//! What a legal run promises its reader, said of the records of the flat trace alone: what the kernel owes by the rules of any user
//! level, and that no holder is made ready by either package's. No function here does anything.
ghost use Rattle.std.specs.Prelude.{List};
ghost use Rattle.sa_base.specs.declared.record.Item.{Item};
ghost use Rattle.sa_spaces.specs.Workload.{WorkloadView, IsWorkload};
ghost use Rattle.sa_laws.specs.Legal.{IsLegal};
ghost use Rattle.sa_base.specs.declared.package.PackageName.{PackageName};
ghost use Rattle.sa_base.specs.declared.package.RulesName.{RulesName};
ghost use Rattle.sa_ranks.specs.Packages.{rules_of, rules_named};
ghost use Rattle.sa_promises.specs.Headline.{TellsAtMostOnce, TellsInTime, NumbersAreFresh, KeepsSharesCovered, NoHolderIsReady};

/// A legal run tells each stop, block and unblock at most once, after it.
pub fn legal_runs_tell_at_most_once()
    ensures { (which : RulesName) (w : WorkloadView) (items : List Item) → IsLegal (rules_named which) w items
        → TellsAtMostOnce items }
{}

/// The number of each upcall of a legal run is in use by nobody: between two upcalls of one number it is given back.
pub fn legal_runs_use_fresh_numbers()
    ensures { (which : RulesName) (w : WorkloadView) (items : List Item) → IsLegal (rules_named which) w items
        → NumbersAreFresh items }
{}

/// After each event of a legal run, a space that was not told of a stop, block or unblock has no processor, or its upcall
/// page is being fetched, or it owns a processor whose line is raised.
pub fn legal_runs_tell_in_time()
    ensures { (which : RulesName) (w : WorkloadView) (items : List Item) → IsLegal (rules_named which) w items
        → TellsInTime w items }
{}

/// After each event of a legal run, each space has at least its share of aims.
pub fn legal_runs_cover_shares()
    ensures { (which : RulesName) (w : WorkloadView) (items : List Item) → IsWorkload w
        → IsLegal (rules_named which) w items → KeepsSharesCovered w items }
{}

/// No record of a legal run makes a thread ready that holds a list lock.
pub fn legal_runs_ready_no_holder()
    ensures { (which : PackageName) (w : WorkloadView) (items : List Item) → IsLegal (rules_of which) w items
        → NoHolderIsReady items }
{}
