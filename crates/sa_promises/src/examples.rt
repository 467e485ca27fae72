//! Short histories, by either package's rules. No function here does anything: its clauses are proved.
ghost use Rattle.sa_laws.specs.declared.rule.Rule.TheVariants.{Numbered, Stepwise, ToldOnce, ToldInTime, WhereOwned, AllTold, UpcallGiven, InterruptNext, LineCause, WantCause, SharesCovered, DemandAnnounced, TurnsTaken, LocksKept, OrderKept, EndTold};
ghost use Rattle.sa_laws.specs.Legal.{IsLegal, FirstBreak};
ghost use Rattle.sa_ranks.specs.Rules.{prio_threads};
ghost use Rattle.sa_histories.specs.Short.{smallest};
ghost use Rattle.sa_base.specs.declared.package.PackageName.{PackageName};
ghost use Rattle.sa_ranks.specs.Packages.{rules_of};
ghost use Rattle.sa_promises.specs.Examples.{smallest_trace, blocking, stops_at, told_done, other_opening, other_place, told_of_nothing, stopped_untold, two_lives, not_told_added, other_io, interrupt_put_off, raised_for_nothing, wanted_for_nothing, aimed_for_nothing, idle_with_lock, idle_beside_thread, freed_unused, not_done, forking, older_taken};
ghost use Rattle.sa_promises.specs.RankedExamples.{urging, racing, line_again, line_unasked, other_list_taken, outranked_run, back_alone, pair_unserved, back_for_nothing, own_line, goes_on_outranked, lesser_taken};

/// The run of the smallest workload is legal.
pub fn smallest_run_is_legal()
    ensures { (which : PackageName) → IsLegal (rules_of which) smallest smallest_trace }
{}

/// For each rule a history that breaks it first.
pub fn rules_can_be_broken()
    ensures opening { (which : PackageName) → FirstBreak (rules_of which) smallest other_opening (stops_at 0) 0 Numbered }
    ensures step { (which : PackageName) → FirstBreak (rules_of which) smallest other_place (stops_at 5) 5 Stepwise }
    ensures once { (which : PackageName) → FirstBreak (rules_of which) smallest told_of_nothing (stops_at 1) 1 ToldOnce }
    ensures in_time { (which : PackageName) → FirstBreak (rules_of which) smallest stopped_untold (stops_at 5) 5 ToldInTime }
    ensures owned { (which : PackageName) → FirstBreak (rules_of which) smallest two_lives (stops_at 2) 2 WhereOwned }
    ensures all { (which : PackageName) → FirstBreak (rules_of which) smallest not_told_added (stops_at 1) 1 AllTold }
    ensures block { (which : PackageName) → FirstBreak (rules_of which) blocking other_io (stops_at 5) 5 UpcallGiven }
    ensures interrupt { (which : PackageName) → FirstBreak (rules_of which) smallest interrupt_put_off (stops_at 1) 1 InterruptNext }
    ensures line { (which : PackageName) → FirstBreak (rules_of which) smallest raised_for_nothing (stops_at 2) 2 LineCause }
    ensures want { (which : PackageName) → FirstBreak (rules_of which) smallest wanted_for_nothing (stops_at 2) 2 WantCause }
    ensures aims { (which : PackageName) → FirstBreak (rules_of which) smallest aimed_for_nothing (stops_at 2) 2 SharesCovered }
    ensures demand { (which : PackageName) → FirstBreak (rules_of which) smallest idle_with_lock (stops_at 3) 3 DemandAnnounced }
    ensures turn { (which : PackageName) → FirstBreak (rules_of which) smallest idle_beside_thread (stops_at 2) 2 TurnsTaken }
    ensures locks { (which : PackageName) → FirstBreak (rules_of which) smallest freed_unused (stops_at 3) 3 LocksKept }
    ensures order { (which : PackageName) → FirstBreak (rules_of which) forking older_taken (stops_at 15) 15 OrderKept }
    ensures end { (which : PackageName) → FirstBreak (rules_of which) smallest not_done told_done 4 EndTold }
{}

/// What is the package's own in each rule of thread priorities is the first break of some history, on one processor.
pub fn ranks_can_be_broken()
    ensures own_line { FirstBreak prio_threads smallest own_line (stops_at 5) 5 LineCause }
    ensures back { FirstBreak prio_threads smallest back_for_nothing (stops_at 5) 5 TurnsTaken }
    ensures locks { FirstBreak prio_threads smallest other_list_taken (stops_at 2) 2 LocksKept }
    ensures urge { FirstBreak prio_threads urging goes_on_outranked (stops_at 9) 9 DemandAnnounced }
    ensures rank { FirstBreak prio_threads urging lesser_taken (stops_at 14) 14 OrderKept }
{}

/// On two processors too, in a run where a thread forks one that outranks it, and that one another.
pub fn ranked_races_can_be_broken()
    ensures again { FirstBreak prio_threads racing line_again (stops_at 10) 10 LineCause }
    ensures run { FirstBreak prio_threads racing outranked_run (stops_at 15) 15 OrderKept }
    ensures unasked { FirstBreak prio_threads racing line_unasked (stops_at 21) 21 LineCause }
    ensures back { FirstBreak prio_threads racing back_alone (stops_at 21) 21 TurnsTaken }
    ensures pair { FirstBreak prio_threads racing pair_unserved (stops_at 25) 25 DemandAnnounced }
{}
