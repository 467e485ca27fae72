//! A short history. No function here does anything.
ghost use Rattle.std.specs.Prelude.{◌≡◌, Some};
ghost use Rattle.sa_base.specs.declared.record.End.TheVariants.{AllDone};
ghost use Rattle.sa_histories.specs.Short.{smallest};
ghost use Rattle.sa_laws.specs.Event.{items_of};
ghost use Rattle.sa_virtual.specs.Legal.{IsLegalVp, lost_of, EndOfVp};
ghost use Rattle.sa_virtual.specs.Examples.{smallest_events, smallest_items};
ghost use Rattle.sa_virtual.specs.Losing.{the_workload, the_events};

/// The run of the smallest workload on a virtual processor is legal, and nothing is lost in it.
pub fn the_smallest_run_is_legal()
    ensures legal { IsLegalVp smallest smallest_items }
    ensures lost { lost_of smallest smallest_events (record { 0 = 0 }) ≡ 0 }
{}

/// One thread blocks while another is ready: three turns are lost.
pub fn a_blocked_one_loses_turns()
    ensures legal { IsLegalVp the_workload (items_of the_events) }
    ensures lost { lost_of the_workload the_events (record { 0 = 0 }) ≡ 3 }
    ensures end { EndOfVp the_workload 100000 (items_of the_events) (Some AllDone) }
{}
