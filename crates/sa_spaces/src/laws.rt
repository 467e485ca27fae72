// What holds of workloads, whichever they are: each contract is a law, and the bodies do nothing.
ghost use Rattle.sa_spaces.specs.Laws.{EvictionsAreInOrder, EvictionsDiffer};

/// Each eviction of a workload is before all that follow it, and none comes twice.
pub fn evictions_are_in_order()
    ensures before { EvictionsAreInOrder }
    ensures differ { EvictionsDiffer }
{}
