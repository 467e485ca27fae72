// Which machine it is.
ghost use Rattle.std.specs.Prelude.{ℕ};
ghost use Rattle.atomic_table.specs.Seated.{TableId};
ghost use Rattle.sa_spaces.specs.Workload.{WorkloadView};
ghost use Rattle.sa_seat.specs.Lock.{no_workload, no_table};

use std::marker::Brand;

/// Which machine it is: its workload, its budget, and the table on which its words are. Contracts alone see them; whoever
/// makes a machine picks them.
pub trait Named {
    ghost workload: { WorkloadView };

    ghost budget: { ℕ };

    ghost table: { TableId };
}

impl Named for Brand {
    ghost workload = { no_workload };

    ghost budget = { 0 };

    ghost table = { no_table };
}
