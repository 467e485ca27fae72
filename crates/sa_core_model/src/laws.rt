//! What every machine keeps, whichever its user level. No function here does anything: its clauses are proved for all
//! machines.
ghost use Rattle.std.specs.Prelude.{◌≡◌, ℕ, ◌+◌, None, List, replicate};
ghost use Rattle.sa_base.specs.declared.number.ProcNo.{ProcNo};
ghost use Rattle.sa_base.specs.declared.number.ActNo.{ActNo};
ghost use Rattle.sa_spaces.specs.Workload.{WorkloadView, IsWorkload};
ghost use Rattle.sa_core_model.specs.Machine.{Machine};
ghost use Rattle.sa_core_model.specs.Turn.{turned, committed};
ghost use Rattle.sa_core_model.specs.Run.{opening, CanTurn, CanCommit, Move, IsMove, IsRun};
ghost use Rattle.sa_core_model.specs.Run.Move.{turn};
ghost use Rattle.sa_core_model.specs.Steps.{CanStep};
ghost use Rattle.sa_core_model.specs.Standing.{IsBetween};

use sa_abstract::UserLevel;

/// In a run from the opening, each space's value stands beside its contexts after every event, a context is there
/// exactly where an activation runs, and the kernel loses nothing.
pub fn every_run_stands<U: UserLevel>()
    ensures opening { (w : WorkloadView) → IsWorkload w → IsBetween U.stands (opening U.calls w) }
    ensures each { (m after : Machine U U.Ctx) (move : Move)
        → IsBetween U.stands m → IsMove U.calls m move after → IsBetween U.stands after }
    ensures run { (w : WorkloadView) (moves : List Move) (after : Machine U U.Ctx)
        → IsWorkload w → IsRun U.calls (opening U.calls w) moves after → IsBetween U.stands after }
{}

/// A turn is one event of the same workload, whatever number its upcall takes.
pub fn a_turn_is_one_event<U: UserLevel>()
    ensures event { (m : Machine U U.Ctx) (p : ProcNo) (fresh : ActNo)
        → IsBetween U.stands m → CanTurn U.calls m p → m.kernel.acts fresh.0 ≡ None
        → (turned U.calls p fresh m).event ≡ m.event + 1 }
    ensures workload { (m : Machine U U.Ctx) (p : ProcNo) (fresh : ActNo)
        → IsBetween U.stands m → CanTurn U.calls m p → m.kernel.acts fresh.0 ≡ None
        → (turned U.calls p fresh m).workload ≡ m.workload }
{}

/// Local instructions that are committed at once are as many turns of the processor, whatever number each turn takes:
/// where no I/O is due in their events, and each step of the context does one of them.
pub fn a_commit_is_as_many_turns<U: UserLevel>()
    ensures event { (m : Machine U U.Ctx) (p : ProcNo) (n : ℕ)
        → IsBetween U.stands m → CanCommit U.calls m p n
        → (committed U.calls p n m).event ≡ m.event + n }
    ensures turns { (m : Machine U U.Ctx) (p : ProcNo) (n : ℕ) (fresh : ActNo)
        → IsBetween U.stands m → CanCommit U.calls m p n → CanStep U.calls m p n
        → m.kernel.acts fresh.0 ≡ None
        → IsRun U.calls m (replicate n (turn p)) (committed U.calls p n m) }
    ensures only { (m : Machine U U.Ctx) (p : ProcNo) (n : ℕ) (after : Machine U U.Ctx)
        → IsBetween U.stands m → CanCommit U.calls m p n → CanStep U.calls m p n
        → IsRun U.calls m (replicate n (turn p)) after
        → after ≡ committed U.calls p n m }
{}
