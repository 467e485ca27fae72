//! Laws of the board. No function here does anything: its clauses are proved for all boards and runs.
ghost use Rattle.sa_vp_model.specs.Run.{TurnsAreRead};
ghost use Rattle.sa_vp_model.specs.Runs.{RunsAreRead};
ghost use Rattle.sa_vp_model.specs.End.{EndsAreRead};

/// A turn on a board that is read off a history is the turn of that history by the rules, and leaves what is read
/// after it.
pub fn turns_are_read()
    ensures { TurnsAreRead }
{}

/// For every accepted workload and every order of its processors the items of the run on the board are those of its
/// history, which is legal; its losses are those of that history, and it ends so.
pub fn runs_are_read()
    ensures { RunsAreRead }
{}

/// The end of a run on the board is that of what is read.
pub fn ends_are_read()
    ensures { EndsAreRead }
{}
