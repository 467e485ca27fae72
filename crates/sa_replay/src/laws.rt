// What holds of the needs: the contract is the law, and the body does nothing.
ghost use Rattle.sa_replay.specs.Needs.{NeedsAreThese};

/// Where what is beyond the state is what is read, the needs that a replay decides are those of the record.
pub fn needs_are_these()
    ensures { NeedsAreThese }
{}
