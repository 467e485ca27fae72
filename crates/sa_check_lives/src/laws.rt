//! What ties the calls to the readings of a history. No function here does anything.
ghost use Rattle.sa_check_lives.specs.Recorded.{RecordsAreRead, StepsAreRead, UpsAreRead};

/// After each record the readings of lives are what `recorded` makes of those before it, and so are those after a step of
/// a life and after the event of its up.
pub fn lives_are_read()
    ensures records { RecordsAreRead }
    ensures steps { StepsAreRead }
    ensures ups { UpsAreRead }
{}
