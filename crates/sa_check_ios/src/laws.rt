//! What ties the calls to the readings of a history. No function here does anything.
ghost use Rattle.sa_check_ios.specs.PendingView.{RecordsAreRead};

/// After each record the readings of I/Os and pages are what `recorded` makes of those before it.
pub fn pending_is_read()
    ensures { RecordsAreRead }
{}
