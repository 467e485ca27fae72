//! The laws of outlooks, of both packages. No function here does anything.
ghost use Rattle.sa_package_outlook.specs.Laws.{FastIgnoresNumbers, FastTurnsKeepOutlooks, FastTurnsPutOutAlike, FastEndsFollowOutlooks, FastEndsIgnoreNumbers};
ghost use Rattle.sa_package_outlook.specs.Laws.{PrioIgnoresNumbers, PrioTurnsKeepOutlooks, PrioTurnsPutOutAlike, PrioEndsFollowOutlooks, PrioEndsIgnoreNumbers};

/// A package looks at no number of an activation or an event: on the same value, and with contexts that differ in their numbers or in
/// an idle count above the patience alone, each call gives the same value, the same answer, and contexts that differ in no more.
pub fn packages_ignore_numbers()
    ensures fast { FastIgnoresNumbers }
    ensures priorities { PrioIgnoresNumbers }
{}

/// Two machines of runs with equal outlooks have equal outlooks again after turns of the same processors, whichever numbers these turns
/// take.
pub fn turns_keep_outlooks()
    ensures fast { FastTurnsKeepOutlooks }
    ensures priorities { PrioTurnsKeepOutlooks }
{}

/// If two machines of runs have equal outlooks and each thread has put out the same in both, so it has after turns of the same
/// processors, whichever numbers these turns take.
pub fn turns_put_out_alike()
    ensures fast { FastTurnsPutOutAlike }
    ensures priorities { PrioTurnsPutOutAlike }
{}

/// Of two machines of runs with equal outlooks both have ended, in the same way, or neither has.
pub fn ends_follow_outlooks()
    ensures fast { FastEndsFollowOutlooks }
    ensures priorities { PrioEndsFollowOutlooks }
{}

/// No end of a run depends on the numbers that are handed out: turns of the same processors lead from the opening of a workload to the
/// same end, whichever numbers they take.
pub fn ends_ignore_numbers()
    ensures fast { FastEndsIgnoreNumbers }
    ensures priorities { PrioEndsIgnoreNumbers }
{}
