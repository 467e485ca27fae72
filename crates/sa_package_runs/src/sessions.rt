//! What holds of each debugging session of FastThreads, whatever its commands are; and that both packages can be debugged. No function here does anything.
ghost use Rattle.sa_package_runs.specs.Sessions.{FastThreadsCanBeDebugged, PrioThreadsCanBeDebugged, SessionsAreLegal, SessionsSoFarAreLegal};
ghost use Rattle.sa_package_runs.specs.Told.{SessionsAreTold, SessionsSoFarAreTold, PartsOfSessionsAreTold};

/// What a session asks of its user level FastThreads gives: each turn adds items to the trace, and each item is one that the
/// abstract machine can do.
pub fn fast_threads_can_be_debugged()
    ensures { FastThreadsCanBeDebugged }
{}

/// So does the package with thread priorities, as each user level that meets what it owes to the history.
pub fn prio_threads_can_be_debugged()
    ensures { PrioThreadsCanBeDebugged }
{}

/// Whatever the commands, and also where memory ran out at one, the trace is a legal run and a strict one, with as many events
/// as the machine has made, and has ended exactly where the definitions say so.
pub fn sessions_are_legal()
    ensures whole { SessionsAreLegal }
    ensures so_far { SessionsSoFarAreLegal }
{}

/// A session of a machine is one of its history alone, with the same replies, and also where memory ran out: the events of its
/// trace are exactly the turns that the commands make, one after another, and no other command adds a record. The history and the
/// number of commands that were done tell one session alone, with one list of replies, also where memory ran out at the next one.
pub fn sessions_are_told()
    ensures whole { SessionsAreTold }
    ensures so_far { SessionsSoFarAreTold }
    ensures partly { PartsOfSessionsAreTold }
{}
