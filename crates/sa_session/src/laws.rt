//! What holds of each session. No function here does anything.
ghost use Rattle.sa_session.specs.Laws.{SessionsAreLegal, SessionsEndAsDefined, WholeSessionsAreRight, EventsAreCounted};

/// As far as it came, its trace is a legal run by the rules of any user level, and a strict one, whatever the replies were: every
/// stop, block and return is told at most once, in time and by an upcall in a fresh activation; every space is aimed at least its
/// share of processors; and every record is a step of the abstract machine (SOSP 1991, section 3). Its k-th event is of the k-th
/// processor of the order of turns.
pub fn each_session_is_legal()
    ensures { SessionsAreLegal }
{}

/// It has ended exactly if the definitions say so of its trace, in the way that they say.
pub fn each_session_ends_as_defined()
    ensures { SessionsEndAsDefined }
{}

/// With a last line that says its end, the trace of a session that ended breaks no rule: the checker says that it is legal.
pub fn each_whole_session_is_right()
    ensures { WholeSessionsAreRight }
{}

/// Its machine counts its events, without the opening.
pub fn events_are_counted()
    ensures { EventsAreCounted }
{}
