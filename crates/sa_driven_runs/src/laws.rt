//! What holds of each session: of a machine with the driven user level, from the opening of a workload by turns and commits and by
//! replies that are put between them. No function here does anything.
ghost use Rattle.sa_driven_runs.specs.Sessions.{SessionsAreLegal, SessionsEndAsDefined, TurnsAreStrict, SessionsAreRight, EventsFollowMoves, EventsAreNumbered, EventsAreCounted};

/// Its trace is a legal run by the rules of any user level, whatever the replies were: every stop, block and return is told at most
/// once, in time and by an upcall in a fresh activation; every space is aimed at least its share of processors; and every record
/// is a step of the abstract machine (SOSP 1991, section 3).
pub fn each_session_is_legal()
    ensures { SessionsAreLegal }
{}

/// It has ended exactly if the definitions say so of its trace, in the way that they say.
pub fn each_session_ends_as_defined()
    ensures { SessionsEndAsDefined }
{}

/// A session of turns alone is strict: no local instruction comes while an I/O is due.
pub fn sessions_of_turns_are_strict()
    ensures { TurnsAreStrict }
{}

/// The trace of a session that made no move after an end, with the last line that says this end, breaks no rule: the checker says
/// that it is legal.
pub fn each_whole_session_is_right()
    ensures { SessionsAreRight }
{}

/// Event k, from 1 on, is of the processor of the k-th move, and a commit of n instructions counts as n moves; its number is k; and
/// there is one event more, the opening, than the number of the last one says. Replies make no events.
pub fn events_follow_the_moves()
    ensures processors { EventsFollowMoves }
    ensures numbers { EventsAreNumbered }
    ensures count { EventsAreCounted }
{}
