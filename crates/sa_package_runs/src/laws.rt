//! What holds of each run of the machine with FastThreads, from the opening of a workload by turns and commits in any order,
//! and of each run by a schedule with thread priorities. No function here does anything.
ghost use Rattle.sa_laws.specs.Rules.{fast_threads};
ghost use Rattle.sa_package_model.specs.Step.{fast_calls};
ghost use Rattle.sa_ranks.specs.Rules.{prio_threads};
ghost use Rattle.sa_prio_model.specs.Step.{prio_calls};
ghost use Rattle.sa_package_runs.specs.Whole.{RunsSoFarAreLegal, WholeRunsAreLegal};
ghost use Rattle.sa_package_runs.specs.Threads.{LocksAreLegal, ClosedAreLegal, SharedRunsAreLegal};
ghost use Rattle.sa_package_runs.specs.Commits.{LocalInstructionsAreSteps, CommitsAreTurns, TurnsAreCommits};
ghost use Rattle.sa_package_runs.specs.Calls.{StartReaches, TurnsReach, TurnsAloneReach, CommitsReach, ReachedAreLegal, ReachedAreStrict, ReachedEndAsDefined, CommitsAddInstructions};
ghost use Rattle.sa_package_runs.specs.Waiting.{LeftThreadsWait};
ghost use Rattle.sa_package_runs.specs.Runs.{RunsAreLegal, RunsEndAsDefined, TurnsAreStrict, RunsAreRight, EventsFollowMoves, EventsAreNumbered, EventsAreCounted};

/// Its trace is a legal run by FastThreads' rules: every stop, block and return is told at most once, in time and by an
/// upcall in a fresh activation; every space is aimed at least its share of processors; every record is a step of the
/// abstract machine; demand is announced, list locks and list order are kept, and no thread that holds a list lock is made
/// ready (SOSP 1991, sections 3 and 4).
pub fn each_run_is_legal()
    ensures { RunsAreLegal }
{}

/// It has ended exactly where the definitions say so of its trace, in the way that they say.
pub fn each_run_ends_as_defined()
    ensures { RunsEndAsDefined }
{}

/// A run of turns alone is strict: no local instruction comes while an I/O is due.
pub fn turns_are_strict()
    ensures { TurnsAreStrict }
{}

/// The trace of a run that made no move after an end, with the last line that says this end, breaks no rule: the checker
/// says that it is legal.
pub fn each_whole_run_is_right()
    ensures { RunsAreRight }
{}

/// Event k, from 1 on, is of the processor of the k-th move, where a commit of n instructions counts as n moves; its number
/// is k; and there is one event more, the opening, than the number of the last one says.
pub fn events_follow_the_moves()
    ensures processors { EventsFollowMoves }
    ensures numbers { EventsAreNumbered }
    ensures count { EventsAreCounted }
{}

/// Whoever drives a core by its calls has a legal history at each moment: `start` opens one, `turn` and `commit` keep it so, one
/// that was made by turns alone is strict, and `end` is as the definitions say; and `commit` adds exactly the records of its
/// instructions, one an event, and after them a closing where a slice ends.
pub fn core_calls_keep_legal()
    ensures start { StartReaches }
    ensures turn { TurnsReach }
    ensures turn_alone { TurnsAloneReach }
    ensures commit { CommitsReach }
    ensures legal { ReachedAreLegal }
    ensures strict { ReachedAreStrict }
    ensures end { ReachedEndAsDefined }
    ensures adds { CommitsAddInstructions }
{}

/// While the next instructions of a context are local, each of its steps does one of them, whatever it sees. So local
/// instructions that are committed at once are as many turns of the processor, whatever number each turn takes, and no other
/// machine comes of these turns, where no I/O is due in their events.
pub fn a_commit_is_as_many_turns()
    ensures steps { LocalInstructionsAreSteps }
    ensures turns { CommitsAreTurns }
    ensures only { TurnsAreCommits }
{}

/// Each run by a schedule with FastThreads, as far as it came, is a legal run and a strict one, and its events follow the schedule; where it
/// ended, it ended as the definitions say, and with its last line it breaks no rule.
pub fn runs_by_a_schedule_are_legal()
    ensures so_far { RunsSoFarAreLegal fast_calls fast_threads }
    ensures whole { WholeRunsAreLegal fast_calls fast_threads }
{}

/// Each run by a schedule with thread priorities, as far as it came, is a legal run by their rules and a strict one, and its events
/// follow the schedule; where it ended, it ended as the definitions say, and with its last line it breaks no rule.
pub fn runs_with_priorities_are_legal()
    ensures so_far { RunsSoFarAreLegal prio_calls prio_threads }
    ensures whole { WholeRunsAreLegal prio_calls prio_threads }
{}

/// Under host threads, whenever the machine's lock is free the history that it guards is a legal run that had not ended before
/// its last event, and the keeper's count of each processor is the number of its events; so it is of the closed machine, with
/// its end; and where all host threads are done there are as many events as the counts sum up to, and where the budget ended
/// the run each processor had just its quota.
pub fn shared_runs_are_legal()
    ensures locked { LocksAreLegal }
    ensures closed { ClosedAreLegal }
    ensures done { SharedRunsAreLegal }
{}

/// Where a run is stuck, each thread that was made and is not done is in the queue of a mutex, of a semaphore, or of those that join
/// a thread: neither package loses one.
pub fn left_threads_wait()
    ensures fast { LeftThreadsWait fast_calls }
    ensures prio { LeftThreadsWait prio_calls }
{}
