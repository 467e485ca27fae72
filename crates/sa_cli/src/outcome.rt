ghost use Rattle.std.specs.Prelude.{◌≡◌};
ghost use Rattle.sa_cli.specs.Outcome.{code_of, status_of, status_of_end, status_of_no_words, status_of_unread, status_of_verdict};
ghost use Rattle.sa_cli.specs.Kernel.{status_of_close, status_of_no_talk};
ghost use Rattle.sa_cli.specs.declared.outcome.Status.TheVariants.{OutOfMemory};

use sa_base::{Bad, End, Trace, Unread};
use sa_check::Verdict;
use sa_io::{NoWords, ReadError};
use sa_laws::Rule;
use sa_seat::Closed;
use sa_session::{Close, NoTalk};
use std::alloc::AllocError;

/// What a search through every order of turns says of a workload.
#[derive(Clone, Copy)]
pub enum Finding {
    /// Every order was looked at, no run is stuck, and from each state some order of turns leads to an end.
    Clear,
    /// Some run is stuck.
    Stuck,
    /// No run that was looked at is stuck, but not every order was looked at, or from some state no order of turns ever ends.
    Open,
}

/// How the top call ended. `code` is the program's exit status.
#[derive(Clone, Copy)]
pub enum Status {
    /// The run ended with every thread done, and all was written.
    AllDone,
    /// The words are no command.
    Usage,
    /// The input is no workload.
    BadWorkload(Bad),
    /// The run ended where nothing could happen any more, and all was written.
    Stuck,
    /// The run ended at its budget, and all was written.
    Budget,
    /// A read failed.
    ReadFault,
    /// A write failed.
    WriteFault,
    /// Memory ran out.
    OutOfMemory,
    /// The workload was written anew, whole.
    Migrated,
    /// The trace is right for its workload, and so it was written.
    Checked,
    /// The trace breaks this rule first, at the event of this number, and so it was written.
    Broken(u64, Rule),
    /// The input is too long for a workload and a trace, or what comes after its workload is no trace text. Lines are counted
    /// from the first line of the trace text, and in an input that is too long from the first of all.
    BadTrace(Bad),
    /// The session of a script is over, and all was written.
    Quit,
    /// The input is too long for a workload and a script, or what comes after its workload is no script. Lines are counted
    /// from the first line of the script, and in an input that is too long from the first of all.
    BadScript(Bad),
    /// Every order of turns of the workload was gone through, as far as the states went, and what was found was written.
    Explored(Finding),
    /// A reply is refused, and all was written. Replies are counted from 1, and 10 is the cause of one that is no step of the machine.
    BadReply(Bad),
}

impl From<ReadError> for Status {
    ghost from_gives = { λ error status. status ≡ status_of error };

    fn from(error: ReadError) -> Self {
        match error {
            ReadError::Fault => Status::ReadFault,
            ReadError::OutOfMemory => Status::OutOfMemory,
        }
    }
}

impl From<NoWords> for Status {
    ghost from_gives = { λ why status. status ≡ status_of_no_words why };

    fn from(why: NoWords) -> Self {
        match why {
            NoWords::NoText => Status::Usage,
            NoWords::OutOfMemory => Status::OutOfMemory,
        }
    }
}

impl From<Unread> for Status {
    ghost from_gives = { λ unread status. status ≡ status_of_unread unread };

    fn from(unread: Unread) -> Self {
        match unread {
            Unread::Bad(bad) => Status::BadWorkload(bad),
            Unread::OutOfMemory => Status::OutOfMemory,
        }
    }
}

impl From<End> for Status {
    ghost from_gives = { λ end status. status ≡ status_of_end end };

    fn from(end: End) -> Self {
        match end {
            End::AllDone => Status::AllDone,
            End::Stuck => Status::Stuck,
            End::Budget => Status::Budget,
        }
    }
}

impl From<Verdict> for Status {
    ghost from_gives = { λ verdict status. status ≡ status_of_verdict verdict };

    fn from(verdict: Verdict) -> Self {
        match verdict {
            Verdict::Legal => Status::Checked,
            Verdict::Broken { event, rule } => Status::Broken(event, rule),
        }
    }
}

impl From<Close> for Status {
    ghost from_gives = { λ close status. status ≡ status_of_close close };

    fn from(close: Close) -> Self {
        match close {
            Close::Ended(end) => Status::from(end),
            Close::Refused { line, wrong } => Status::BadReply(Bad {
                line,
                why: wrong.number(),
            }),
        }
    }
}

impl From<NoTalk> for Status {
    ghost from_gives = { λ why status. status ≡ status_of_no_talk why };

    fn from(why: NoTalk) -> Self {
        match why {
            NoTalk::Read => Status::ReadFault,
            NoTalk::Write => Status::WriteFault,
            NoTalk::OutOfMemory => Status::OutOfMemory,
        }
    }
}

impl From<AllocError> for Status {
    ghost from_gives = { λ _ status. status ≡ OutOfMemory };

    fn from(_: AllocError) -> Self {
        Status::OutOfMemory
    }
}

impl Status {
    /// The program's exit status: 0 where the command did what it is for.
    pub fn code(self) -> u8
        ensures { result ≡ code_of self }
    {
        match self {
            Status::AllDone | Status::Migrated | Status::Checked | Status::Quit => 0,
            Status::Usage => 1,
            Status::BadWorkload(_) => 2,
            Status::Stuck => 3,
            Status::Budget => 4,
            Status::ReadFault => 5,
            Status::WriteFault => 6,
            Status::OutOfMemory => 7,
            Status::Broken(..) => 8,
            Status::BadTrace(_) => 9,
            Status::BadScript(_) => 10,
            Status::BadReply(_) => 11,
            Status::Explored(Finding::Clear) => 0,
            Status::Explored(Finding::Stuck) => 3,
            Status::Explored(Finding::Open) => 4,
        }
    }
}

/// The machine that ran, if one did.
#[derive(Drop)]
pub enum Ran {
    Nothing,
    /// A machine on this thread, with its whole trace.
    Plain(Trace),
    /// A machine that host threads shared, with all that is left of it.
    Shared(Closed),
}

/// What the top call answers.
#[derive(Drop)]
pub struct Outcome {
    pub status: Status,
    pub ran: Ran,
}

impl Outcome {
    /// No machine ran.
    pub(crate) fn nothing(status: Status) -> Self
        ensures status { result.status ≡ status }
        ensures ran { result.ran ≡ Ran.Nothing }
    {
        Outcome {
            status,
            ran: Ran::Nothing,
        }
    }

    /// A machine ran on this thread.
    pub(crate) fn plain(status: Status, trace: Trace) -> Self
        ensures status { result.status ≡ status }
        ensures ran { result.ran ≡ Ran.Plain trace }
    {
        Outcome {
            status,
            ran: Ran::Plain(trace),
        }
    }

    /// A machine ran that host threads shared.
    pub(crate) fn shared(status: Status, closed: Closed) -> Self
        ensures status { result.status ≡ status }
        ensures ran { result.ran ≡ Ran.Shared closed }
    {
        Outcome {
            status,
            ran: Ran::Shared(closed),
        }
    }
}
