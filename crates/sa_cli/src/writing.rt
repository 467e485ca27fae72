// What is written of a run.
ghost use Rattle.std.specs.Prelude.{◌≡◌, ◌≤◌, OnOk, OnErr};
ghost use Rattle.sa_trace.specs.TraceText.{trace_text, last_line_of};
ghost use Rattle.sa_check.specs.Line.{line_of};
ghost use Rattle.sa_cli.specs.Outcome.{status_of_end, status_of_verdict, WritesNothing};
ghost use Rattle.sa_cli.specs.Answers.{Writes, WritesOrStops};
ghost use Rattle.sa_cli.specs.declared.outcome.Ran.TheVariants.{Plain};
ghost use Rattle.sa_cli.specs.declared.outcome.Status.TheVariants.{WriteFault};

use crate::outcome::{Outcome, Status};
use crate::output::{write_end, write_run};
use sa_base::{End, RulesName, Trace};
use sa_check::{Verdict, verdict_line};
use sa_io::{Failed, Sink, write_text};
use sa_run::Ended;
use std::alloc::Global;

/// Writes the text of a run that ended. It takes no memory.
pub(crate) fn write_trace<K: Sink>(ended: Ended, sink: &mut K) -> Outcome
    ensures ran { result.ran ≡ Plain ended.trace }
    ensures status { Writes (K.taken sink.old) (K.taken sink.new)
        (K.faults sink.old) (K.faults sink.new)
        (trace_text ended.trace.items ended.end ended.events)
        (status_of_end ended.end) result.status }
    ensures unwritten { WritesNothing result.status → sink.new ≡ sink.old }
    ensures counted { K.faults sink.old ≤ K.faults sink.new }
{
    let status = run_written(sink, &ended.trace, ended.end, ended.events);
    Outcome::plain(status, ended.trace)
}

/// Writes the last line of the text of a run that ended. It takes no memory.
pub(crate) fn write_last_line<K: Sink>(ended: Ended, sink: &mut K) -> Outcome
    ensures ran { result.ran ≡ Plain ended.trace }
    ensures status { Writes (K.taken sink.old) (K.taken sink.new)
        (K.faults sink.old) (K.faults sink.new)
        (last_line_of ended.trace.items ended.end ended.events)
        (status_of_end ended.end) result.status }
    ensures unwritten { WritesNothing result.status → sink.new ≡ sink.old }
    ensures counted { K.faults sink.old ≤ K.faults sink.new }
{
    let wrote = write_end(sink, ended.trace.items(), ended.end, ended.events);
    let status = status_of(wrote, Status::from(ended.end));
    Outcome::plain(status, ended.trace)
}

/// Writes the line of a verdict by these rules.
pub(crate) fn write_verdict<K: Sink>(
    alloc: Global,
    rules: RulesName,
    verdict: Verdict,
    sink: &mut K,
) -> Status
    ensures status { WritesOrStops (K.taken sink.old) (K.taken sink.new)
        (K.faults sink.old) (K.faults sink.new)
        (line_of rules verdict) (status_of_verdict verdict) result }
    ensures unwritten { WritesNothing result → sink.new ≡ sink.old }
    ensures counted { K.faults sink.old ≤ K.faults sink.new }
{
    match verdict_line(alloc, rules, verdict) {
        Ok(line) => written(sink, &line, Status::from(verdict)),
        Err(_) => Status::OutOfMemory,
    }
}

/// Writes the text. The answer is this status where all was written.
pub(crate) fn written<K: Sink>(sink: &mut K, text: &[u8], done: Status) -> Status
    ensures status { Writes (K.taken sink.old) (K.taken sink.new)
        (K.faults sink.old) (K.faults sink.new) text.now done result }
    ensures counted { K.faults sink.old ≤ K.faults sink.new }
{
    status_of(write_text(sink, text), done)
}

/// Writes the text of a run with this trace that ended so, after `events` events. It takes no memory.
pub(crate) fn run_written<K: Sink>(sink: &mut K, trace: &Trace, end: End, events: u64) -> Status
    ensures status { Writes (K.taken sink.old) (K.taken sink.new)
        (K.faults sink.old) (K.faults sink.new) (trace_text trace.now.items end events) (status_of_end end) result }
    ensures unwritten { WritesNothing result → sink.new ≡ sink.old }
    ensures counted { K.faults sink.old ≤ K.faults sink.new }
{
    status_of(
        write_run(sink, trace.items(), end, events),
        Status::from(end),
    )
}

/// The status of a write, with this one where all was written.
pub(crate) fn status_of(wrote: Result<(), Failed>, done: Status) -> Status
    ensures whole { OnOk wrote (result ≡ done) }
    ensures cut { OnErr wrote (result ≡ WriteFault) }
{
    match wrote {
        Ok(()) => done,
        Err(_) => Status::WriteFault,
    }
}
