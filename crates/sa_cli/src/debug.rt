// The command `debug`.
ghost use Rattle.std.specs.Prelude.{◌≡◌, ◌+◌, ◌≤◌, ◌++◌, IfOk, IfErr, OnOk, OnErr};
ghost use Rattle.std.specs.Io.KnownBytes.{Appends};
ghost use Rattle.sa_io.specs.Faults.{HasRisen, AppendsPrefix};
ghost use Rattle.sa_trace.specs.TraceText.{trace_text};
ghost use Rattle.sa_input.specs.declared.limits.TheConstants.{SCRIPT_LIMIT};
ghost use Rattle.sa_cli.specs.declared.outcome.Ran.TheVariants.{Plain};
ghost use Rattle.sa_cli.specs.Answers.{Writes};
ghost use Rattle.sa_cli.specs.Streams.{UsesStreams, streams, world_by};
ghost use Rattle.sa_cli.specs.Debugging.{AnswersDebug};
ghost use Rattle.sa_cli.specs.Outcome.{RanHere, WritesNothing};
ghost use Rattle.sa_cli.specs.Scripted.{IsDone, IsStopped};

use crate::outcome::{Outcome, Status};
use crate::output::put_run;
use crate::session::{Debugged, Undebugged, debug};
use crate::writing::status_of;
use sa_base::{Bad, End, Item, MAX_EVENTS, Trace, Unread};
use sa_input::{SCRIPT_LIMIT, parts_of, refusal_of_long};
use sa_io::{Failed, PieceWriter, Sink, Source, read_input};
use std::alloc::Global;

// Why no session is over.
#[derive(Drop)]
enum NoSession {
    // The first part of the input is no workload text.
    BadWorkload(Bad),
    // The input is too long, or the rest is no script.
    BadScript(Bad),
    // Memory ran out, with the trace so far.
    OutOfMemory(Trace),
}

/// `debug`: makes the session of the source's workload by the script that comes after it, within the budget, and writes the
/// replies and the trace text once the session is over.
pub(crate) fn debug_texts<S: Source, K: Sink>(
    alloc: Global,
    budget: u64,
    source: &mut S,
    sink: &mut K,
) -> Outcome
    requires some { 1 ≤ budget }
    requires few { budget ≤ MAX_EVENTS }
    ensures here { RanHere result.ran }
    ensures uses { UsesStreams (world_by S.left K.taken S.faults K.faults) (SCRIPT_LIMIT + 1)
        (streams source.old sink.old) (streams source.new sink.new) result.status }
    ensures answers { let told = world_by S.left K.taken S.faults K.faults in
        AnswersDebug budget (told (streams source.old sink.old))
        (told (streams source.new sink.new)) result.ran result.status }
{
    let input = match read_input(alloc, SCRIPT_LIMIT, source) {
        Ok(input) => input,
        Err(error) => return Outcome::nothing(Status::from(error)),
    };
    match debugged(alloc, &input, budget) {
        Ok(debugged) => write_session(debugged, sink),
        Err(NoSession::BadWorkload(bad)) => Outcome::nothing(Status::BadWorkload(bad)),
        Err(NoSession::BadScript(bad)) => Outcome::nothing(Status::BadScript(bad)),
        Err(NoSession::OutOfMemory(trace)) => Outcome::plain(Status::OutOfMemory, trace),
    }
}

// The session of the input, once it is over.
fn debugged(alloc: Global, input: &[u8], budget: u64) -> Result<Debugged, NoSession>
    requires some { 1 ≤ budget }
    requires few { budget ≤ MAX_EVENTS }
    ensures ok { IfOk result (λ x. IsDone budget input.now x.replies.items x.trace.items x.end x.events) }
    ensures err { IfErr result (IsStopped budget input.now) }
{
    if input.len() > SCRIPT_LIMIT {
        return Err(NoSession::BadScript(refusal_of_long(SCRIPT_LIMIT, input)));
    }
    match parts_of(alloc, input) {
        Ok((workload, second)) => match debug(alloc, workload, second, budget) {
            Ok(debugged) => Ok(debugged),
            Err(Undebugged::BadScript(bad)) => Err(NoSession::BadScript(bad)),
            Err(Undebugged::OutOfMemory(trace)) => Err(NoSession::OutOfMemory(trace)),
        },
        Err(Unread::Bad(bad)) => Err(NoSession::BadWorkload(bad)),
        Err(Unread::OutOfMemory) => Err(NoSession::OutOfMemory(Trace::new(alloc))),
    }
}

// Writes the replies and the trace text of a session that is over. It takes no memory.
fn write_session<K: Sink>(debugged: Debugged, sink: &mut K) -> Outcome
    ensures ran { result.ran ≡ Plain debugged.trace }
    ensures status { Writes (K.taken sink.old) (K.taken sink.new)
        (K.faults sink.old) (K.faults sink.new)
        (debugged.replies.items ++ trace_text debugged.trace.items debugged.end debugged.events)
        Status.Quit result.status }
    ensures unwritten { WritesNothing result.status → sink.new ≡ sink.old }
    ensures counted { K.faults sink.old ≤ K.faults sink.new }
{
    let Debugged {
        replies,
        trace,
        end,
        events,
    } = debugged;
    let status = session_written(sink, &replies, trace.items(), end, events);
    Outcome::plain(status, trace)
}

// Writes the replies, and after them the trace text of these items, this end and this number of events.
fn session_written<K: Sink>(
    sink: &mut K,
    replies: &[u8],
    items: &[Item],
    end: End,
    events: u64,
) -> Status
    ensures status { Writes (K.taken sink.old) (K.taken sink.new) (K.faults sink.old) (K.faults sink.new)
        (replies.now ++ trace_text items.now end events) Status.Quit result }
    ensures unwritten { WritesNothing result → sink.new ≡ sink.old }
    ensures counted { K.faults sink.old ≤ K.faults sink.new }
{
    status_of(put_session(sink, replies, items, end, events), Status::Quit)
}

// Writes the same, and says whether a write failed.
fn put_session<K: Sink>(
    sink: &mut K,
    replies: &[u8],
    items: &[Item],
    end: End,
    events: u64,
) -> Result<(), Failed>
    ensures ok { OnOk result (Appends (K.taken sink.old) (K.taken sink.new)
        (replies.now ++ trace_text items.now end events)) }
    ensures err { OnErr result (AppendsPrefix (K.taken sink.old) (K.taken sink.new)
        (replies.now ++ trace_text items.now end events)) }
    ensures fault { OnErr result (HasRisen (K.faults sink.old) (K.faults sink.new)) }
    ensures counted { K.faults sink.old ≤ K.faults sink.new }
{
    let mut pieces = PieceWriter::new();
    pieces.put(sink, replies)?;
    put_run(&mut pieces, sink, items, end, events)?;
    pieces.end(sink)
}
