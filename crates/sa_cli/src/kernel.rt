// The command `kernel`.
ghost use Rattle.std.specs.Prelude.{◌≡◌, ◌+◌, ◌≤◌, IfOk, IfErr};
ghost use Rattle.sa_base.specs.declared.limits.TheConstants.{MAX_EVENTS};
ghost use Rattle.sa_io.specs.Input.{LosesAtMost};
ghost use Rattle.sa_trace.specs.TraceText.{last_line_of};
ghost use Rattle.sa_input.specs.declared.limits.TheConstants.{WORKLOAD_LIMIT};
ghost use Rattle.sa_cli.specs.declared.outcome.Ran.TheVariants.{Plain};
ghost use Rattle.sa_cli.specs.Answers.{Writes};
ghost use Rattle.sa_cli.specs.Streams.{streams, world_by};
ghost use Rattle.sa_cli.specs.Outcome.{history, RanHere, LacksWorkload};
ghost use Rattle.sa_cli.specs.Kernel.{status_of_close, end_of_close, LosesSome, HasFront, LacksFront, AnswersKernel};

use crate::commands::kind_of;
use crate::outcome::{Outcome, Status};
use crate::output::write_end;
use crate::writing::status_of;
use sa_base::{End, MAX_EVENTS};
use sa_command::ScheduleWord;
use sa_front::{Front, read_front};
use sa_input::{WORKLOAD_LIMIT, workload_of};
use sa_io::{Sink, Source};
use sa_lines_in::LineReader;
use sa_session::laws::{
    each_session_ends_as_defined, each_session_is_legal, each_whole_session_is_right,
};
use sa_session::{Close, Over, talk};
use sa_spaces::Workload;
use std::alloc::Global;

/// `kernel`: runs the workload of the source by this order of turns and within the budget, where each step of a user level is what the
/// next line of the source says, and writes what is said of it: all that does not depend on a line before that is read.
pub(crate) fn run_by_replies<S: Source, K: Sink>(
    alloc: Global,
    schedule: ScheduleWord,
    budget: u64,
    source: &mut S,
    sink: &mut K,
) -> Outcome
    requires some { 1 ≤ budget }
    requires few { budget ≤ MAX_EVENTS }
    ensures here { RanHere result.ran }
    ensures unwritten { LacksWorkload result.status → sink.new ≡ sink.old }
    ensures lost { LosesSome (S.left source.old) (S.left source.new) }
    ensures reads { S.faults source.old ≤ S.faults source.new }
    ensures writes { K.faults sink.old ≤ K.faults sink.new }
    ensures answers { let told = world_by S.left K.taken S.faults K.faults in
        AnswersKernel schedule budget (told (streams source.old sink.old))
        (told (streams source.new sink.new)) (history result.ran) result.status }
{
    each_session_is_legal();
    each_session_ends_as_defined();
    each_whole_session_is_right();
    let (workload, lines) = match read_workload_in_front(alloc, source) {
        Ok(front) => front,
        Err(status) => return Outcome::nothing(status),
    };
    let Ok(kind) = kind_of(alloc, schedule, &workload) else {
        return Outcome::nothing(Status::OutOfMemory);
    };
    workload.ranges();
    match talk(alloc, workload, kind, budget, lines, source, sink) {
        Ok(over) => write_close(over, sink),
        Err(why) => Outcome::nothing(Status::from(why)),
    }
}

// The workload that stands in front of the lines of the source, and the reader of these lines.
fn read_workload_in_front<S: Source>(
    alloc: Global,
    source: &mut S,
) -> Result<(Workload, LineReader), Status>
    ensures ok { IfOk result (λ front. HasFront (S.left source.old) (S.left source.new) front.0 front.1) }
    ensures err { IfErr result
        (LacksFront (S.left source.old) (S.faults source.old) (S.faults source.new)) }
    ensures lost { LosesAtMost (WORKLOAD_LIMIT + 1) (S.left source.old) (S.left source.new) }
    ensures counted { S.faults source.old ≤ S.faults source.new }
{
    let Front { text, lines } = read_front(alloc, WORKLOAD_LIMIT, source)?;
    let workload = workload_of(alloc, &text)?;
    Ok((workload, lines))
}

// Writes the last line of a session that is over. It takes no memory.
fn write_close<K: Sink>(over: Over, sink: &mut K) -> Outcome
    ensures ran { result.ran ≡ Plain over.trace }
    ensures status { Writes (K.taken sink.old) (K.taken sink.new)
        (K.faults sink.old) (K.faults sink.new)
        (last_line_of over.trace.items (end_of_close over.close) over.events)
        (status_of_close over.close) result.status }
    ensures counted { K.faults sink.old ≤ K.faults sink.new }
{
    let Over {
        trace,
        events,
        close,
    } = over;
    let wrote = write_end(sink, trace.items(), end_of(close), events);
    let status = status_of(wrote, Status::from(close));
    Outcome::plain(status, trace)
}

// The end that the last line of a session says: where a reply is refused, the run goes on.
fn end_of(close: Close) -> End
    ensures { result ≡ end_of_close close }
{
    match close {
        Close::Ended(end) => end,
        Close::Refused { .. } => End::Budget,
    }
}
