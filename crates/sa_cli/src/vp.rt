// The command `vp`.
ghost use Rattle.std.specs.Prelude.{◌≡◌, ◌+◌, ◌≤◌, length, OnOk, OnErr};
ghost use Rattle.std.specs.Io.KnownBytes.{Appends};
ghost use Rattle.sa_base.specs.declared.limits.TheConstants.{MAX_SPACES};
ghost use Rattle.sa_io.specs.Faults.{HasRisen, AppendsPrefix};
ghost use Rattle.sa_input.specs.declared.limits.TheConstants.{WORKLOAD_LIMIT};
ghost use Rattle.sa_cli.specs.Outcome.{history, status_of_end, RanHere, WritesNothing};
ghost use Rattle.sa_cli.specs.Answers.{Writes};
ghost use Rattle.sa_cli.specs.Streams.{UsesStreams, streams, world_by};
ghost use Rattle.sa_cli.specs.Virtual.{run_text, AnswersVp};
ghost use Rattle.sa_cli.specs.declared.outcome.Ran.TheVariants.{Plain};

use crate::commands::kind_of;
use crate::outcome::{Outcome, Status};
use crate::output::put_run;
use crate::reading::read_workload;
use crate::writing::status_of;
use sa_base::MAX_EVENTS;
use sa_command::ScheduleWord;
use sa_io::{Failed, PieceWriter, Sink, Source};
use sa_trace::{LineBuffer, print_losses};
use sa_vp::{Ended, run};
use std::alloc::Global;

/// `vp`: runs the workload of the source on virtual processors, by this order of turns and within the budget, and writes the
/// trace text and after it what each space has lost.
pub(crate) fn run_virtual<S: Source, K: Sink>(
    alloc: Global,
    schedule: ScheduleWord,
    budget: u64,
    source: &mut S,
    sink: &mut K,
) -> Outcome
    requires some { 1 ≤ budget }
    requires few { budget ≤ MAX_EVENTS }
    ensures here { RanHere result.ran }
    ensures uses { UsesStreams (world_by S.left K.taken S.faults K.faults) (WORKLOAD_LIMIT + 1)
        (streams source.old sink.old) (streams source.new sink.new) result.status }
    ensures answers { let told = world_by S.left K.taken S.faults K.faults in
        AnswersVp schedule budget (told (streams source.old sink.old))
        (told (streams source.new sink.new)) (history result.ran) result.status }
{
    let workload = match read_workload(alloc, source) {
        Ok(workload) => workload,
        Err(status) => return Outcome::nothing(status),
    };
    let Ok(kind) = kind_of(alloc, schedule, &workload) else {
        return Outcome::nothing(Status::OutOfMemory);
    };
    workload.ranges();
    match run(alloc, workload, kind, budget) {
        Ok(ended) => write_ended(ended, sink),
        Err(trace) => Outcome::plain(Status::OutOfMemory, trace),
    }
}

// Writes the text of a run that ended. It takes no memory.
fn write_ended<K: Sink>(ended: Ended, sink: &mut K) -> Outcome
    requires { length ended.lost.items ≤ MAX_SPACES }
    ensures ran { result.ran ≡ Plain ended.trace }
    ensures status { Writes (K.taken sink.old) (K.taken sink.new)
        (K.faults sink.old) (K.faults sink.new)
        (run_text ended.trace.items ended.end ended.events ended.lost.items)
        (status_of_end ended.end) result.status }
    ensures unwritten { WritesNothing result.status → sink.new ≡ sink.old }
    ensures counted { K.faults sink.old ≤ K.faults sink.new }
{
    let status = status_of(write_text(sink, &ended), Status::from(ended.end));
    Outcome::plain(status, ended.trace)
}

// Writes the trace text of a run, and after it the lines of its losses.
fn write_text<K: Sink>(sink: &mut K, ended: &Ended) -> Result<(), Failed>
    requires { length ended.now.lost.items ≤ MAX_SPACES }
    ensures ok { OnOk result (Appends (K.taken sink.old) (K.taken sink.new)
        (run_text ended.now.trace.items ended.now.end ended.now.events ended.now.lost.items)) }
    ensures err { OnErr result (AppendsPrefix (K.taken sink.old) (K.taken sink.new)
        (run_text ended.now.trace.items ended.now.end ended.now.events ended.now.lost.items)) }
    ensures fault { OnErr result (HasRisen (K.faults sink.old) (K.faults sink.new)) }
    ensures counted { K.faults sink.old ≤ K.faults sink.new }
{
    let mut losses = LineBuffer::new();
    print_losses(&ended.lost, &mut losses);
    let mut pieces = PieceWriter::new();
    put_run(
        &mut pieces,
        sink,
        ended.trace.items(),
        ended.end,
        ended.events,
    )?;
    pieces.put(sink, losses.as_slice())?;
    pieces.end(sink)
}
