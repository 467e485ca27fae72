// The command `threads`.
ghost use Rattle.std.specs.Prelude.{◌≡◌, ◌+◌, ◌≤◌, sum};
ghost use Rattle.sa_base.specs.declared.limits.TheConstants.{MAX_BURST, MAX_EVENTS};
ghost use Rattle.sa_input.specs.declared.limits.TheConstants.{WORKLOAD_LIMIT};
ghost use Rattle.sa_cli.specs.Outcome.{RanShared, WritesNothing};
ghost use Rattle.sa_cli.specs.Streams.{UsesStreams, streams, world_by};
ghost use Rattle.sa_cli.specs.Shared.{WritesClosed, AnswersThreads};
ghost use Rattle.sa_cli.specs.declared.outcome.Ran.TheVariants.{Shared};

use crate::outcome::{Outcome, Status};
use crate::reading::read_workload;
use crate::writing::run_written;
use sa_io::{Sink, Source};
use sa_package::FastThreads;
use sa_seat::Closed;
use sa_workers::{Gate, Limits, run};
use std::alloc::Global;
use std::sync::Wait;
use std::thread::Threads;

/// `threads`: runs the workload of the source with a host thread for each processor, within the limits, and writes the trace
/// text.
pub(crate) fn run_shared<S: Source, K: Sink, G: Gate, R: Threads + Wait + Sync>(
    rt: &R,
    alloc: Global,
    limits: Limits,
    source: &mut S,
    sink: &mut K,
    gate: &G,
) -> Outcome
    requires some { 1 ≤ limits.budget }
    requires few { limits.budget ≤ MAX_EVENTS }
    requires some_burst { 1 ≤ limits.burst }
    requires few_burst { limits.burst ≤ MAX_BURST }
    ensures shared { RanShared result.ran }
    ensures uses { UsesStreams (world_by S.left K.taken S.faults K.faults) (WORKLOAD_LIMIT + 1)
        (streams source.old sink.old) (streams source.new sink.new) result.status }
    ensures answers { let told = world_by S.left K.taken S.faults K.faults in
        AnswersThreads limits.budget (told (streams source.old sink.old))
        (told (streams source.new sink.new)) result.ran result.status }
{
    let workload = match read_workload(alloc, source) {
        Ok(workload) => workload,
        Err(status) => return Outcome::nothing(status),
    };
    workload.ranges();
    match run::<FastThreads, R, G>(rt, alloc, workload, limits, gate) {
        Ok(closed) => write_closed(closed, sink),
        Err(_) => Outcome::nothing(Status::OutOfMemory),
    }
}

// Writes the text of a run that ended, which takes no memory. A run without an end ran out of memory.
fn write_closed<K: Sink>(closed: Closed, sink: &mut K) -> Outcome
    requires { sum closed.turns ≤ MAX_EVENTS }
    ensures ran { result.ran ≡ Shared closed }
    ensures status { WritesClosed (K.taken sink.old) (K.taken sink.new)
        (K.faults sink.old) (K.faults sink.new) closed result.status }
    ensures unwritten { WritesNothing result.status → sink.new ≡ sink.old }
    ensures counted { K.faults sink.old ≤ K.faults sink.new }
{
    let status = match closed.end() {
        Some(end) => {
            let events = closed.turns().iter().sum();
            run_written(sink, closed.trace(), end, events)
        }
        None => Status::OutOfMemory,
    };
    Outcome::shared(status, closed)
}
