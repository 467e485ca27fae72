// The commands `run`, `load`, `migrate` and `check`.
ghost use Rattle.std.specs.Prelude.{◌≡◌, ◌⊎◌, ◌+◌, ℕ, ◌≤◌, List, [], Option, IfOk, IfErr};
ghost use Rattle.sa_sched.specs.Kind.{order_of, AreAmong};
ghost use Rattle.sa_cli.specs.Outcome.{history, RanHere, WritesNothing};
ghost use Rattle.sa_run.specs.Run.{RunsTo, RunsUnended};
ghost use Rattle.sa_input.specs.declared.limits.TheConstants.{WORKLOAD_LIMIT, TRACE_LIMIT};
ghost use Rattle.sa_cli.specs.Schedules.{order_by};
ghost use Rattle.sa_cli.specs.Packages.{runs_of};
ghost use Rattle.sa_cli.specs.Answers.{world};
ghost use Rattle.sa_cli.specs.Streams.{UsesStreams, streams, world_by};
ghost use Rattle.sa_cli.specs.Commands.{run_plan, AnswersRun, AnswersLoad, MigrateAnswers, CheckAnswers};

use crate::found::{Found, read_found};
use crate::outcome::{Outcome, Status};
use crate::reading::{migrated_text, read_workload};
use crate::writing::{write_last_line, write_trace, write_verdict, written};
use sa_base::{MAX_EVENTS, PackageName, RulesName, Trace};
use sa_command::ScheduleWord;
use sa_instr::MAX_SLICE;
use sa_io::{Sink, Source};
use sa_package::FastThreads;
use sa_prio::PrioThreads;
use sa_run::{Ended, run};
use sa_sched::Kind;
use sa_spaces::Workload;
use std::alloc::{AllocError, Global};

/// `run`: runs the workload of the source with this user level, by this order of turns and within the budget, and writes the
/// trace text.
pub(crate) fn run_text<S: Source, K: Sink>(
    alloc: Global,
    schedule: ScheduleWord,
    budget: u64,
    user_level: PackageName,
    source: &mut S,
    sink: &mut K,
) -> Outcome
    requires some { 1 ≤ budget }
    requires few { budget ≤ MAX_EVENTS }
    ensures here { RanHere result.ran }
    ensures uses { UsesStreams (world_by S.left K.taken S.faults K.faults) (WORKLOAD_LIMIT + 1)
        (streams source.old sink.old) (streams source.new sink.new) result.status }
    ensures answers { let told = world_by S.left K.taken S.faults K.faults in
        AnswersRun (run_plan schedule budget user_level) (told (streams source.old sink.old))
        (told (streams source.new sink.new)) (history result.ran) result.status }
{
    let workload = match read_workload(alloc, source) {
        Ok(workload) => workload,
        Err(status) => return Outcome::nothing(status),
    };
    let Ok(kind) = kind_of(alloc, schedule, &workload) else {
        return Outcome::nothing(Status::OutOfMemory);
    };
    workload.ranges();
    match run_with(alloc, user_level, workload, kind, budget) {
        Ok(ended) => write_trace(ended, sink),
        Err(trace) => Outcome::plain(Status::OutOfMemory, trace),
    }
}

// Runs the workload with the user level of the word.
fn run_with(
    alloc: Global,
    user_level: PackageName,
    workload: Workload,
    kind: Kind,
    budget: u64,
) -> Result<Ended, Trace>
    requires some { 1 ≤ budget }
    requires few { budget ≤ MAX_EVENTS }
    requires among { AreAmong workload.processors (order_of kind) }
    ensures ok { IfOk result (λ ended. RunsTo (runs_of user_level).calls workload (order_of kind) budget
        ended.trace.items ended.end ended.events) }
    ensures err { IfErr result (λ trace. (trace.items ≡ [])
        ⊎ RunsUnended (runs_of user_level).calls workload (order_of kind) budget trace.items) }
{
    match user_level {
        PackageName::FastThreads => run::<FastThreads>(alloc, workload, kind, budget),
        PackageName::Priorities => run::<PrioThreads>(alloc, workload, kind, budget),
    }
}

/// `load`: runs the workload of the number by round robin, within the budget, and writes the last line of the trace text alone.
pub(crate) fn run_generated<K: Sink>(
    alloc: Global,
    number: u64,
    budget: u64,
    sink: &mut K,
) -> Outcome
    requires some { 1 ≤ budget }
    requires few { budget ≤ MAX_EVENTS }
    ensures here { RanHere result.ran }
    ensures unwritten { WritesNothing result.status → sink.new ≡ sink.old }
    ensures writes_counted { K.faults sink.old ≤ K.faults sink.new }
    ensures answers { (left : Option (List ℕ)) (reads : ℕ) →
        AnswersLoad number budget (world left (K.taken sink.old) reads (K.faults sink.old))
        (world left (K.taken sink.new) reads (K.faults sink.new)) (history result.ran) result.status }
{
    let Ok(workload) = sa_gen::workload(alloc, number) else {
        return Outcome::nothing(Status::OutOfMemory);
    };
    workload.ranges();
    match run::<FastThreads>(alloc, workload, Kind::RoundRobin, budget) {
        Ok(ended) => write_last_line(ended, sink),
        Err(trace) => Outcome::plain(Status::OutOfMemory, trace),
    }
}

/// `migrate`: reads the workload of the source, a text of version 1, and writes it anew with this slice.
pub(crate) fn migrate<S: Source, K: Sink>(
    alloc: Global,
    slice: u32,
    source: &mut S,
    sink: &mut K,
) -> Status
    requires { slice ≤ MAX_SLICE }
    ensures uses { UsesStreams (world_by S.left K.taken S.faults K.faults) (WORKLOAD_LIMIT + 1)
        (streams source.old sink.old) (streams source.new sink.new) result }
    ensures answers { let told = world_by S.left K.taken S.faults K.faults in
        MigrateAnswers slice (told (streams source.old sink.old))
        (told (streams source.new sink.new)) result }
{
    match migrated_text(alloc, slice, source) {
        Ok(text) => written(sink, &text, Status::Migrated),
        Err(status) => status,
    }
}

/// `check`: judges the trace of the source, which comes after its workload, by these rules, and writes the
/// verdict.
pub(crate) fn check_texts<S: Source, K: Sink>(
    alloc: Global,
    rules: RulesName,
    source: &mut S,
    sink: &mut K,
) -> Status
    ensures uses { UsesStreams (world_by S.left K.taken S.faults K.faults) (TRACE_LIMIT + 1)
        (streams source.old sink.old) (streams source.new sink.new) result }
    ensures answers { let told = world_by S.left K.taken S.faults K.faults in
        CheckAnswers rules (told (streams source.old sink.old))
        (told (streams source.new sink.new)) result }
{
    match read_found(alloc, rules, source) {
        Ok(Found::Judged(verdict)) => write_verdict(alloc, rules, verdict, sink),
        Ok(Found::BadWorkload(bad)) => Status::BadWorkload(bad),
        Ok(Found::BadTrace(bad)) => Status::BadTrace(bad),
        Err(error) => Status::from(error),
    }
}

/// The order of turns of the word, for this workload.
pub(crate) fn kind_of(
    alloc: Global,
    word: ScheduleWord,
    workload: &Workload,
) -> Result<Kind, AllocError>
    ensures order { IfOk result (λ kind. order_of kind ≡ order_by word workload.now) }
    ensures among { IfOk result (λ kind. AreAmong workload.now.processors (order_of kind)) }
{
    match word {
        ScheduleWord::RoundRobin => Ok(Kind::RoundRobin),
        ScheduleWord::Seed(seed) => Ok(Kind::Seed(seed)),
        ScheduleWord::Given => Ok(Kind::Given(Vec::from_slice(alloc, workload.turns())?)),
        ScheduleWord::Hold(proc, from) => Ok(Kind::Hold { proc, from }),
    }
}
