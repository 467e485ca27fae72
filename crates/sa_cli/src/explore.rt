// The command `explore`.
ghost use Rattle.std.specs.Prelude.{◌≡◌, ◌+◌, ◌≤◌, IfOk, IfErr};
ghost use Rattle.std.specs.Option.{option_copied};
ghost use Rattle.sa_states.specs.declared.TheConstants.{MAX_STATES};
ghost use Rattle.sa_workload.specs.Bad.{BadAt};
ghost use Rattle.sa_io.specs.Input.{LosesAtMost};
ghost use Rattle.sa_explore_run.specs.Answer.{AreWithin};
ghost use Rattle.sa_input.specs.declared.limits.TheConstants.{WORKLOAD_LIMIT};
ghost use Rattle.sa_cli.specs.Refusals.{NothingRead};
ghost use Rattle.sa_cli.specs.Streams.{UsesStreams, streams, world_by};
ghost use Rattle.sa_cli.specs.Exploring.{Finds, found_by, told_text, IsReadyText, finding_of, GaveExplored, ExploreAnswers};

use crate::outcome::{Finding, Status};
use crate::reading::read_workload;
use crate::writing::written;
use sa_base::PackageName;
use sa_command::GiveWord;
use sa_explore::Progress;
use sa_explore_model::{Explored, Extent, Found};
use sa_explore_run::{Answer, explored_text, search, workload_text};
use sa_io::{Sink, Source};
use sa_package::FastThreads;
use sa_package_runs::laws::left_threads_wait;
use sa_package_runs::sessions::{fast_threads_can_be_debugged, prio_threads_can_be_debugged};
use sa_prio::PrioThreads;
use sa_spaces::Workload;
use std::alloc::{AllocError, Global};

// What is told of a search.
#[derive(Drop)]
struct Told {
    text: Vec<u8>,
    finding: Finding,
}

/// `explore`: goes through every order of turns of the workload of the source with this user level, keeps at most that many states, and
/// writes what was found, or the workload with the schedule that is asked for.
pub(crate) fn explore_text<S: Source, K: Sink, P: Progress>(
    alloc: Global,
    states: u32,
    user_level: PackageName,
    give: Option<GiveWord>,
    source: &mut S,
    sink: &mut K,
    progress: &mut P,
) -> Status
    requires some { 1 ≤ states }
    requires few { states ≤ MAX_STATES }
    ensures uses { UsesStreams (world_by S.left K.taken S.faults K.faults) (WORKLOAD_LIMIT + 1)
        (streams source.old sink.old) (streams source.new sink.new) result }
    ensures answers { let told = world_by S.left K.taken S.faults K.faults in
        ExploreAnswers states user_level give (told (streams source.old sink.old))
        (told (streams source.new sink.new)) result }
{
    match gone_through(alloc, states, user_level, give, source, progress) {
        Ok(told) => written(sink, &told.text, Status::Explored(told.finding)),
        Err(status) => status,
    }
}

// What is told of the search of the source's workload.
fn gone_through<S: Source, P: Progress>(
    alloc: Global,
    states: u32,
    user_level: PackageName,
    give: Option<GiveWord>,
    source: &mut S,
    progress: &mut P,
) -> Result<Told, Status>
    requires some { 1 ≤ states }
    requires few { states ≤ MAX_STATES }
    ensures ok { IfOk result (λ told. GaveExplored states user_level give
        (S.left source.old) (S.left source.new) told.text.items told.finding) }
    ensures err { IfErr result
        (NothingRead BadAt (S.left source.old) (S.faults source.old) (S.faults source.new)) }
    ensures lost { LosesAtMost (WORKLOAD_LIMIT + 1) (S.left source.old) (S.left source.new) }
    ensures counted { S.faults source.old ≤ S.faults source.new }
{
    let workload = read_workload(alloc, source)?;
    let answer = search_by(alloc, states, user_level, &workload, progress)?;
    let text = told_text(alloc, give, &workload, &answer)?;
    let finding = finding_of(&answer.explored);
    Ok(Told { text, finding })
}

// The search of a workload with this user level.
fn search_by<P: Progress>(
    alloc: Global,
    states: u32,
    user_level: PackageName,
    workload: &Workload,
    progress: &mut P,
) -> Result<Answer, AllocError>
    requires some { 1 ≤ states }
    requires few { states ≤ MAX_STATES }
    ensures finds { IfOk result (λ answer.
        Finds user_level workload.now states answer.explored answer.waits.items) }
    ensures within { IfOk result (λ answer. AreWithin workload.now answer.explored) }
{
    fast_threads_can_be_debugged();
    prio_threads_can_be_debugged();
    left_threads_wait();
    workload.ranges();
    match user_level {
        PackageName::FastThreads => search::<FastThreads, P>(alloc, workload, states, progress),
        PackageName::Priorities => search::<PrioThreads, P>(alloc, workload, states, progress),
    }
}

// What is written of a search.
fn told_text(
    alloc: Global,
    give: Option<GiveWord>,
    workload: &Workload,
    answer: &Answer,
) -> Result<Vec<u8>, AllocError>
    requires { AreWithin workload.now answer.now.explored }
    ensures text { IfOk result (λ text. text.items
        ≡ told_text give workload.now answer.now.explored answer.now.waits.items) }
    ensures ready { IfOk result (λ text.
        IsReadyText give workload.now answer.now.explored text.items) }
{
    match give {
        None => explored_text(alloc, &answer.explored, &answer.waits),
        Some(word) => workload_text(alloc, workload, found_by(word, &answer.explored)),
    }
}

// What was found of what the word asks for.
fn found_by(word: GiveWord, explored: &Explored) -> Option<&Found>
    ensures { option_copied result ≡ found_by word explored.now }
{
    match word {
        GiveWord::AllDone => explored.all_done.as_ref(),
        GiveWord::Stuck => explored.stuck.as_ref(),
        GiveWord::Endless => explored.endless.as_ref(),
    }
}

// What is said of the workload.
fn finding_of(explored: &Explored) -> Finding
    ensures { result ≡ finding_of explored.now }
{
    if explored.stuck.is_some() {
        return Finding::Stuck;
    }
    if matches!(explored.extent, Extent::Part) || explored.endless.is_some() {
        return Finding::Open;
    }
    Finding::Clear
}
