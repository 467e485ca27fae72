// What is kept for a user level's rules.
ghost use Rattle.std.specs.Prelude.{◌≡◌, ℕ, List, [], length, slice_index_or, IfOk, OnOk};
ghost use Rattle.sa_spaces.specs.Workload.{WorkloadView};
ghost use Rattle.sa_laws.specs.State.{State, space_at};
ghost use Rattle.sa_laws.specs.Readings.{Listed, opening_readings};
ghost use Rattle.sa_ranks.specs.Pairs.{is_outranked};
ghost use Rattle.sa_check_moment.specs.Ranked.{row_at, is_below};
ghost use Rattle.sa_check_moment.specs.Ranking.{ReadsRanked};
ghost use Rattle.sa_base.specs.declared.package.RulesName.TheVariants as kinds;
ghost use Rattle.sa_check_moment.specs.Level.{rules_in, IsKeptFor, ReadsLevel, IsNext, next_of};

use crate::RankedReady;
use sa_base::{Record, RulesName, SpaceNo, ThreadNo};
use sa_replay::Replay;
use std::alloc::{AllocError, Global};

/// What is kept for the rules of a user level, beside what is read for those of each.
#[derive(Drop)]
pub(crate) enum Level {
    FastThreads,
    Any,
    // the ready threads by their ranks
    Priorities(RankedReady),
}

impl Level {
    /// Before any record of a trace of this many spaces. Fails only where memory runs out.
    pub(crate) fn new(alloc: Global, rules: RulesName, spaces: usize) -> Result<Level, AllocError>
        ensures rules { IfOk result (λ level. rules_in level ≡ rules) }
        ensures kept { IfOk result (λ level. (w : WorkloadView) → length w.spaces ≡ spaces
            → IsKeptFor level (opening_readings w).state (opening_readings w).ready) }
    {
        match rules {
            RulesName::FastThreads => Ok(Level::FastThreads),
            RulesName::Any => Ok(Level::Any),
            RulesName::Priorities => Ok(Level::Priorities(RankedReady::new(alloc, spaces)?)),
        }
    }

    pub(crate) fn rules(&self) -> RulesName
        ensures { result ≡ rules_in self.now }
    {
        match self {
            Level::FastThreads => RulesName::FastThreads,
            Level::Any => RulesName::Any,
            Level::Priorities(_) => RulesName::Priorities,
        }
    }

    /// By rules of ranks: the greatest rank of a ready thread of the space.
    pub(crate) fn best(&self, s: SpaceNo) -> Option<u16>
        ensures { (a : State) (ready : List (List Listed)) → rules_in self.now ≡ kinds.Priorities
            → IsKeptFor self.now a ready
            → (rank : ℕ) → is_outranked (space_at a s) rank ≡ is_below rank result }
    {
        match self {
            Level::FastThreads => None,
            Level::Any => None,
            Level::Priorities(ranked) => ranked.best(s),
        }
    }

    /// By rules of ranks: the ready thread of the space that has the greatest rank, and of these the newest.
    pub(crate) fn next(&self, s: SpaceNo) -> Option<ThreadNo>
        ensures { (a : State) (ready : List (List Listed)) → rules_in self.now ≡ kinds.Priorities
            → IsKeptFor self.now a ready
            → result ≡ next_of (space_at a s) (slice_index_or ready s.0 []) }
    {
        match self {
            Level::FastThreads => None,
            Level::Any => None,
            Level::Priorities(ranked) => next(ranked, s),
        }
    }

    /// Reads a record on the replay before it. Fails only where memory runs out.
    pub(crate) fn read(&mut self, replay: &Replay, what: &Record) -> Result<(), AllocError>
        ensures { OnOk result (ReadsLevel replay.now.state what.now self.old self.new) }
    {
        match self {
            Level::FastThreads => Ok(()),
            Level::Any => Ok(()),
            Level::Priorities(ranked) => read_ranked(ranked, replay, what),
        }
    }
}

// The newest of the ready threads of the greatest rank.
fn next(ranked: &RankedReady, s: SpaceNo) -> Option<ThreadNo>
    ensures { IsNext (row_at ranked.now s) result }
{
    match ranked.best(s) {
        None => None,
        Some(rank) => ranked.newest(s, rank),
    }
}

// Reads a record that makes a thread ready, or runs one.
fn read_ranked(ranked: &mut RankedReady, replay: &Replay, what: &Record) -> Result<(), AllocError>
    ensures { OnOk result (ReadsRanked replay.now.state what.now ranked.old ranked.new) }
{
    match *what {
        Record::Ready(s, t) => ranked.ready(s, t, replay.thread(s, t).program()),
        Record::Run(s, t) => {
            ranked.run(s, t, replay.thread(s, t).program());
            Ok(())
        }
        _ => Ok(()),
    }
}
