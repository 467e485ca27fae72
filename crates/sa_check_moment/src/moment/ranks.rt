// What the rules of ranks read of a moment.
#![tactic(auto, unfolding(crate::specs::Seen::seen))]

ghost use Rattle.std.specs.Prelude.{◌≡◌, ◌↔◌, ◌<◌, ℕ, IsTrue};
ghost use Rattle.sa_laws.specs.State.{space_at};
ghost use Rattle.sa_laws.specs.Readings.{life_if};
ghost use Rattle.sa_ranks.specs.Pairs.{is_outranked, outranked_on, has_pair, IsLowest};
ghost use Rattle.sa_ranks.specs.Locks.{next_by_rank};
ghost use Rattle.sa_check_moment.specs.Ranked.{is_below};
ghost use Rattle.sa_base.specs.declared.package.RulesName.TheVariants.{Priorities};
ghost use Rattle.sa_check_moment.specs.Seen.{seen};
ghost use Rattle.sa_check_moment.specs.Urged.{is_lower, urged_by};

use crate::moment::Moment;
use sa_base::{ActNo, ProcNo, RulesName, SpaceNo, ThreadNo};

impl Moment {
    /// By whose rules the trace is judged.
    pub fn rules(&self) -> RulesName
        ensures { result ≡ (seen self.now).rules }
    {
        self.parts.level.rules()
    }

    /// A pair of the space exists. It looks at each processor.
    pub fn has_pair(&self, s: SpaceNo) -> bool
        requires { (seen self.now).rules ≡ Priorities }
        ensures { result ≡ has_pair (seen self.now).workload (seen self.now).readings s }
    {
        let best = self.best_rank(s);
        for q in 0..self.workload().processors() {
            if self.outranked_by(s, ProcNo(q), best).is_some() {
                return true;
            }
        }
        false
    }

    /// The rank of the thread of the space that runs on the processor, if it is in a pair.
    pub fn outranked_on(&self, s: SpaceNo, q: ProcNo) -> Option<u16>
        requires { (seen self.now).rules ≡ Priorities }
        ensures { result ≡ outranked_on (seen self.now).readings s q }
    {
        self.outranked_by(s, q, self.best_rank(s))
    }

    /// Of the processors whose threads are in pairs, it is the one of the lowest-ranked thread, and of these the first.
    pub fn is_lowest(&self, s: SpaceNo, q: ProcNo) -> bool
        requires { (seen self.now).rules ≡ Priorities }
        ensures { IsTrue result ↔ IsLowest (seen self.now).readings s q }
    {
        let best = self.best_rank(s);
        let Some(rank) = self.outranked_by(s, q, best) else {
            return false;
        };
        self.parts.replay.runs_within();
        for other in 0..self.workload().processors() {
            if self.is_lower(s, ProcNo(other), best, q, rank) {
                return false;
            }
        }
        true
    }

    /// The ready thread of the greatest rank, and of these the newest.
    pub fn next_by_rank(&self, s: SpaceNo) -> Option<ThreadNo>
        requires { (seen self.now).rules ≡ Priorities }
        ensures { result ≡ next_by_rank (seen self.now).readings s }
    {
        self.parts.level.next(s)
    }

    /// By rules of ranks: the life of this number is in use, and a pair of its space exists.
    pub fn is_urged(&self, a: Option<ActNo>) -> bool
        ensures { let m = seen self.now in
            result ≡ urged_by m.rules m.workload m.readings (life_if m.readings a) }
    {
        match self.rules() {
            RulesName::FastThreads => false,
            RulesName::Any => false,
            RulesName::Priorities => match self.space_of_life(a) {
                None => false,
                Some(s) => self.has_pair(s),
            },
        }
    }

    // The greatest rank of a ready thread of the space.
    fn best_rank(&self, s: SpaceNo) -> Option<u16>
        requires { (seen self.now).rules ≡ Priorities }
        ensures { (rank : ℕ)
            → is_outranked (space_at (seen self.now).readings.state s) rank ≡ is_below rank result }
    {
        self.parts.level.best(s)
    }

    // The rank of the thread of the space that runs on the processor, if it is in a pair; the best ready thread has this
    // rank.
    fn outranked_by(&self, s: SpaceNo, q: ProcNo, best: Option<u16>) -> Option<u16>
        requires { (rank : ℕ)
            → is_outranked (space_at (seen self.now).readings.state s) rank ≡ is_below rank best }
        ensures { result ≡ outranked_on (seen self.now).readings s q }
    {
        let runner = self.runner(q)?;
        let rank = self.thread(s, runner.thread()).program();
        if runner.space().0 == s.0 && self.line(q).is_none() && is_below(rank, best) {
            Some(rank)
        } else {
            None
        }
    }

    // The thread on another processor is in a pair, and of a lower rank, or of the same on a lower processor.
    fn is_lower(&self, s: SpaceNo, other: ProcNo, best: Option<u16>, q: ProcNo, rank: u16) -> bool
        requires { (rank : ℕ)
            → is_outranked (space_at (seen self.now).readings.state s) rank ≡ is_below rank best }
        ensures { result ≡ is_lower (outranked_on (seen self.now).readings s other) other q rank }
    {
        match self.outranked_by(s, other, best) {
            None => false,
            Some(n) => n < rank || (n == rank && other.0 < q.0),
        }
    }
}

// The rank is below that of the best ready thread, if there is one.
fn is_below(rank: u16, best: Option<u16>) -> bool
    ensures { result ≡ is_below rank best }
{
    match best {
        None => false,
        Some(best) => rank < best,
    }
}
