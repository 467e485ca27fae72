// Pairs: a ready thread that outranks one on a processor whose line is low.
ghost use Rattle.std.specs.Prelude.{◌≡◌, ◌<◌, ◌≤◌, ℕ, IfSome};
ghost use Rattle.std.specs.Int.{bit_at};
ghost use Rattle.std.specs.Option.{unwrap_or};
ghost use Rattle.sa_base.specs.declared.limits.TheConstants.{MAX_PROCESSORS};
ghost use Rattle.sa_package_model.specs.Conditions.{IsThread};
ghost use Rattle.sa_prio_model.specs.Conditions.{CanRank};
ghost use Rattle.sa_prio_model.specs.Prio.{on_at, with_on, rank_below, outranked_on, outranked, lower, lowest, has_pair};

use crate::threads::PrioThreads;
use sa_base::{ProcNo, Seen, ThreadNo, has_bit};
use sa_prio_model::Outranked;

impl PrioThreads {
    // The thread on a processor.
    fn on_at(&self, q: u16) -> Option<ThreadNo>
        ensures { result ≡ on_at self.now q }
    {
        match self.on.get(usize::from(q)) {
            Some(thread) => *thread,
            None => None,
        }
    }

    /// From now on this is the thread on a processor.
    pub(crate) fn set_on(&mut self, p: ProcNo, thread: Option<ThreadNo>)
        ensures { self.new ≡ with_on self.old p thread }
    {
        if let Some(place) = self.on.get_mut(usize::from(p.0)) {
            *place = thread;
        }
    }

    // The rank of a thread, if it is there and one of rank `best` outranks it.
    fn rank_below(&self, best: u16, thread: Option<ThreadNo>) -> Option<u16>
        requires { IsThread thread }
        ensures { result ≡ rank_below self.now.base best thread }
    {
        let rank = self.base.rank(thread?);
        if rank < best { Some(rank) } else { None }
    }

    // The rank of the thread on processor `q`, if it is in a pair with a ready thread of rank `best`.
    fn outranked_on(&self, seen: &Seen, best: u16, q: u16) -> Option<u16>
        requires can { CanRank self.now }
        requires proc { q < MAX_PROCESSORS }
        ensures { result ≡ outranked_on self.now seen.now best q }
    {
        if has_bit(seen.low, q) {
            self.rank_below(best, self.on_at(q))
        } else {
            None
        }
    }

    /// The rank of the thread on a processor whose line is low, if a ready thread outranks it.
    pub fn outranked(&self, seen: &Seen, q: ProcNo) -> Option<u16>
        requires can { CanRank self.now }
        requires proc { q.0 < MAX_PROCESSORS }
        ensures { result ≡ outranked self.now seen.now q }
    {
        let best = self.base.first_rank()?;
        self.outranked_on(seen, best, q.0)
    }

    /// The processor of the lowest-ranked thread that a ready one outranks, and of these the first. It looks at no ready
    /// thread but the first, and at no processor but those whose lines are low.
    pub fn lowest(&self, seen: &Seen) -> Option<Outranked>
        requires { CanRank self.now }
        ensures { result ≡ lowest self.now seen.now }
    {
        let best = self.base.first_rank()?;
        let mut lowest = None;
        let mut from = 0;
        while let Some(q) = low_from(seen.low, from, self.on.len() as u16) {
            let rank = self.rank_below(best, self.on_at(q));
            lowest = lower(lowest, q, rank);
            from = q + 1;
        }
        lowest
    }

    /// Whether some ready thread outranks one on a processor whose line is low.
    pub fn has_pair(&self, seen: &Seen) -> bool
        requires { CanRank self.now }
        ensures { result ≡ has_pair self.now seen.now }
    {
        self.lowest(seen).is_some()
    }
}

// The first processor from `from` on, of this many, whose line is low.
fn low_from(low: u16, from: u16, processors: u16) -> Option<u16>
    requires from { from ≤ processors }
    requires few { processors ≤ MAX_PROCESSORS }
    ensures within { IfSome result (λ q. q < processors) }
    ensures low { IfSome result (λ q. bit_at low q ≡ 1) }
    ensures from { IfSome result (λ q. from ≤ q) }
    ensures between { (q : ℕ) → from ≤ q → q < unwrap_or result processors → bit_at low q ≡ 0 }
{
    let q = from + (u32::from(low) >> from).trailing_zeros() as u16;
    if q < processors { Some(q) } else { None }
}

// The lower of what was found and the thread on processor `q`; of one rank what was found.
fn lower(best: Option<Outranked>, q: u16, rank: Option<u16>) -> Option<Outranked>
    ensures { result ≡ lower best q rank }
{
    let Some(rank) = rank else {
        return best;
    };
    let next = Outranked {
        proc: ProcNo(q),
        rank,
    };
    match best {
        Some(found) => Some(if rank < found.rank { next } else { found }),
        None => Some(next),
    }
}
