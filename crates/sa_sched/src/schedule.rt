ghost use Rattle.std.specs.Prelude.{◌≡◌, ◌<◌, ◌≤◌, length, drop, unwrap_or, slice_get, All};
ghost use Rattle.sa_sched.specs.Kind.{order_of, AreAmong};
ghost use Rattle.sa_sched.specs.Rest.{rest_of, procs_from, IsOrder};
ghost use Rattle.sa_sched.specs.Turns.{start, whole, next_processor, turned, next_of, behind, Holding};

use crate::HOLD_EVENTS;
use crate::kind::Kind;
use rand_core::SeedableRng;
use rand_core::utils::NextWord;
use rand_pcg::Lcg64Xsh32;
use sa_base::{MAX_PROCESSORS, ProcNo};
use std::marker::Model;

// What is left of an order.
#[derive(Drop)]
enum Order {
    RoundRobin,
    Seed(Lcg64Xsh32),
    Given {
        procs: Vec<ProcNo>,
        next: usize,
    },
    Hold {
        proc: ProcNo,
        before: u64,
        over: u16,
    },
}

/// Whose turn each event is. It cannot fail for want of memory.
#[derive(Drop)]
pub struct Schedule {
    order: Order,
    // whose turn is next by round robin
    turn: u16,
    processors: u16,
}

impl Model for Schedule {
    ghost use Rattle.sa_sched.specs.Turns.{Turns};

    ghost Value = { Turns };

    ghost use Rattle.sa_sched.specs.Parts.{turns_of, IsSchedule};

    ghost view = { turns_of };

    ghost invariant = { IsSchedule };
}

impl Schedule {
    /// The schedule of this kind for 1 to 16 processors, at its beginning. Processors that are given
    /// are among them.
    pub fn new(kind: Kind, processors: u16) -> Schedule
        requires some { 1 ≤ processors }
        requires few { processors ≤ MAX_PROCESSORS }
        requires among { AreAmong processors (order_of kind) }
        ensures { result ≡ start (order_of kind) processors }
    {
        Schedule {
            order: beginning_of(kind, processors),
            turn: 0,
            processors,
        }
    }

    /// The processor of the next event: at the k-th call that of event k.
    pub fn next(&mut self) -> ProcNo
        ensures processor { result.0 ≡ next_processor self.old }
        ensures turned { self.new ≡ turned self.old }
        ensures among { result.0 < self.old.processors }
    {
        let turn = self.turn;
        self.turn = (turn + 1) % self.processors;
        next_in(&mut self.order, turn, self.processors)
    }
}

// The order of this kind, at its beginning.
fn beginning_of(kind: Kind, processors: u16) -> Order
    requires { AreAmong processors (order_of kind) }
    ensures rest { rest_of result ≡ whole (order_of kind) }
    ensures order { IsOrder processors result }
{
    match kind {
        Kind::RoundRobin => Order::RoundRobin,
        Kind::Seed(seed) => Order::Seed(Lcg64Xsh32::seed_from_u64(seed)),
        Kind::Given(procs) => Order::Given { procs, next: 0 },
        Kind::Hold { proc, from } => Order::Hold {
            proc,
            before: from.saturating_sub(1),
            over: if from == 0 { 1 } else { 0 },
        },
    }
}

// The next of that many processors by an order, where by round robin it is the turn of `turn`.
fn next_in(order: &mut Order, turn: u16, processors: u16) -> ProcNo
    requires turn { turn < processors }
    requires few { processors ≤ MAX_PROCESSORS }
    requires order { IsOrder processors order.old }
    ensures processor { result.0 ≡ next_of processors turn (rest_of order.old) }
    ensures rest { rest_of order.new ≡ behind (rest_of order.old) }
    ensures among { result.0 < processors }
    ensures order { IsOrder processors order.new }
{
    match order {
        Order::RoundRobin => ProcNo(turn),
        Order::Seed(rng) => ProcNo((rng.next_word() % u32::from(processors)) as u16),
        Order::Given { procs, next } => next_given(procs, next, turn, processors),
        Order::Hold { proc, before, over } => next_held(*proc, before, over, turn, processors),
    }
}

// The processor that is given next, or where none is left the one whose turn it is.
fn next_given(procs: &[ProcNo], next: &mut usize, turn: u16, processors: u16) -> ProcNo
    requires turn { turn < processors }
    requires among { All (λ p. p.0 < processors) procs.now }
    requires place { next.old ≤ length procs.now }
    ensures processor { result.0 ≡ unwrap_or (slice_get (procs_from procs.now next.old) 0) turn }
    ensures among { result.0 < processors }
    ensures place { next.new ≤ length procs.now }
    ensures rest { procs_from procs.now next.new ≡ drop 1 (procs_from procs.now next.old) }
{
    match procs.get(*next) {
        Some(proc) => {
            *next += 1;
            *proc
        }
        None => ProcNo(turn),
    }
}

// The processor whose turn it is where one is held for a while.
fn next_held(proc: ProcNo, before: &mut u64, over: &mut u16, turn: u16, processors: u16) -> ProcNo
    requires turn { turn < processors }
    requires few { processors ≤ MAX_PROCESSORS }
    requires over { over.old ≤ HOLD_EVENTS }
    ensures processor { result.0 ≡ next_of processors turn (Holding proc.0 before.old over.old) }
    ensures rest { Holding proc.0 before.new over.new
        ≡ behind (Holding proc.0 before.old over.old) }
    ensures among { result.0 < processors }
    ensures over { over.new ≤ HOLD_EVENTS }
{
    if *before > 0 {
        *before -= 1;
        return ProcNo(turn);
    }
    if *over == HOLD_EVENTS {
        return ProcNo(turn);
    }
    let place = *over;
    *over += 1;
    if processors <= 1 || proc.0 >= processors {
        return ProcNo(turn);
    }
    let other = place % (processors - 1);
    ProcNo(if other < proc.0 { other } else { other + 1 })
}
