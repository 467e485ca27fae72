// The machine that threads share.
ghost use Rattle.std.specs.Prelude.{◌≡◌, ◌≤◌, OnErr, IfOk, length};
ghost use Rattle.sa_base.specs.declared.limits.TheConstants.{MAX_EVENTS, MAX_PROCESSORS};
ghost use Rattle.sa_core_model.specs.Run.{opening};
ghost use Rattle.sa_core.specs.View.{machine};
ghost use Rattle.sa_lines.specs.Seen.{fresh_keeper, fresh_pollers};
ghost use Rattle.sa_seat.specs.Seat.{AreFresh, AreSeats};
ghost use Rattle.sa_seat.specs.Enter.{HasEntered, IsOneTurn};
ghost use Rattle.sa_seat.specs.Closed.{IsClosed, AreJoined};

use crate::answer::Entered;
use crate::closed::Closed;
use crate::follow::PLACES;
use crate::held::Held;
use crate::named::Named;
use crate::seat::Seat;
use sa_abstract::UserLevel;
use sa_core::Core;
use sa_lines::{Keeper, LineWords, Poller};
use sa_spaces::Workload;
use std::alloc::{AllocError, Global};
use std::marker::Model;
use std::sync::{Mutex, MutexGuard, Wait};

/// A machine that threads share: the core behind its lock, and, outside of it, its words and a copy of its workload, which
/// is what contracts see.
#[derive(Drop)]
pub struct Machine<U: UserLevel, K: Named> {
    held: Mutex<Held<U, K>>,
    pub(crate) words: LineWords,
    pub(crate) workload: Workload,
}

impl<U: UserLevel, K: Named> Model for Machine<U, K> {
    ghost use Rattle.std.specs.Prelude.{◌≡◌};
    ghost use Rattle.sa_spaces.specs.Workload.{WorkloadView};

    ghost Value = { WorkloadView };

    ghost view = { λ m. m.workload };

    ghost invariant = { λ m. (m.words ≡ K.table) × (m.workload ≡ K.workload) };
}

// A copy of the workload, and a seat for each poller, in order.
fn copy_and_seat<K: Named>(
    alloc: Global,
    workload: &Workload,
    mut pollers: Vec<Poller>,
) -> Result<(Workload, Vec<Seat<K>>), AllocError>
    requires { pollers.items ≡ fresh_pollers K.table K.workload.processors }
    ensures copy { IfOk result (λ made. made.0 ≡ workload.now) }
    ensures seats { IfOk result (λ made. AreFresh K.table K.workload.processors made.1.items) }
{
    let mut seats = Vec::with_capacity(alloc, pollers.len())?;
    while !pollers.is_empty() {
        seats.push(Seat::of(pollers.remove(0)))?;
    }
    Ok((workload.copy(alloc)?, seats))
}

impl<U: UserLevel, K: Named> Machine<U, K> {
    /// The machine of a core at its opening, with words that were made for its processors, and a seat for each processor, in
    /// order. Fails only where memory runs out.
    pub fn start(
        alloc: Global,
        core: Core<U>,
        words: LineWords,
        keeper: Keeper,
        pollers: Vec<Poller>,
    ) -> Result<(Machine<U, K>, Vec<Seat<K>>), AllocError>
        requires core { machine core ≡ opening U.calls K.workload }
        requires budget { core.budget ≡ K.budget }
        requires few { K.budget ≤ MAX_EVENTS }
        requires words { words ≡ K.table }
        requires keeper { keeper ≡ fresh_keeper K.table K.workload.processors }
        requires pollers { pollers.items ≡ fresh_pollers K.table K.workload.processors }
        ensures { IfOk result (λ made. AreFresh K.table K.workload.processors made.1.items) }
    {
        let Ok((workload, seats)) = copy_and_seat::<K>(alloc, core.workload(), pollers) else {
            core.discard();
            words.close(keeper);
            return Err(AllocError);
        };
        workload.ranges();
        let held = Held::new(core, keeper, &words);
        let machine = Machine {
            held: Mutex::new(held),
            words,
            workload,
        };
        Ok((machine, seats))
    }

    /// The seat enters: its burst becomes events of its processor, or one turn is made; the answer is that of one
    /// `Held::turn`. Waits for the lock. An error is want of memory, and leaves the seat as it was.
    #[tactic(auto, using(crate::proofs::Entries::one_turn))]
    pub fn enter<R: Wait>(&self, rt: &R, seat: &mut Seat<K>) -> Result<Entered, AllocError>
        ensures ok { IfOk result (λ answer. HasEntered seat.old answer seat.new) }
        ensures turn { IfOk result (λ answer. IsOneTurn U.calls K.budget K.workload seat.old answer seat.new) }
        ensures err { OnErr result (seat.new ≡ seat.old) }
    {
        let mut held = self.held.lock(rt);
        held.led();
        let entered = held.turn(rt, &self.words, seat);
        // A guard that goes out of scope would need the code that lets go of a whole machine.
        let _lock = MutexGuard::unlock(held);
        entered
    }

    /// The history, when every seat is back.
    pub fn close(self, seats: Vec<Seat<K>>) -> Closed
        requires { AreSeats K.workload.processors seats.items }
        ensures { IsClosed U.calls K.workload K.budget seats.items result }
    {
        let Machine {
            held,
            words,
            workload: _,
        } = self;
        let Held {
            core,
            mut keeper,
            lines: _,
            of: _,
        } = held.into_inner();
        let turns = join_all(&mut keeper, &words, seats);
        words.close(keeper);
        let end = core.end();
        Closed {
            trace: core.into_trace(),
            end,
            turns,
        }
    }
}

// Joins the pollers of the seats, and tells their counts.
fn join_all<K: Named>(
    keeper: &mut Keeper,
    words: &LineWords,
    mut seats: Vec<Seat<K>>,
) -> [u64; PLACES]
    requires own { words.now ≡ K.table }
    requires keeper { keeper.old.table ≡ K.table }
    requires lanes { length keeper.old.lanes ≡ K.workload.processors }
    requires processors { K.workload.processors ≤ MAX_PROCESSORS }
    requires seats { AreSeats K.workload.processors seats.items }
    ensures { AreJoined K.workload.processors seats.items keeper.old keeper.new result }
{
    let mut turns = [0; PLACES];
    while let Some(seat) = seats.pop() {
        let poller = seat.into_poller();
        turns[poller.proc().0 as usize] = poller.account().count;
        keeper.join(words, poller);
    }
    turns
}
