// Entries of a machine's seats, one after another, on one host thread.
ghost use Rattle.std.specs.Prelude.{◌≡◌, ◌≤◌};
ghost use Rattle.sa_base.specs.declared.limits.TheConstants.{MAX_EVENTS};
ghost use Rattle.sa_core_model.specs.Run.{opening};
ghost use Rattle.sa_core.specs.View.{machine};
ghost use Rattle.sa_lines.specs.Seen.{fresh_keeper, fresh_pollers};
ghost use Rattle.sa_seat.specs.Seat.{AreSeats};

use sa_abstract::UserLevel;
use sa_core::Core;
use sa_lines::{Keeper, LineWords, Poller};
use sa_package::FastThreads;
use sa_seat::{BurstEnd, Entered, Machine, Named, Seat};
use sa_workload::read;
use std::alloc::{AllocError, Global};
use std::marker::Brand;
use std::process::Abort;
use std::sync::Wait;
use std::test::Fail;

// What a seat does, and what comes of it.
#[derive(Clone, Copy)]
enum Act {
    // The seat of this index enters so often, and is answered so each time.
    Enters(usize, u16, Entered),
    // It runs ahead, at most so many instructions; this ends it, and so many are pending.
    Bursts(usize, u16, BurstEnd, u16),
}

// Two processors, and two spaces. The thread of the first computes; the second has priority, and its thread forks another one.
const RAISED: &str =
    "workload 1\nprocessors 2\nfetch 10\nspaces 2\nspace 0 0 0 0 1\nprogram 4\ncompute\ncompute\ncompute\nend\nspace 7 0 0 0 2\nprogram 2\nfork r0 1\nend\nprogram 1\nend\nclose\n";

// The seat enters so often, and is answered so each time.
#[tactic(auto, using(crate::proofs::Seats::entered_proc))]
fn enter<U: UserLevel, K: Named, R: Wait + Abort>(
    rt: &R,
    machine: &Machine<U, K>,
    seat: &mut Seat<K>,
    times: u16,
    answer: Entered,
) -> Result<(), AllocError>
    ensures { seat.new.poller.proc ≡ seat.old.poller.proc }
{
    for _time in 0..times {
        let entered = machine.enter(rt, seat)?;
        assert!(rt; entered == answer);
    }
    Ok(())
}

// The seat runs ahead, at most so many instructions; this ends it, and so many are pending.
fn run_ahead<U: UserLevel, K: Named, R: Wait + Abort>(
    rt: &R,
    machine: &Machine<U, K>,
    seat: &mut Seat<K>,
    limit: u16,
    why: BurstEnd,
    pending: u16,
)
    ensures { seat.new.poller.proc ≡ seat.old.poller.proc }
{
    assert!(rt; 1 <= limit && limit <= 64 && seat.pending() == 0);
    let end = seat.burst(machine, limit);
    assert!(rt; end == why && seat.pending() == pending);
}

// Does what one seat is to do.
fn do_act<U: UserLevel, K: Named, R: Wait + Abort>(
    rt: &R,
    machine: &Machine<U, K>,
    seats: &mut [Seat<K>],
    act: Act,
) -> Result<(), AllocError>
    requires { AreSeats K.workload.processors seats.old }
    ensures { AreSeats K.workload.processors seats.new }
{
    match act {
        Act::Enters(p, times, answer) => {
            assert!(rt; p < seats.len());
            enter(rt, machine, &mut seats[p], times, answer)
        }
        Act::Bursts(p, limit, why, pending) => {
            assert!(rt; p < seats.len());
            run_ahead(rt, machine, &mut seats[p], limit, why, pending);
            Ok(())
        }
    }
}

// Does in order what the seats are to do.
fn do_acts<U: UserLevel, K: Named, R: Wait + Abort>(
    rt: &R,
    machine: &Machine<U, K>,
    seats: &mut [Seat<K>],
    acts: &[Act],
) -> Result<(), AllocError>
    requires { AreSeats K.workload.processors seats.old }
    ensures { AreSeats K.workload.processors seats.new }
{
    for each in acts {
        do_act(rt, machine, seats, *each)?;
    }
    Ok(())
}

// The machine that K names, whose seats act so.
fn play_named<U: UserLevel, K: Named, R: Wait + Abort>(
    rt: &R,
    alloc: Global,
    core: Core<U>,
    words: LineWords,
    keeper: Keeper,
    pollers: Vec<Poller>,
    acts: &[Act],
) -> Result<(), AllocError>
    requires core { machine core ≡ opening U.calls K.workload }
    requires budget { core.budget ≡ K.budget }
    requires few { K.budget ≤ MAX_EVENTS }
    requires words { words ≡ K.table }
    requires keeper { keeper ≡ fresh_keeper K.table K.workload.processors }
    requires pollers { pollers.items ≡ fresh_pollers K.table K.workload.processors }
{
    let (machine, mut seats) = Machine::<U, K>::start(alloc, core, words, keeper, pollers)?;
    let done = do_acts(rt, &machine, seats.as_mut_slice(), acts);
    machine.close(seats);
    done
}

// The seats of a machine for the workload of the text act so.
fn play<U: UserLevel, R: Wait + Abort>(
    rt: &R,
    alloc: Global,
    text: &str,
    acts: &[Act],
) -> Result<(), Fail> {
    let workload = read(alloc, text.as_bytes())?;
    let processors = workload.processors();
    let core = Core::<U>::start(alloc, workload, 100)?;
    let Ok((words, keeper, pollers)) = LineWords::new(alloc, processors) else {
        core.discard();
        return Err(Fail::from(AllocError));
    };
    play_named::<U, Brand, R>(rt, alloc, core, words, keeper, pollers, acts)?;
    Ok(())
}

const TURN: Entered = Entered::Turned(1);

#[test]
fn a_burst_becomes_as_many_events(rt: HostRuntime) -> Result<(), Fail> {
    let acts = [
        Act::Enters(0, 4, TURN),
        Act::Bursts(0, 16, BurstEnd::Shared, 3),
        Act::Enters(0, 1, Entered::Turned(3)),
    ];
    play::<FastThreads, HostRuntime>(&rt, rt.alloc(), RAISED, &acts)
}

// A burst that ends at its limit. The other processor's ninth turn asks for this one, so the burst is dropped, and none can
// begin before the interrupt.
#[test]
fn a_burst_is_dropped_for_an_interrupt(rt: HostRuntime) -> Result<(), Fail> {
    let acts = [
        Act::Enters(0, 4, TURN),
        Act::Bursts(0, 2, BurstEnd::Limit, 2),
        Act::Enters(1, 9, TURN),
        Act::Enters(0, 1, Entered::DroppedLine(13)),
        Act::Bursts(0, 16, BurstEnd::Line(13), 0),
        Act::Enters(0, 1, TURN),
    ];
    play::<FastThreads, HostRuntime>(&rt, rt.alloc(), RAISED, &acts)
}
