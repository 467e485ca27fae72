// The smallest user level.
ghost use Rattle.std.specs.Prelude.{◌≡◌, ◌+◌, ◌≤◌, ◌++◌, replicate};
ghost use Rattle.sa_base.specs.Items.{items_from};
ghost use Rattle.sa_abstract.specs.Keeps.{IsTelling};
ghost use Rattle.sa_abstract.specs.OneThread.{first_instr, jumps_to_itself, loop_regs, round_in, said_in, is_done};

use crate::answer::{SeatState, Step, Tally};
use crate::level::UserLevel;
use sa_base::{MAX_EVENTS, Note, Record, Seen, SpaceNo, Stopped, ThreadNo, Trace};
use sa_instr::{Instr, Reg, Regs};
use sa_spaces::SpaceDef;
use std::alloc::{AllocError, Global};

const THREAD: ThreadNo = ThreadNo(0);

/// The smallest user level: one thread for each space, and no lists. Where the space's first instruction jumps to itself
/// while register 0 is not 0, the thread does that for ever; else it looks as often as the space has cells, and is done.
/// No context carries anything. It is here for who writes a user level to read first; no command runs it.
#[derive(Drop)]
pub struct OneThread {
    space: SpaceNo,
    // whether it stands at a jump to itself for ever
    loops: bool,
    // the looks that are left where it does not, 0 to 64
    left: u16,
}

impl OneThread {
    // Whether the thread has nothing left to do.
    fn is_done(&self) -> bool
        ensures { result ≡ is_done self.now }
    {
        !self.loops && self.left == 0
    }

    // What a step adds.
    fn shows(&self) -> Record
        ensures { result ≡ said_in self.now.loops self.now.space }
    {
        if self.loops {
            round(self.space)
        } else {
            Record::Idle
        }
    }
}

// Whether a space's first instruction jumps to itself where register 0 is not 0.
fn starts_with_loop(def: &SpaceDef) -> bool
    ensures { result ≡ jumps_to_itself (first_instr def.now.programs) }
{
    let program = &def.programs()[0];
    program.ranges();
    matches!(program.at(0), Instr::Jnz(Reg::R0, 0))
}

// The registers of a thread that jumps for ever: 1 in register 0.
fn looping_regs() -> Regs
    ensures { result ≡ loop_regs }
{
    let mut regs = Regs::zero();
    regs.set(Reg::R0, 1);
    regs
}

// The jump as a record.
fn round(space: SpaceNo) -> Record
    ensures { result ≡ round_in space }
{
    Record::Ins(space, THREAD, 0)
}

// So many jumps, one in each event from `seen.event` on.
fn go_round(space: SpaceNo, seen: &Seen, n: u16, trace: &mut Trace)
    requires room { n ≤ trace.old.spare }
    requires events { seen.now.event + n ≤ MAX_EVENTS + 1 }
    ensures items { trace.new.items ≡ trace.old.items
        ++ items_from seen.now.event seen.now.proc (replicate n (round_in space)) }
    ensures spare { trace.new.spare + n ≡ trace.old.spare }
{
    for done in 0..n {
        trace.say(seen.event + u64::from(done), seen.proc, round(space));
    }
}

impl UserLevel for OneThread {
    ghost use Rattle.sa_abstract.specs.OneThread.{one_thread_calls, one_thread_stands};
    ghost use Rattle.sa_abstract.specs.OneThreadKeeps.{one_thread_keeps};

    type Ctx = ();

    ghost calls = { one_thread_calls };

    ghost stands = { one_thread_stands };

    ghost keeps = { one_thread_keeps };

    fn start(
        _alloc: Global,
        space: SpaceNo,
        def: SpaceDef,
        _processors: u16,
        _fetch: u32,
    ) -> Result<OneThread, AllocError> {
        Ok(OneThread {
            space,
            loops: starts_with_loop(&def),
            left: def.cells(),
        })
    }

    fn begin(&mut self, _seen: &Seen) {}

    fn told(&mut self, ctx: &mut (), note: Note, held: Option<Stopped<()>>)
        requires { IsTelling ⟦<OneThread as UserLevel>⟧.stands self.old ctx.old note held }
        ensures { (self.new, ctx.new)
            ≡ ⟦<OneThread as UserLevel>⟧.calls.told self.old ctx.old note held }
    {}

    fn answered(&mut self, _seen: &Seen, _ctx: &mut ()) {}

    fn step(&mut self, seen: &Seen, _ctx: &mut (), trace: &mut Trace) -> Step {
        trace.say(seen.event, seen.proc, self.shows());
        if self.is_done() && seen.demand != 0 {
            return Step::Idle;
        }
        self.left = self.left.saturating_sub(1);
        Step::Did
    }

    fn thread(&self, _ctx: &()) -> Option<ThreadNo> {
        self.loops.then_some(THREAD)
    }

    fn idle(&self, _ctx: &()) -> bool {
        self.is_done()
    }

    fn owes(&self, _ctx: &()) -> bool {
        false
    }

    fn in_section(&self, _ctx: &()) -> Option<u16> {
        None
    }

    fn local(&self, _ctx: &()) -> SeatState {
        if !self.loops {
            return SeatState::Away;
        }
        SeatState::Local {
            space: self.space,
            thread: THREAD,
            program: 0,
            pc: 0,
            regs: looping_regs(),
        }
    }

    fn went(&mut self, seen: &Seen, _ctx: &mut (), n: u16, trace: &mut Trace) {
        go_round(self.space, seen, n, trace);
    }

    fn tally(&self) -> Tally {
        let is_done = self.is_done();
        Tally {
            made: 1,
            done: u16::from(is_done),
            active: u16::from(!is_done),
        }
    }
}
