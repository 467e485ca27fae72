// The session.
ghost use Rattle.std.specs.Prelude.{◌≡◌, ◌≤◌, ◌<◌, ◌⊎◌, ◌+◌, ◌%◌, Some, None, OnOk, OnErr, IfOk, IfSome, MatchResult};
ghost use Rattle.sa_base.specs.declared.limits.TheConstants.{MAX_EVENTS};
ghost use Rattle.sa_replay.specs.Replayed.{opened};
ghost use Rattle.sa_core.specs.View.{machine};
ghost use Rattle.sa_core_model.specs.End.{end_of};
ghost use Rattle.sa_core_model.specs.Run.{opening};
ghost use Rattle.sa_debug.specs.script.Text.{FitsCommand};
ghost use Rattle.sa_debug.specs.Session.{Gives, fresh, broken, cleared, with_halt, shown, first, next, point_at, IsFree, IsNext, SaysEnded, Stops, Turns, Steps, RunsTo, RunsSoFar, Does, DoesSoFar};
ghost use Rattle.sa_debug.specs.Order.{last_proc};
ghost use Rattle.sa_debug.specs.OverMachines.{over_machines, session};
ghost use Rattle.sa_debug.specs.Reached.{IsPlayable};

use crate::follow::Follower;
use crate::halts::{Halts, cyclic};
use crate::points::Points;
use crate::script::{DebugCommand, Point, Reply, View};
use sa_abstract::{SeatState, UserLevel};
use sa_base::{End, Item, ProcNo, SpaceNo, ThreadNo, Trace};
use sa_core::Core;
use sa_replay::Replay;
use std::alloc::{AllocError, Global};
use std::marker::Model;

/// A debugging session: a machine that has not run yet or was run by commands, of which processors are halted, and the
/// breakpoints. A session ends with its history (`into_trace`), and is not dropped.
pub struct Session<U: UserLevel> {
    core: Core<U>,
    follower: Follower,
    halts: Halts,
    points: Points,
}

impl<U: UserLevel> Model for Session<U> {
    ghost use Rattle.sa_debug.specs.OverMachines.{SessionView};
    ghost use Rattle.sa_debug.specs.Kept.{IsKept};

    ghost Value = { SessionView U U.Ctx };

    ghost view = { λ s. record { core = s.core; halted = s.halts; points = s.points } };

    ghost invariant = { λ s. IsKept U.calls s.core s.follower };
}

impl<U: UserLevel> Session<U> {
    /// A session of a machine at its opening, with a replay at the opening of the same workload.
    pub fn start(alloc: Global, core: Core<U>, replay: Replay) -> Session<U>
        requires opening { machine core ≡ opening U.calls (machine core).workload }
        requires replay { replay ≡ opened (machine core).workload }
        requires playable { IsPlayable U.calls (machine core).workload core.budget }
        requires few { core.budget ≤ MAX_EVENTS }
        ensures session { session result ≡ fresh (machine core) }
        ensures budget { result.core.budget ≡ core.budget }
    {
        core.workload().ranges();
        Session {
            core,
            follower: Follower::new(replay),
            halts: Halts::new(),
            points: Points::new(alloc),
        }
    }

    /// Does a command, whose numbers are in the ranges of the workload, and answers it.
    ///
    /// An error is want of memory, and changes nothing but that a `run` has made some of its turns.
    pub fn command(&mut self, command: &DebugCommand) -> Result<Reply, AllocError>
        requires { FitsCommand (machine self.old.core).workload command.now }
        ensures ok { IfOk result (λ reply. Does (over_machines U.calls self.old.core.budget) command.now
            (session self.old) (session self.new) reply) }
        ensures err { OnErr result (DoesSoFar (over_machines U.calls self.old.core.budget) command.now
            (session self.old) (session self.new)) }
        ensures budget { self.new.core.budget ≡ self.old.core.budget }
        ensures workload { (machine self.new.core).workload ≡ (machine self.old.core).workload }
    {
        match *command {
            DebugCommand::Break(point) => self.add_point(point),
            DebugCommand::Clear(point) => Ok(self.clear_point(point)),
            DebugCommand::Halt(p) => Ok(self.set_halt(p, true)),
            DebugCommand::Go(p) => Ok(self.set_halt(p, false)),
            DebugCommand::Step(p) => self.step(p),
            DebugCommand::Run(turns) => self.run(turns),
            DebugCommand::Show(s, t) => self.show(s, t),
        }
    }

    /// The history of the machine.
    pub fn trace(&self) -> &Trace
        ensures { result.now.items ≡ (machine self.now.core).items }
    {
        self.core.trace()
    }

    /// How the run has ended, or `None` where it goes on.
    pub fn end(&self) -> Option<End>
        ensures { result ≡ end_of U.calls self.now.core.budget (machine self.now.core) }
    {
        self.core.end()
    }

    /// The number of events, without the opening.
    pub fn events(&self) -> u64
        ensures { result ≡ (machine self.now.core).event }
    {
        self.core.events()
    }

    /// The history of the machine alone.
    pub fn into_trace(self) -> Trace
        ensures { result.items ≡ (machine self.core).items }
    {
        let Session {
            core,
            follower,
            halts: _,
            points: _,
        } = self;
        follower.discard();
        core.into_trace()
    }

    // Adds a breakpoint, but where it is there, or as many others are. An error changes nothing.
    fn add_point(&mut self, point: Point) -> Result<Reply, AllocError>
        ensures ok { IfOk result (λ reply. Gives (broken (session self.old) point) (session self.new) reply) }
        ensures err { OnErr result (session self.new ≡ session self.old) }
        ensures core { self.new.core ≡ self.old.core }
    {
        if self.points.has(point) {
            return Ok(Reply::Accepted);
        }
        if self.points.is_full() {
            return Ok(Reply::Full);
        }
        self.points.add(point)?;
        Ok(Reply::Accepted)
    }

    // Takes a breakpoint away, if it is there.
    fn clear_point(&mut self, point: Point) -> Reply
        ensures cleared { Gives (cleared (session self.old) point) (session self.new) result }
        ensures core { self.new.core ≡ self.old.core }
    {
        if !self.points.has(point) {
            return Reply::NotThere;
        }
        self.points.remove(point);
        Reply::Accepted
    }

    // Halts the processor, or ends its halt.
    fn set_halt(&mut self, p: ProcNo, halted: bool) -> Reply
        requires { p.0 < (machine self.old.core).workload.processors }
        ensures halted { Gives (with_halt (session self.old) p halted, Reply.Accepted) (session self.new) result }
        ensures core { self.new.core ≡ self.old.core }
    {
        self.halts.set(p, halted);
        Reply::Accepted
    }

    // One turn of the processor, where the run has not ended before. An error changes nothing.
    fn step(&mut self, p: ProcNo) -> Result<Reply, AllocError>
        requires { p.0 < (machine self.old.core).workload.processors }
        ensures ok { let o = over_machines U.calls self.old.core.budget in IfOk result (λ reply.
            SaysEnded o (session self.old) (session self.new) reply ⊎ Steps o (session self.old) p (session self.new) reply) }
        ensures err { OnErr result (session self.new ≡ session self.old) }
        ensures budget { self.new.core.budget ≡ self.old.core.budget }
        ensures workload { (machine self.new.core).workload ≡ (machine self.old.core).workload }
    {
        if let Some(end) = self.core.end() {
            return Ok(Reply::Ended(end));
        }
        self.turn(p)?;
        Ok(Reply::Event(self.core.events()))
    }

    // One turn of the processor. An error changes nothing.
    fn turn(&mut self, p: ProcNo) -> Result<(), AllocError>
        requires within { p.0 < (machine self.old.core).workload.processors }
        requires not_ended { end_of U.calls self.old.core.budget (machine self.old.core) ≡ None }
        ensures ok { OnOk result (Turns (over_machines U.calls self.old.core.budget) (session self.old) p (session self.new)) }
        ensures event { OnOk result ((machine self.new.core).event ≡ (machine self.old.core).event + 1) }
        ensures err { OnErr result (session self.new ≡ session self.old) }
        ensures budget { self.new.core.budget ≡ self.old.core.budget }
        ensures workload { (machine self.new.core).workload ≡ (machine self.old.core).workload }
    {
        self.core.turn(p)
    }

    // At most `turns` turns of the processors that are not halted, in order.
    fn run(&mut self, turns: u32) -> Result<Reply, AllocError>
        ensures ok { IfOk result (λ reply.
            RunsTo (over_machines U.calls self.old.core.budget) turns (session self.old) (session self.new) reply) }
        ensures err { OnErr result
            (RunsSoFar (over_machines U.calls self.old.core.budget) turns (session self.old) (session self.new)) }
        ensures budget { self.new.core.budget ≡ self.old.core.budget }
        ensures workload { (machine self.new.core).workload ≡ (machine self.old.core).workload }
    {
        if self.points.is_empty() && self.halts.are_none() {
            return self.go_round(turns);
        }
        for _turn in 0..turns {
            match self.next_turn() {
                Err(reply) => return Ok(reply),
                Ok(p) => self.turn(p)?,
            }
        }
        Ok(self.told_event())
    }

    // The same where no processor is halted and there is no breakpoint, so that the order is as it is in a run.
    fn go_round(&mut self, turns: u32) -> Result<Reply, AllocError>
        requires free { IsFree (session self.old) }
        ensures ok { IfOk result (λ reply.
            RunsTo (over_machines U.calls self.old.core.budget) turns (session self.old) (session self.new) reply) }
        ensures err { OnErr result
            (RunsSoFar (over_machines U.calls self.old.core.budget) turns (session self.old) (session self.new)) }
        ensures budget { self.new.core.budget ≡ self.old.core.budget }
        ensures workload { (machine self.new.core).workload ≡ (machine self.old.core).workload }
    {
        for _turn in 0..turns {
            if self.core.has_ended() {
                break;
            }
            let next = ProcNo(self.first());
            self.turn(next)?;
        }
        Ok(self.told_event())
    }

    // The processor that has the next turn of a run; or what is answered where none has one, where a processor that stands
    // at a breakpoint is halted there.
    fn next_turn(&mut self) -> Result<ProcNo, Reply>
        ensures next { let o = over_machines U.calls self.old.core.budget in MatchResult result
            (λ p. IsNext o (session self.old) p × (session self.new ≡ session self.old))
            (λ reply. SaysEnded o (session self.old) (session self.new) reply ⊎ Stops o (session self.old) (session self.new) reply) }
        ensures within { IfOk result (λ p. p.0 < (machine self.old.core).workload.processors) }
        ensures core { self.new.core ≡ self.old.core }
    {
        if let Some(end) = self.core.end() {
            return Err(Reply::Ended(end));
        }
        let Some(p) = self.next() else {
            return Err(Reply::Halted);
        };
        if self.points.is_empty() {
            return Ok(p);
        }
        if let Some(point) = self.point_at(p) {
            self.set_halt(p, true);
            return Err(Reply::AtBreak(p, point));
        }
        Ok(p)
    }

    // The first processor in order that is not halted.
    fn next(&self) -> Option<ProcNo>
        ensures next { result ≡ next (over_machines U.calls self.now.core.budget) (session self.now) }
        ensures within { IfSome result (λ p. p.0 < (machine self.now.core).workload.processors) }
    {
        let processors = self.core.workload().processors();
        self.halts.next(self.first(), processors)
    }

    // The processor with which the order begins.
    #[inline(always)]
    fn first(&self) -> u16
        ensures first { result ≡ first (over_machines U.calls self.now.core.budget) (machine self.now.core) }
        ensures below { result < (machine self.now.core).workload.processors }
    {
        if self.core.events() == 0 {
            return 0;
        }
        behind_last(self.core.trace().items(), self.core.workload().processors())
    }

    // The breakpoint at which the processor stands.
    #[inline(never)]
    fn point_at(&self, p: ProcNo) -> Option<Point>
        requires { p.0 < (machine self.now.core).workload.processors }
        ensures { result ≡ point_at (over_machines U.calls self.now.core.budget) (session self.now) p }
    {
        if self.core.line(p).is_some() {
            return None;
        }
        let SeatState::Local {
            space,
            thread,
            pc,
            ..
        } = self.core.context(p)
        else {
            return None;
        };
        let point = Point {
            space,
            thread,
            place: pc,
        };
        if self.points.has(point) {
            Some(point)
        } else {
            None
        }
    }

    // What is answered where all turns of a run were made.
    fn told_event(&self) -> Reply
        ensures { RunsTo (over_machines U.calls self.now.core.budget) 0 (session self.now) (session self.now) result }
    {
        match self.core.end() {
            Some(end) => Reply::Ended(end),
            None => Reply::Event(self.core.events()),
        }
    }

    // The thread, as the abstract machine has it. Where memory runs out it shows nothing.
    fn show(&mut self, s: SpaceNo, t: ThreadNo) -> Result<Reply, AllocError>
        ensures ok { IfOk result (λ reply. Gives (
          session self.old,
          shown ((over_machines U.calls self.old.core.budget).view (machine self.old.core) s t),
        ) (session self.new) reply) }
        ensures err { OnErr result (session self.new ≡ session self.old) }
        ensures core { self.new.core ≡ self.old.core }
    {
        self.follower.follow(self.core.trace().items())?;
        Ok(told_view(self.follower.view(s, t)))
    }
}

// What is answered where a thread is shown, or was not made.
fn told_view(view: Option<View>) -> Reply
    ensures { result ≡ shown view }
{
    match view {
        None => Reply::NotThere,
        Some(view) => Reply::Shown(view),
    }
}

// The processor after that of the last item, cyclically.
#[inline(always)]
fn behind_last(items: &[Item], processors: u16) -> u16
    requires { 1 ≤ processors }
    ensures behind { result ≡ ((last_proc items.now).0 + 1) % processors }
    ensures below { result < processors }
{
    match items.last() {
        None => following(ProcNo(0), processors),
        Some(item) => following(item.proc, processors),
    }
}

// The number of the processor after this one, cyclically.
fn following(p: ProcNo, processors: u16) -> u16
    requires { 1 ≤ processors }
    ensures following { result ≡ (p.0 + 1) % processors }
    ensures below { result < processors }
{
    cyclic(u32::from(p.0) + 1, processors)
}
