ghost use Rattle.std.specs.Prelude.{◌≡◌, ℕ, ◌+◌, ◌≤◌, ◌<◌, None, OnOk, OnErr, IfOk, length, slice_index};
ghost use Rattle.sa_base.specs.declared.limits.TheConstants.{MAX_EVENTS};
ghost use Rattle.sa_vp_model.specs.Board.{opened};
ghost use Rattle.sa_vp_model.specs.Turn.{turned};
ghost use Rattle.sa_vp_model.specs.End.{end_of};
ghost use Rattle.sa_vp.specs.View.{board_of};
ghost use Rattle.sa_vp.specs.Room.{HasRoom};

use crate::board::{EVENT_ITEMS, Parts};
use sa_base::{End, ProcNo, SpaceNo, Trace};
use sa_spaces::Workload;
use std::alloc::{AllocError, Global};
use std::marker::Model;

// For how many events at least room is made where it is wanted.
const EVENTS_AT_ONCE: usize = 64;

/// A run of a workload on virtual processors within a budget of events, which ends by `into_trace` or `into_losses`.
pub struct Vp {
    budget: u64,
    parts: Parts,
    // for how many events there is room
    spare: usize,
}

impl Model for Vp {
    ghost use Rattle.sa_vp.specs.View.{VpView, board_of};
    ghost use Rattle.sa_vp.specs.Room.{IsKept};

    ghost Value = { VpView };

    ghost view = { λ v. record { board = board_of v.parts; budget = v.budget; spare = v.spare } };

    ghost invariant = { λ v. IsKept v.parts v.budget v.spare };
}

impl Parts {
    // Makes room for at least `n` events. An error changes nothing but the room, which does not shrink.
    fn reserve(&mut self, n: usize) -> Result<(), AllocError>
        ensures ok { OnOk result (HasRoom self.new n) }
        ensures grows { (k : ℕ) → HasRoom self.old k → HasRoom self.new k }
        ensures board { board_of self.new ≡ board_of self.old }
    {
        let items = n.checked_mul(EVENT_ITEMS).ok_or(AllocError)?;
        self.devices.reserve(n)?;
        self.trace.reserve(items)
    }
}

impl Vp {
    ghost use Rattle.sa_vp.specs.View.{VpView};

    /// The run at the opening, in which nothing has happened yet. Fails only where memory runs out.
    pub fn start(alloc: Global, w: Workload, budget: u64) -> Result<Vp, AllocError>
        requires some { 1 ≤ budget }
        requires few { budget ≤ MAX_EVENTS }
        ensures opening { IfOk result (λ vp. vp ≡ record { board = opened w; budget = budget; spare = 0 }) }
    {
        w.ranges();
        Ok(Vp {
            budget,
            parts: Parts::start(alloc, &w)?,
            spare: 0,
        })
    }

    /// Makes room for at least `events` events, which then take no memory. An error changes nothing.
    pub fn reserve(&mut self, events: usize) -> Result<(), AllocError>
        ensures ok { OnOk result (events ≤ self.new.spare) }
        ensures grows { self.old.spare ≤ self.new.spare }
        ensures rest { self.new ≡ record self.old { spare = self.new.spare } }
        ensures err { OnErr result (self.new ≡ self.old) }
    {
        if self.spare < events {
            self.parts.reserve(events)?;
            self.spare = events;
        }
        Ok(())
    }

    // Room for at least one event. Where it is not there yet, it is made for some more. An error changes nothing.
    fn make_room(&mut self) -> Result<(), AllocError>
        ensures ok { OnOk result (1 ≤ self.new.spare) }
        ensures grows { self.old.spare ≤ self.new.spare }
        ensures rest { self.new ≡ record self.old { spare = self.new.spare } }
        ensures err { OnErr result ((self.old.spare ≡ 0) × (self.new ≡ self.old)) }
    {
        if self.spare == 0 {
            return self.reserve(EVENTS_AT_ONCE);
        }
        Ok(())
    }

    /// One event of the processor. It takes no memory where there is room; an error changes nothing.
    pub fn turn(&mut self, p: ProcNo) -> Result<(), AllocError>
        requires within { p.0 < self.old.board.workload.processors }
        requires not_ended { end_of self.old.budget self.old.board ≡ None }
        ensures ok { OnOk result (self.new.board ≡ turned p self.old.board) }
        ensures number { OnOk result (self.new.board.number ≡ self.old.board.number + 1) }
        ensures workload { self.new.board.workload ≡ self.old.board.workload }
        ensures budget { self.new.budget ≡ self.old.budget }
        ensures spare { self.old.spare ≤ self.new.spare + 1 }
        ensures err { OnErr result ((self.old.spare ≡ 0) × (self.new ≡ self.old)) }
    {
        self.make_room()?;
        self.parts.turn(p);
        self.spare -= 1;
        Ok(())
    }

    /// How the run has ended, or `None` where it goes on. Takes constant time.
    pub fn end(&self) -> Option<End>
        ensures { result ≡ end_of self.now.budget self.now.board }
    {
        if self.parts.is_done() {
            return Some(End::AllDone);
        }
        if self.parts.is_stuck() {
            return Some(End::Stuck);
        }
        if self.parts.number > self.budget {
            return Some(End::Budget);
        }
        None
    }

    /// The history of the run.
    pub fn trace(&self) -> &Trace
        ensures { result.now.items ≡ self.now.board.items }
    {
        &self.parts.trace
    }

    /// The history of the run alone.
    pub fn into_trace(self) -> Trace
        ensures { result.items ≡ self.board.items }
    {
        let (trace, _lost) = self.into_losses();
        trace
    }

    /// The history of the run, and what each space has lost.
    pub fn into_losses(self) -> (Trace, Vec<u64>)
        ensures trace { result.0.items ≡ self.board.items }
        ensures lost { result.1.items ≡ self.board.lost }
    {
        let Vp {
            parts,
            budget: _,
            spare: _,
        } = self;
        parts.into_losses()
    }

    /// How many turns the space has lost so far: after each event as many of its ready threads as it has blocked virtual
    /// processors.
    pub fn lost(&self, s: SpaceNo) -> u64
        requires { s.0 < length self.now.board.workload.spaces }
        ensures { result ≡ slice_index self.now.board.lost s.0 }
    {
        self.parts.lost[usize::from(s.0)]
    }

    /// The number of events so far.
    pub fn events(&self) -> u64
        ensures { result + 1 ≡ self.now.board.number }
    {
        self.parts.number - 1
    }

    /// The workload that is run.
    pub fn workload(&self) -> &Workload
        ensures { result.now ≡ self.now.board.workload }
    {
        self.parts.replay.workload()
    }
}
