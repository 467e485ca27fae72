// The replay of a trace.
ghost use Rattle.sa_base.specs.declared.number.ProcNo.{ProcNo};
ghost use Rattle.std.specs.Prelude.{◌≡◌, ◌↔◌, ◌≤◌, ◌<◌, true, false, [], Some, None, length, IfOk, IsErr, OnOk, OnErr, IsTrue, MatchOption};
ghost use Rattle.std.specs.List.{list_all};
ghost use Rattle.sa_laws.specs.declared.place.Place.TheVariants as places;
ghost use Rattle.sa_laws.specs.State.{space_def, space_at, thread_at, instr_of, next_instr, program_len, owner_at, with_owner, placed_if, runner_on, is_due, active_threads};
ghost use Rattle.sa_laws.specs.Ends.{are_done, are_at_rest};
ghost use Rattle.sa_laws.specs.Step.{IsRunner, NobodyRuns};
ghost use Rattle.sa_replay.specs.Running.{is_running, IsFull};
ghost use Rattle.sa_replay.specs.Replayed.{opened, after, gone, program_of};
ghost use Rattle.sa_replay.specs.Counts.{is_ready, count_in};
ghost use Rattle.sa_replay.specs.Index.{runner_at};
ghost use Rattle.sa_replay.specs.Needs.{CanGo, CanPut, CanChange, IsOverfull};

use crate::runner::RunningThread;
use crate::spaces::Spaces;
use crate::thread::ThreadState;
use sa_base::{MAX_THREADS, ProcNo, Record, SpaceNo, ThreadNo};
use sa_instr::{Instr, Program};
use sa_laws::Place;
use sa_spaces::{SpaceDef, Workload};
use sa_sync::SyncState;
use std::alloc::{AllocError, Global};
use std::marker::Model;

/// The abstract machine of threads, at some record of a trace.
///
/// Each call but `start` takes constant time, but for the record of an instruction `end`, whose time is that of waking
/// those that join its thread, and none but `start` needs memory.
#[derive(Drop)]
pub struct Replay {
    workload: Workload,
    spaces: Spaces,
    owners: Vec<Option<SpaceNo>>,
    // who runs on each processor
    runners: Vec<Option<RunningThread>>,
    roused: Vec<ThreadNo>,
}

impl Model for Replay {
    ghost use Rattle.std.specs.Prelude.{◌≤◌, vec_capacity};
    ghost use Rattle.sa_base.specs.declared.limits.TheConstants.{MAX_THREADS};
    ghost use Rattle.sa_replay.specs.Replayed.{Replayed};
    ghost use Rattle.sa_replay.specs.Inside.{IsReplay};

    ghost Value = { Replayed };

    ghost view = { λ r. record {
      workload = r.workload;
      state = record { spaces = r.spaces; owners = r.owners.items };
      roused = r.roused.items;
    } };

    ghost invariant = { λ r. IsReplay r.workload r.spaces r.owners.items r.runners.items
        × (MAX_THREADS ≤ vec_capacity r.roused) };
}

impl Replay {
    ghost use Rattle.sa_replay.specs.Replayed.{Replayed};

    /// Before any record of a trace of this workload. Fails only where memory runs out.
    pub fn start(alloc: Global, workload: &Workload) -> Result<Replay, AllocError>
        ensures { IfOk result (λ replay. replay ≡ opened workload.now) }
    {
        let processors = usize::from(workload.processors());
        let owners = vec![in alloc; None; processors]?;
        let runners = vec![in alloc; None; processors]?;
        let roused = Vec::with_capacity(alloc, usize::from(MAX_THREADS))?;
        Ok(Replay {
            spaces: Spaces::new(alloc, workload.spaces())?,
            workload: workload.copy(alloc)?,
            owners,
            runners,
            roused,
        })
    }

    /// Lets go of the replay with all that it holds. One that goes out of scope is let go too, but by code that is made,
    /// and proved, again in each crate where it does.
    pub fn discard(self) {}

    /// The workload.
    pub fn workload(&self) -> &Workload
        ensures { result.now ≡ self.now.workload }
    {
        &self.workload
    }

    /// The threads that the last record's instruction forked or woke, in order.
    pub fn roused(&self) -> &[ThreadNo]
        ensures { result.now ≡ self.now.roused }
    {
        self.roused.as_slice()
    }

    /// The space that owns the processor; none owns one that the workload does not have.
    #[inline(always)]
    pub fn owner(&self, p: ProcNo) -> Option<SpaceNo>
        ensures { result ≡ owner_at self.now.state p }
    {
        match self.owners.get(usize::from(p.0)) {
            Some(owner) => *owner,
            None => None,
        }
    }

    /// Of each processor: the space that owns it.
    pub fn owners(&self) -> &[Option<SpaceNo>]
        ensures { result.now ≡ self.now.state.owners }
    {
        self.owners.as_slice()
    }

    /// The thread that runs on the processor.
    #[inline(always)]
    pub fn runner(&self, p: ProcNo) -> Option<RunningThread>
        ensures { result ≡ runner_on self.now.state p }
    {
        runner_in(&self.runners, p)
    }

    /// Says that nobody runs on a processor that is not there.
    pub fn runs_within(&self)
        ensures { (p : ProcNo) → length self.now.state.owners ≤ p.0
            → runner_on self.now.state p ≡ None }
    {
        let _runners = &self.runners;
    }

    /// The thread; one that was not made counts as done.
    #[inline(always)]
    pub fn thread(&self, s: SpaceNo, t: ThreadNo) -> ThreadState
        ensures { result ≡ thread_at self.now.state s t }
    {
        self.spaces.thread(s, t)
    }

    /// How many threads of the space were made, which have the numbers below; at most 512.
    pub fn made(&self, s: SpaceNo) -> u16
        ensures { result ≡ length (space_at self.now.state s).threads }
    {
        self.spaces.made(s)
    }

    /// How many spaces there are; at most 16.
    pub fn spaces(&self) -> u16
        ensures { result ≡ length self.now.state.spaces }
    {
        self.spaces.count()
    }

    /// What the threads of the space wait on, and the cells that they share.
    pub fn sync(&self, s: SpaceNo) -> &SyncState
        requires { s.0 < length self.now.state.spaces }
        ensures { result.now ≡ (space_at self.now.state s).sync }
    {
        self.spaces.sync(s)
    }

    /// Whether the thread was forked or woken, and is still to be made ready.
    pub fn is_due(&self, s: SpaceNo, t: ThreadNo) -> bool
        ensures { result ≡ is_due (space_at self.now.state s) t }
    {
        self.spaces.is_due(s, t)
    }

    /// How many threads of the space are ready or run; at most 512.
    pub fn active_threads(&self, s: SpaceNo) -> u16
        ensures { result ≡ active_threads (space_at self.now.state s) }
    {
        self.spaces.active(s)
    }

    /// How many threads of the space are ready; at most 512.
    pub fn ready_threads(&self, s: SpaceNo) -> u16
        ensures { result ≡ count_in is_ready (space_at self.now.state s).threads }
    {
        self.spaces.ready(s)
    }

    /// The instruction at this pc of the thread's program, and `end` where there is none.
    #[inline(always)]
    pub fn instr_of(&self, s: SpaceNo, t: ThreadNo, pc: u16) -> Instr
        ensures { result ≡ instr_of self.now.workload self.now.state s t pc }
    {
        let Some(program) = self.program(s, t) else {
            return Instr::End;
        };
        if pc < program.len() {
            program.at(pc)
        } else {
            Instr::End
        }
    }

    /// The thread's next instruction, and `end` where it has none.
    pub fn next_instr(&self, s: SpaceNo, t: ThreadNo) -> Instr
        ensures { result ≡ next_instr self.now.workload self.now.state s t }
    {
        self.instr_of(s, t, self.thread(s, t).pc())
    }

    /// The number of instructions of the thread's program, at most 4,096; 0 where it has none.
    pub fn program_len(&self, s: SpaceNo, t: ThreadNo) -> u16
        ensures { result ≡ program_len self.now.workload self.now.state s t }
    {
        self.program(s, t).map_or(0, |program| program.len())
    }

    /// Whether every thread that was made is done.
    pub fn are_all_done(&self) -> bool
        ensures { IsTrue result ↔ (list_all are_done self.now.state.spaces ≡ true) }
    {
        self.spaces.are_done()
    }

    /// Whether no thread is ready, runs or is carried.
    pub fn are_all_at_rest(&self) -> bool
        ensures { IsTrue result ↔ (list_all are_at_rest self.now.state.spaces ≡ true) }
    {
        self.spaces.are_at_rest()
    }

    /// Takes a record of processor `p`, whose needs hold. An error says that it is an instruction that signals a
    /// semaphore whose count is 2^32 - 1, and changes nothing but that no thread is roused.
    #[inline(always)]
    pub fn change(&mut self, p: ProcNo, what: &Record) -> Result<(), AllocError>
        requires { CanChange self.old.workload p self.old.state what.now }
        ensures ok { OnOk result (self.new ≡ after p self.old what.now) }
        ensures full { IsErr result ↔ IsOverfull self.old.workload self.old.state what.now }
        ensures err { OnErr result (self.new ≡ record self.old { roused = [] }) }
    {
        self.roused.clear();
        match *what {
            Record::Ins(s, t, _) => self.go(p, s, t)?,
            Record::Stop(s, t, _) => self.leave(p, s, t, Place::Carried),
            Record::Back(s, t) => self.leave(p, s, t, Place::Carried),
            Record::Block(s, t, _, _) => self.leave(p, s, t, Place::Blocked),
            Record::Unblock(s, t, _) => self.put(s, t, Place::Carried),
            Record::Ready(s, t) => self.put(s, Some(t), Place::Ready),
            Record::Cont(s, t) => self.enter(p, s, t),
            Record::Run(s, t) => self.enter(p, s, Some(t)),
            Record::Move(_, new) => self.set_owner(p, new),
            _ => {}
        }
        Ok(())
    }

    // The thread, which runs on the processor, runs its next instruction. An error changes nothing.
    #[inline(always)]
    fn go(&mut self, p: ProcNo, s: SpaceNo, t: ThreadNo) -> Result<(), AllocError>
        requires can { CanGo self.old.workload p self.old.state s t }
        requires empty { self.old.roused ≡ [] }
        ensures ok { OnOk result (self.new ≡ gone self.old s t) }
        ensures full { IsErr result ↔ IsFull (space_at self.old.state s).sync
            (next_instr self.old.workload self.old.state s t) }
        ensures err { OnErr result (self.new ≡ self.old) }
    {
        let def = space_def(&self.workload, s);
        if !self.spaces.run(def, s, t, &mut self.roused)? {
            self.runners[usize::from(p.0)] = None;
        }
        Ok(())
    }

    // The thread, which runs on the processor, if one does, runs there no more.
    #[inline(never)]
    fn leave(&mut self, p: ProcNo, s: SpaceNo, t: Option<ThreadNo>, place: Place)
        requires runs { IsRunner self.old.state p s t }
        requires place { is_running place ≡ false }
        ensures { self.new ≡ record self.old { state = placed_if self.old.state s t place } }
    {
        if let Some(t) = t {
            self.spaces.put(s, t, place);
            self.runners[usize::from(p.0)] = None;
        }
    }

    // Puts the thread, if there is one, which runs nowhere, in another place where it runs nowhere.
    #[inline(never)]
    fn put(&mut self, s: SpaceNo, t: Option<ThreadNo>, place: Place)
        requires can { CanPut self.old.state s t }
        requires place { is_running place ≡ false }
        ensures { self.new ≡ record self.old { state = placed_if self.old.state s t place } }
    {
        if let Some(t) = t {
            self.spaces.put(s, t, place);
        }
    }

    // The thread, if there is one, which runs nowhere, runs on the processor, where none runs.
    #[inline(never)]
    fn enter(&mut self, p: ProcNo, s: SpaceNo, t: Option<ThreadNo>)
        requires owned { owner_at self.old.state p ≡ Some s }
        requires nobody { NobodyRuns self.old.state p }
        requires can { CanPut self.old.state s t }
        ensures { self.new ≡ record self.old { state = placed_if self.old.state s t (places.Running p) } }
    {
        if let Some(t) = t {
            self.spaces.put(s, t, Place::Running(p));
            self.runners[usize::from(p.0)] = Some(RunningThread::new(s, t));
        }
    }

    // Another space owns the processor, or none. A processor that the workload does not have stays without one.
    fn set_owner(&mut self, p: ProcNo, s: Option<SpaceNo>)
        ensures { self.new ≡ record self.old { state = with_owner self.old.state p s } }
    {
        if usize::from(p.0) < self.owners.len() {
            self.owners[usize::from(p.0)] = s;
        }
    }

    // The program of a thread.
    #[inline(always)]
    fn program(&self, s: SpaceNo, t: ThreadNo) -> Option<&Program>
        ensures { let program = program_of self.now.workload self.now.state s t in
            MatchOption result (program ≡ []) (λ found. found.now ≡ program) }
    {
        let def = self.workload.spaces().get(usize::from(s.0))?;
        def.programs().get(usize::from(self.thread(s, t).program()))
    }
}

// A space as the workload declares it.
fn space_def(workload: &Workload, s: SpaceNo) -> &SpaceDef
    requires { s.0 < length workload.now.spaces }
    ensures { result.now ≡ space_def workload.now s }
{
    &workload.spaces()[usize::from(s.0)]
}

// The runner of a processor in a list.
fn runner_in(runners: &[Option<RunningThread>], p: ProcNo) -> Option<RunningThread>
    ensures { result ≡ runner_at runners.now p }
{
    match runners.get(usize::from(p.0)) {
        Some(runner) => *runner,
        None => None,
    }
}
