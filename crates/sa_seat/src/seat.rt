// A processor's seat.
ghost use Rattle.std.specs.Prelude.{◌≡◌, ◌<◌, ◌≤◌, length, slice_get};
ghost use Rattle.sa_base.specs.declared.limits.TheConstants.{MAX_BURST};
ghost use Rattle.sa_core_model.specs.Run.{programs_in};
ghost use Rattle.sa_lines.specs.Credit.{MayCredit};
ghost use Rattle.sa_lines.specs.Words.{lane_at};
ghost use Rattle.sa_lines.specs.Seen.{credited_at};
ghost use Rattle.sa_seat.specs.Seat.{IsPlace, CanMove, code_of, IsCode, IsReady, IsAdvanced, IsBurst, IsStep, renewed};
ghost use Rattle.sa_seat.specs.Enter.{with_credited};

use crate::answer::BurstEnd;
use crate::machine::Machine;
use crate::named::Named;
use sa_abstract::{SeatState, UserLevel};
use sa_base::{MAX_BURST, ProcNo, SpaceNo};
use sa_instr::{Local, Program, local};
use sa_lines::{Account, Credit, Keeper, LineWords, Poller};
use sa_spaces::Workload;
use std::marker::{Model, PhantomData};
use std::sync::Wait;

/// The seat of one processor, which one thread drives. Contracts see its poller, the context at which it last entered, where
/// the burst since then has come, and how many instructions this has: it is pending where these are some.
#[derive(Drop)]
pub struct Seat<K: Named> {
    poller: Poller,
    start: SeatState,
    copy: SeatState,
    pending: u16,
    of: PhantomData<K>,
}

impl<K: Named> Model for Seat<K> {
    ghost use Rattle.sa_seat.specs.Seat.{SeatView, IsSeatOf};

    ghost Value = { SeatView };

    ghost view = { λ s. record { poller = s.poller; start = s.start; copy = s.copy; pending = s.pending } };

    ghost invariant = { λ s. IsSeatOf K.workload K.table (record {
      poller = s.poller;
      start = s.start;
      copy = s.copy;
      pending = s.pending;
    }) };
}

impl<K: Named> Seat<K> {
    pub(crate) fn of(poller: Poller) -> Seat<K>
        requires table { poller.table ≡ K.table }
        requires processor { poller.proc.0 < K.workload.processors }
        ensures { result ≡ record {
          poller = poller;
          start = SeatState.Away;
          copy = SeatState.Away;
          pending = 0;
        } }
    {
        Seat {
            poller,
            start: SeatState::Away,
            copy: SeatState::Away,
            pending: 0,
            of: PhantomData,
        }
    }

    pub(crate) fn into_poller(self) -> Poller
        ensures poller { result ≡ self.poller }
        ensures table { result.table ≡ K.table }
        ensures processor { result.proc.0 < K.workload.processors }
    {
        let Seat {
            poller,
            start: _,
            copy: _,
            pending: _,
            of: _,
        } = self;
        poller
    }

    /// The processor, below those of the workload.
    pub fn proc(&self) -> ProcNo
        ensures proc { result ≡ self.now.poller.proc }
        ensures within { result.0 < K.workload.processors }
    {
        self.poller.proc()
    }

    /// How many events it was told that it made, and the end of the run, once it was told that.
    pub fn account(&self) -> Account
        ensures { result ≡ self.now.poller.account }
    {
        self.poller.account()
    }

    /// How many instructions of a burst are pending, 0 to 64. They are local, from where the context stood that the seat
    /// knows.
    pub fn pending(&self) -> u16
        ensures pending { result ≡ self.now.pending }
        ensures few { result ≤ MAX_BURST }
        ensures local { CanMove K.workload result self.now.start }
    {
        self.pending
    }

    pub(crate) fn start(&self) -> SeatState
        ensures { result ≡ self.now.start }
    {
        self.start
    }

    /// Applies a credit to the keeper's account of the processor and to the seat's.
    pub(crate) fn credit<R: Wait>(
        &mut self,
        rt: &R,
        keeper: &mut Keeper,
        words: &LineWords,
        what: Credit,
    )
        requires own { words.now ≡ K.table }
        requires keeper { keeper.old.table ≡ K.table }
        requires what { self.old.poller.proc.0 < K.workload.processors
            → MayCredit (lane_at keeper.old.lanes self.old.poller.proc.0).account what }
        ensures within { self.old.poller.proc.0 < K.workload.processors }
        ensures keeper { keeper.new ≡ credited_at self.old.poller.proc.0 what keeper.old }
        ensures seat { self.new ≡ with_credited what self.old }
    {
        keeper.credit(rt, words, &mut self.poller, what);
    }

    /// The seat begins anew from the core's context.
    pub(crate) fn renew(&mut self, context: &SeatState)
        requires { IsPlace K.workload context.now }
        ensures { self.new ≡ renewed context.now self.old }
    {
        self.start = *context;
        self.copy = *context;
        self.pending = 0;
    }

    /// Runs the next instructions of the seat's copy of the context, as long as they are local and the line is low, but at
    /// most `limit`, 1 to 64. It takes no lock and no memory. They are pending until the seat enters.
    pub fn burst<U: UserLevel>(&mut self, machine: &Machine<U, K>, limit: u16) -> BurstEnd
        requires some { 1 ≤ limit }
        requires few { limit ≤ MAX_BURST }
        requires none { self.old.pending ≡ 0 }
        ensures { IsBurst K.workload limit self.old result self.new }
    {
        let SeatState::Local {
            space,
            thread: _,
            program,
            pc: _,
            regs: _,
        } = self.copy
        else {
            return BurstEnd::Away;
        };
        let code = program_of(&machine.workload, space, program);
        for _done in 0..limit {
            if let Some(end) = self.go_on(code, &machine.words) {
                return end;
            }
        }
        BurstEnd::Limit
    }

    // One instruction more of the burst, or why none comes.
    fn go_on(&mut self, code: &Program, words: &LineWords) -> Option<BurstEnd>
        requires own { words.now ≡ K.table }
        requires code { IsCode K.workload code.now self.old.copy }
        requires few { self.old.pending < MAX_BURST }
        ensures { IsStep K.workload self.old result self.new }
    {
        let mut next = self.copy;
        if !advance(code, &mut next) {
            return Some(BurstEnd::Shared);
        }
        if let Some(event) = self.poller.poll(words) {
            return Some(BurstEnd::Line(event));
        }
        self.copy = next;
        self.pending += 1;
        None
    }
}

// Runs the next instruction where it is local, and says whether it is.
fn advance(code: &Program, state: &mut SeatState) -> bool
    requires { IsReady code.now state.old }
    ensures { IsAdvanced code.now state.old result state.new }
{
    match state {
        SeatState::Local {
            space: _,
            thread: _,
            program: _,
            pc,
            regs,
        } => matches!(local(code, regs, pc), Local::Went),
        SeatState::Away => false,
    }
}

// The program that a thread of a space runs.
fn program_of(workload: &Workload, space: SpaceNo, program: u16) -> &Program
    requires space { space.0 < length workload.now.spaces }
    requires program { program < length (programs_in (slice_get workload.now.spaces space.0)) }
    ensures { result.now ≡ code_of workload.now space program }
{
    &workload.spaces()[space.0 as usize].programs()[program as usize]
}
