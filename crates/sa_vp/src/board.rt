// The parts of a run, and what a turn does to them, part by part.
ghost use Rattle.std.specs.Prelude.{◌≡◌, ℕ, ◌+◌, ◌-◌, ◌≤◌, ◌<◌, true, [], ◌∷◌, ◌++◌, Some, None, IsSome, IfSome, find, length, slice_get, slice_index_or};
ghost use Rattle.std.specs.Option.{option_map};
ghost use Rattle.sa_base.specs.declared.limits.TheConstants.{MAX_EVENTS, MAX_THREADS};
ghost use Rattle.sa_devices.specs.declared.kind.IoKind.TheVariants.{Plain, Page};
ghost use Rattle.sa_devices.specs.Ios.{Io, io_at};
ghost use Rattle.sa_instr.specs.declared.instr.Instr.TheVariants.{Io as IoOf, Out as OutOf};
ghost use Rattle.sa_replay.specs.Needs.{CanChange, IsOverfull};
ghost use Rattle.sa_laws.specs.State.{thread_at};
ghost use Rattle.sa_replay.specs.Replayed.{after};
ghost use Rattle.sa_virtual.specs.Virtual.{space_of, list_of};
ghost use Rattle.sa_virtual.specs.Turn.{of_io, round_from};
ghost use Rattle.sa_vp_model.specs.Board.{of_space, list_in, with_list_in, queued};
ghost use Rattle.sa_vp_model.specs.Turn.{act, thread, held_by, completes, places, places_first, relieves, readies, blocks, goes, ends_with, missed_page, runs, looks, steps, carried_on, with_step, is_some_list, picked, left_of};
ghost use Rattle.sa_vp_model.specs.Needs.{IsTabled, IsVirtual, CanComeBack, CanPlaceOn, CanGiveWay, CanReady, CanBlockOn, CanGoOn, CanRunOn, CanLook, CanStep};
ghost use Rattle.sa_vp.specs.View.{board_of};
ghost use Rattle.sa_vp.specs.Room.{Spends};
ghost use Rattle.sa_vp.specs.Waits.{CountsWork, ListsReady};

use crate::numbers::{blocked_by, list_of, space_of};
use crate::queue::put_behind;
use crate::ready::Ready;
use sa_base::{ActNo, IoNo, MAX_THREADS, ProcNo, Record, SpaceNo, ThreadNo, Trace, has_page};
use sa_devices::{Devices, IoKind};
use sa_instr::{Instr, Reg};
use sa_links::Links;
use sa_replay::Replay;

/// The items of an event at most.
pub(crate) const EVENT_ITEMS: usize = 3;

// The one list of the queue.
const QUEUE: u32 = 0;

/// The parts of a run, which ends by `into_losses`. A virtual processor is the place of its number.
pub(crate) struct Parts {
    // the workload, and the state of the abstract machine
    pub(crate) replay: Replay,
    pub(crate) devices: Devices,
    // the virtual processors that wait to be placed
    pub(crate) queue: Links,
    // of each processor, the one that is placed there
    pub(crate) placed: Vec<Option<ActNo>>,
    // of each virtual processor, the thread of its last stop or block, and its steps since it was placed
    pub(crate) threads: Vec<Option<ThreadNo>>,
    pub(crate) steps: Vec<u32>,
    // of each space, a ready list and a work list at each place
    pub(crate) ready: Vec<Ready>,
    pub(crate) work: Vec<Links>,
    // how many threads are in work lists
    pub(crate) due: u64,
    // of each space, how many of its virtual processors are blocked, and what it has lost
    pub(crate) blocked: Vec<u32>,
    pub(crate) lost: Vec<u64>,
    pub(crate) trace: Trace,
    // the number of the next event
    pub(crate) number: u64,
}

impl Parts {
    // A record of the event on a processor.
    fn say(&mut self, p: ProcNo, what: Record)
        requires can { CanChange self.old.replay.workload p self.old.replay.state what }
        requires room { IsOverfull self.old.replay.workload self.old.replay.state what → ⊥ }
        requires some { 1 ≤ self.old.trace.spare }
        ensures { self.new ≡ record self.old {
          replay = after p self.old.replay what;
          trace = record {
            items = self.old.trace.items ++ record { event = self.old.number; proc = p; what = what } ∷ [];
            spare = self.old.trace.spare - 1;
          };
        } }
    {
        match self.replay.change(p, &what) {
            Ok(()) => {}
            Err(_) => unreachable!(),
        }
        self.trace.say(self.number, p, what);
    }

    // The thread that runs on a processor.
    fn carried(&self, p: ProcNo) -> Option<ThreadNo>
        ensures { result ≡ carried_on p (board_of self.now) }
    {
        let runner = self.replay.runner(p)?;
        Some(runner.thread())
    }

    /// The virtual processor that is placed on a processor.
    pub(crate) fn placed_on(&self, p: ProcNo) -> Option<ActNo>
        ensures { result ≡ slice_index_or self.now.placed.items p.0 None }
    {
        match self.placed.get(usize::from(p.0)) {
            Some(a) => *a,
            None => None,
        }
    }

    // The thread of the virtual processor's last stop or block.
    fn held(&self, a: ActNo) -> Option<ThreadNo>
        ensures { result ≡ held_by (board_of self.now) a }
    {
        match self.threads.get(a.0 as usize) {
            Some(t) => *t,
            None => None,
        }
    }

    // The first thread of the virtual processor's work list; no list is looked at where no thread is in any.
    fn first_due(&self, a: ActNo) -> Option<ThreadNo>
        requires tabled { IsTabled (board_of self.now) }
        requires known { IsVirtual (board_of self.now) a }
        requires counted { CountsWork (board_of self.now) }
        ensures first { result ≡ option_map thread (slice_get (list_in self.now.work.items (space_of a) (list_of a)) 0) }
        ensures small { IfSome result (λ t. t.0 < MAX_THREADS) }
    {
        if self.due == 0 {
            return None;
        }
        let s = space_of(a);
        let l = list_of(a);
        let first = self.work[usize::from(s.0)].front(u32::from(l.0))?;
        Some(ThreadNo(first as u16))
    }

    // The first ready list of the virtual processor's space, round from its own, that has a thread: none where no thread of
    // the space is ready.
    fn seek(&self, a: ActNo) -> Option<ProcNo>
        requires tabled { IsTabled (board_of self.now) }
        requires known { IsVirtual (board_of self.now) a }
        requires ready { ListsReady (board_of self.now) (space_of a) }
        ensures found { result ≡ find (λ l. is_some_list (list_in self.now.ready.items (space_of a) l))
            (round_from self.now.replay.workload (list_of a)) }
        ensures inside { IfSome result (λ l. l.0 < self.now.replay.workload.processors) }
        ensures some { IfSome result (λ l. is_some_list (list_in self.now.ready.items (space_of a) l) ≡ true) }
    {
        let s = space_of(a);
        if self.replay.ready_threads(s) == 0 {
            return None;
        }
        self.ready[usize::from(s.0)].seek(list_of(a))
    }

    // Takes a thread out of a ready list.
    fn take(&mut self, s: SpaceNo, l: ProcNo, own: bool) -> Option<ThreadNo>
        requires space { s.0 < length self.old.ready.items }
        requires list { l.0 < length (of_space self.old.ready.items s).lists }
        ensures thread { result ≡ option_map thread (picked (list_in self.old.ready.items s l) own) }
        ensures lists { self.new.ready.items
            ≡ with_list_in self.old.ready.items s l (left_of (list_in self.old.ready.items s l) own) }
        ensures rest { self.new ≡ record self.old { ready = self.new.ready } }
    {
        self.ready[usize::from(s.0)].take(l, own)
    }

    // One more step of the virtual processor is counted.
    fn count_step(&mut self, a: ActNo)
        requires inside { a.0 < length self.old.steps.items }
        requires few { slice_index_or self.old.steps.items a.0 0 < MAX_EVENTS + 1 }
        ensures steps { board_of self.new ≡ with_step a (board_of self.old) }
        ensures rest { self.new ≡ record self.old { steps = self.new.steps } }
    {
        self.steps[a.0 as usize] += 1;
    }

    /// The I/O is over: the virtual processor that it blocked goes to the end of the queue.
    pub(crate) fn complete(&mut self, p: ProcNo, io: IoNo)
        requires under_way { IsSome (io_at io.0 self.old.devices.ios.under_way) }
        requires can { (kind : IoKind) → option_map (λ (x : Io). x.kind) (io_at io.0 self.old.devices.ios.under_way) ≡ Some kind
            → CanComeBack p (of_io kind) (board_of self.old) }
        requires room { EVENT_ITEMS ≤ self.old.trace.spare }
        ensures board { board_of self.new ≡ completes p io (board_of self.old) }
        ensures room { Spends self.old self.new }
    {
        let a = blocked_by(self.devices.complete(io));
        let s = space_of(a);
        self.blocked[usize::from(s.0)] -= 1;
        self.queue.push_back(QUEUE, a.0 as u32);
        let held = self.held(a);
        self.say(p, Record::Unblock(s, held, a));
    }

    // The virtual processor is placed, and goes on with its thread.
    fn place(&mut self, p: ProcNo, a: ActNo)
        requires inside { p.0 < self.old.replay.workload.processors }
        requires can { CanPlaceOn p a (board_of self.old) }
        requires room { 2 ≤ self.old.trace.spare }
        ensures board { board_of self.new ≡ places p a (board_of self.old) }
        ensures items { self.old.trace.spare ≤ self.new.trace.spare + 2 }
        ensures ios { self.new.devices ≡ self.old.devices }
    {
        let s = space_of(a);
        let owner = self.replay.owner(p);
        self.placed[usize::from(p.0)] = Some(a);
        self.steps[a.0 as usize] = 0;
        self.say(p, Record::Move(owner, Some(s)));
        if let Some(t) = self.held(a) {
            self.say(p, Record::Cont(s, Some(t)));
        }
    }

    /// The first of the queue is placed.
    pub(crate) fn place_first(&mut self, p: ProcNo)
        requires inside { p.0 < self.old.replay.workload.processors }
        requires tabled { IsTabled (board_of self.old) }
        requires can { (a : ℕ) → slice_get (queued (board_of self.old)) 0 ≡ Some a → CanPlaceOn p (act a) (board_of self.old) }
        requires room { EVENT_ITEMS ≤ self.old.trace.spare }
        ensures board { board_of self.new ≡ places_first p (slice_get (queued (board_of self.old)) 0) (board_of self.old) }
        ensures room { Spends self.old self.new }
    {
        let Some(first) = self.queue.front(QUEUE) else {
            self.say(p, Record::Tick);
            return;
        };
        let _first = self.queue.pop_front(QUEUE);
        self.place(p, ActNo(u64::from(first)));
    }

    /// The virtual processor, which has made its steps, gives way to the first of the queue.
    pub(crate) fn relieve(&mut self, p: ProcNo, a: ActNo)
        requires inside { p.0 < self.old.replay.workload.processors }
        requires can { CanGiveWay p a (board_of self.old) }
        requires room { EVENT_ITEMS ≤ self.old.trace.spare }
        ensures board { board_of self.new ≡ relieves p a (board_of self.old) }
        ensures room { Spends self.old self.new }
    {
        let carried = self.carried(p);
        self.threads[a.0 as usize] = carried;
        self.say(p, Record::Stop(space_of(a), carried, a));
        let Some(first) = self.queue.front(QUEUE) else {
            return;
        };
        self.queue.push_back(QUEUE, a.0 as u32);
        let _first = self.queue.pop_front(QUEUE);
        self.place(p, ActNo(u64::from(first)));
    }

    // The first thread of the virtual processor's work list becomes ready, as the newest of its own list.
    fn make_ready(&mut self, p: ProcNo, a: ActNo, first: ThreadNo)
        requires small { first.0 < MAX_THREADS }
        requires can { CanReady p a first (board_of self.old) }
        requires room { EVENT_ITEMS ≤ self.old.trace.spare }
        ensures board { board_of self.new ≡ readies p a (carried_on p (board_of self.old)) first (board_of self.old) }
        ensures room { Spends self.old self.new }
    {
        let (s, l) = (space_of(a), list_of(a));
        let carried = self.carried(p);
        let _first = self.work[usize::from(s.0)].pop_front(u32::from(l.0));
        self.ready[usize::from(s.0)].push(l, first);
        self.due -= 1;
        self.say(p, Record::Take(s, l, carried));
        self.say(p, Record::Ready(s, first));
        self.say(p, Record::Free(s, l, carried));
    }

    // The thread blocks for an I/O of `len` events, and the virtual processor with it.
    fn block(&mut self, p: ProcNo, a: ActNo, t: ThreadNo, kind: IoKind, len: u32)
        requires inside { p.0 < self.old.replay.workload.processors }
        requires can { CanBlockOn p a t kind (board_of self.old) }
        requires io { 1 ≤ self.old.devices.ios.spare }
        requires room { 2 ≤ self.old.trace.spare }
        ensures board { board_of self.new ≡ blocks p a t kind len (board_of self.old) }
        ensures items { self.old.trace.spare ≤ self.new.trace.spare + 2 }
        ensures ios { self.old.devices.ios.spare ≤ self.new.devices.ios.spare + 1 }
    {
        let s = space_of(a);
        let io = self.devices.begin(kind, self.number, len);
        self.threads[a.0 as usize] = Some(t);
        self.placed[usize::from(p.0)] = None;
        self.blocked[usize::from(s.0)] += 1;
        self.say(p, Record::Block(s, Some(t), a, io));
        self.say(p, Record::Move(Some(s), None));
    }

    // The thread runs its next instruction, which is at this place. The threads that it forks or wakes go to the virtual
    // processor's work list.
    #[inline(always)]
    fn go(&mut self, p: ProcNo, a: ActNo, t: ThreadNo, pc: u16)
        requires at { pc ≡ (thread_at self.old.replay.state (space_of a) t).pc }
        requires can { CanGoOn p a t (board_of self.old) }
        requires room { 1 ≤ self.old.trace.spare }
        ensures board { board_of self.new ≡ goes p a t (board_of self.old) }
        ensures items { self.old.trace.spare ≤ self.new.trace.spare + 1 }
        ensures devices { self.new.devices ≡ self.old.devices }
    {
        let s = space_of(a);
        self.say(p, Record::Ins(s, t, pc));
        let roused = self.replay.roused();
        put_behind(&mut self.work[usize::from(s.0)], list_of(a), roused);
        self.due += roused.len() as u64;
    }

    // The thread runs `out`, which gives a register's value.
    fn go_out(&mut self, p: ProcNo, a: ActNo, t: ThreadNo, pc: u16, reg: Reg)
        requires at { pc ≡ (thread_at self.old.replay.state (space_of a) t).pc }
        requires can { CanGoOn p a t (board_of self.old) }
        requires room { 2 ≤ self.old.trace.spare }
        ensures board { board_of self.new
            ≡ ends_with p a t (thread_at self.old.replay.state (space_of a) t).regs (OutOf reg) (goes p a t (board_of self.old)) }
        ensures items { self.old.trace.spare ≤ self.new.trace.spare + 2 }
        ensures devices { self.new.devices ≡ self.old.devices }
    {
        let s = space_of(a);
        let value = self.replay.thread(s, t).regs().get(reg);
        self.go(p, a, t, pc);
        self.say(p, Record::Out(s, t, value));
    }

    // The thread runs its instruction, which is at this place and for which no page is missing.
    fn go_on(&mut self, p: ProcNo, a: ActNo, t: ThreadNo, pc: u16, instr: Instr)
        requires inside { p.0 < self.old.replay.workload.processors }
        requires at { pc ≡ (thread_at self.old.replay.state (space_of a) t).pc }
        requires can { CanGoOn p a t (board_of self.old) }
        requires blocks { (n : ℕ) → instr ≡ IoOf n → CanBlockOn p a t (Plain (space_of a) a) (goes p a t (board_of self.old)) }
        requires io { 1 ≤ self.old.devices.ios.spare }
        requires room { EVENT_ITEMS ≤ self.old.trace.spare }
        ensures board { board_of self.new
            ≡ ends_with p a t (thread_at self.old.replay.state (space_of a) t).regs instr (goes p a t (board_of self.old)) }
        ensures room { Spends self.old self.new }
    {
        match instr {
            Instr::Out(reg) => self.go_out(p, a, t, pc, reg),
            Instr::Io(len) => {
                self.go(p, a, t, pc);
                self.block(p, a, t, IoKind::Plain(space_of(a), a), len);
            }
            _ => self.go(p, a, t, pc),
        }
    }

    // The page that the instruction touches, if it is absent.
    fn missed_page(&self, s: SpaceNo, instr: Instr) -> Option<u16>
        requires { s.0 < length self.now.devices.pages }
        ensures { result ≡ missed_page (board_of self.now) s instr }
    {
        let Instr::Touch(page) = instr else {
            return None;
        };
        if has_page(self.devices.pages(s), page) {
            return None;
        }
        Some(page)
    }

    // The thread blocks for a page that is fetched.
    fn fetch(&mut self, p: ProcNo, a: ActNo, t: ThreadNo, page: u16)
        requires inside { p.0 < self.old.replay.workload.processors }
        requires can { CanBlockOn p a t (Page (space_of a) a page) (board_of self.old) }
        requires io { 1 ≤ self.old.devices.ios.spare }
        requires room { EVENT_ITEMS ≤ self.old.trace.spare }
        ensures board { board_of self.new
            ≡ blocks p a t (Page (space_of a) a page) self.old.replay.workload.fetch (board_of self.old) }
        ensures room { Spends self.old self.new }
    {
        let len = self.replay.workload().fetch();
        self.block(p, a, t, IoKind::Page(space_of(a), a, page), len);
    }

    // The thread runs an instruction, or blocks for a page.
    fn run(&mut self, p: ProcNo, a: ActNo, t: ThreadNo)
        requires inside { p.0 < self.old.replay.workload.processors }
        requires can { CanRunOn p a t (board_of self.old) }
        requires io { 1 ≤ self.old.devices.ios.spare }
        requires room { EVENT_ITEMS ≤ self.old.trace.spare }
        ensures board { board_of self.new ≡ runs p a t (board_of self.old) }
        ensures room { Spends self.old self.new }
    {
        let s = space_of(a);
        let pc = self.replay.thread(s, t).pc();
        let instr = self.replay.instr_of(s, t, pc);
        match self.missed_page(s, instr) {
            Some(page) => self.fetch(p, a, t, page),
            None => self.go_on(p, a, t, pc, instr),
        }
    }

    // The virtual processor takes a thread from the first list, round from its own, that has one.
    fn look(&mut self, p: ProcNo, a: ActNo)
        requires can { CanLook p a (board_of self.old) }
        requires room { EVENT_ITEMS ≤ self.old.trace.spare }
        ensures board { board_of self.new ≡ looks p a (board_of self.old) }
        ensures room { Spends self.old self.new }
    {
        let s = space_of(a);
        let own = list_of(a);
        let Some(l) = self.seek(a) else {
            self.say(p, Record::Idle);
            return;
        };
        let Some(t) = self.take(s, l, l.0 == own.0) else {
            unreachable!()
        };
        self.say(p, Record::Take(s, l, None));
        self.say(p, Record::Run(s, t));
        self.say(p, Record::Free(s, l, Some(t)));
    }

    /// A step of the virtual processor that is placed there.
    pub(crate) fn step(&mut self, p: ProcNo, a: ActNo)
        requires inside { p.0 < self.old.replay.workload.processors }
        requires can { CanStep p a (board_of self.old) }
        requires counted { CountsWork (board_of self.old) }
        requires io { 1 ≤ self.old.devices.ios.spare }
        requires room { EVENT_ITEMS ≤ self.old.trace.spare }
        ensures board { board_of self.new ≡ steps p a (board_of self.old) }
        ensures room { Spends self.old self.new }
    {
        self.count_step(a);
        if let Some(first) = self.first_due(a) {
            self.make_ready(p, a, first);
            return;
        }
        match self.carried(p) {
            Some(t) => self.run(p, a, t),
            None => self.look(p, a),
        }
    }
}
