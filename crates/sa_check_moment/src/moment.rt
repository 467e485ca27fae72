// A moment of a history.
#![tactic(auto, unfolding(crate::specs::Seen::seen))]

ghost use Rattle.std.specs.Prelude.{◌≡◌, ◌≢◌, ◌↔◌, ◌≤◌, true, [], length, IfOk, IsTrue};
ghost use Rattle.std.specs.List.{list_any};
ghost use Rattle.std.specs.Option.{option_copied, option_map};
ghost use Rattle.sa_spaces.specs.Workload.{WorkloadView};
ghost use Rattle.sa_devices.specs.Ios.{Io, due_of};
ghost use Rattle.sa_laws.specs.State.{Runner, instr_of, thread_at, runner_on, space_at};
ghost use Rattle.sa_laws.specs.Readings.{opening_readings, owner_of, aim_of, line_of, running_of, life_of, life_on, space_of_life, demand_of, untold_of, taken_of, is_resident, is_fetching, load_of, usable, has_hand, counts, many_taken, must_hear, IsLocked, IsOpen, ready_of, has_ready, NoneIsOpen};
ghost use Rattle.sa_laws.specs.Closing.{must_want};
ghost use Rattle.sa_laws.specs.Turns.{AnotherHas};
ghost use Rattle.sa_laws.specs.Locks.{HoldsLock, next_thread, list_round, IsFirstOpen};
ghost use Rattle.sa_laws.specs.Ends.{IsAllDone, IsStuck};
ghost use Rattle.sa_check_lives.specs.View.{lives_of, no_lives};
ghost use Rattle.sa_check_ios.specs.PendingView as pending;
ghost use Rattle.sa_check_ios.specs.Ready.{first_ready};
ghost use Rattle.sa_replay.specs.Replayed as replayed;
ghost use Rattle.sa_check_moment.specs.Board.{no_board};
ghost use Rattle.sa_check_moment.specs.KeptFields.{kept_in};
ghost use Rattle.sa_check_moment.specs.Level.{rules_in, IsKeptFor};
ghost use Rattle.sa_check_moment.specs.Listed.{IsListed};
ghost use Rattle.sa_check_moment.specs.Seen.{seen, opened};

mod finish;
mod heard;
mod ranks;
mod read;
mod show;

use crate::board::Board;
use crate::level::Level;
use sa_base::{ActNo, BULK_RETURN, Note, ProcNo, Record, RulesName, SpaceNo, ThreadNo};
use sa_check_ios::{ListedThread, Pending, ReadyLists};
use sa_check_lives::{KeptLife, ListLock, Lives};
use sa_devices::IoKind;
use sa_instr::Instr;
use sa_laws::Place;
use sa_replay::{Replay, RunningThread, ThreadState};
use sa_spaces::Workload;
use std::alloc::{AllocError, Global};
use std::marker::Model;

/// What is read of a history at a moment.
///
/// A query takes constant or logarithmic time, and where it looks for a life goes through the few whose numbers share one
/// of 512 shelves; but for one that looks at what a space was not told, at its ready threads, at a hand or at the locks of
/// lives, which takes time in these. An event takes such time for each of its records.
///
/// It lies on the heap, so that it is moved for nothing.
#[derive(Drop)]
pub struct Moment {
    parts: Box<Parts>,
}

// The parts of what is read.
#[derive(Drop)]
struct Parts {
    replay: Replay,
    lives: Lives,
    pending: Pending,
    ready: ReadyLists,
    board: Board,
    level: Level,
    number: u64,
    last: Option<Record>,
    moved: Option<SpaceNo>,
}

impl Model for Moment {
    ghost use Rattle.sa_check_moment.specs.Seen.{Kept};
    ghost use Rattle.sa_check_moment.specs.Listed.{IsMoment};

    ghost Value = { Kept };

    ghost use Rattle.sa_check_moment.specs.KeptFields.{kept_of};

    ghost view = { kept_of };

    ghost invariant = { IsMoment };
}

impl Moment {
    /// Before any record of a trace of this workload, which is judged by these rules. Fails only where memory runs out.
    pub fn start(alloc: Global, rules: RulesName, workload: &Workload) -> Result<Moment, AllocError>
        ensures { IfOk result (λ m. seen m ≡ opened rules workload.now) }
    {
        let parts = first_parts(alloc, rules, workload)?;
        Ok(Moment {
            parts: Box::new(alloc, parts)?,
        })
    }

    /// Lets go of the moment with all that it holds. One that goes out of scope is let go too, but by code that is made,
    /// and proved, again in each crate where it does.
    pub fn discard(self) {}

    /// The workload.
    pub fn workload(&self) -> &Workload
        ensures { result.now ≡ (seen self.now).workload }
    {
        self.parts.replay.workload()
    }

    /// The number of the next event: how many there were.
    pub fn number(&self) -> u64
        ensures { result ≡ (seen self.now).readings.number }
    {
        self.parts.number
    }

    /// The space that owns the processor.
    pub fn owner(&self, p: ProcNo) -> Option<SpaceNo>
        ensures { result ≡ owner_of (seen self.now).readings p }
    {
        self.parts.replay.owner(p)
    }

    /// What every moment keeps to. It does nothing.
    pub fn ranges(&self)
        ensures { IsListed (seen self.now) }
    {
        let _number = &self.parts.number;
    }

    /// The space of the processor's last aim record.
    pub fn aim(&self, p: ProcNo) -> Option<SpaceNo>
        ensures { result ≡ aim_of (seen self.now).readings p }
    {
        self.parts.board.aim(p)
    }

    /// The event that raised the processor's line, `None` where it is low.
    pub fn line(&self, p: ProcNo) -> Option<u64>
        ensures { result ≡ line_of (seen self.now).readings p }
    {
        self.parts.board.line(p)
    }

    /// Of each processor: the space that owns it.
    pub fn owners(&self) -> &[Option<SpaceNo>]
        ensures { result.now ≡ (seen self.now).readings.state.owners }
    {
        self.parts.replay.owners()
    }

    /// Of each processor: the space of its last aim record.
    pub fn aims(&self) -> &[Option<SpaceNo>]
        ensures { result.now ≡ (seen self.now).readings.aims }
    {
        self.parts.board.aims()
    }

    /// Of each processor: the event that raised its line.
    pub fn lines(&self) -> &[Option<u64>]
        ensures { result.now ≡ (seen self.now).readings.lines }
    {
        self.parts.board.lines()
    }

    /// Of each processor: its idle mark.
    pub fn marks(&self) -> &[bool]
        ensures { result.now ≡ (seen self.now).readings.marks }
    {
        self.parts.board.marks()
    }

    /// The number of the life that runs on the processor.
    pub fn running(&self, p: ProcNo) -> Option<ActNo>
        ensures { result ≡ running_of (seen self.now).readings p }
    {
        self.parts.lives.running(p)
    }

    /// Of each processor: its running life.
    pub fn all_running(&self) -> &[Option<ActNo>]
        ensures { result.now ≡ (seen self.now).readings.running }
    {
        self.parts.lives.all_running()
    }

    /// The life of this number, if it is in use.
    #[inline(always)]
    pub fn life(&self, a: ActNo) -> Option<&KeptLife>
        ensures { option_copied result ≡ life_of (seen self.now).readings a }
    {
        self.parts.lives.life(a)
    }

    /// The life that runs on the processor.
    #[inline(always)]
    pub fn life_on(&self, p: ProcNo) -> Option<&KeptLife>
        ensures { option_copied result ≡ life_on (seen self.now).readings p }
    {
        match self.running(p) {
            None => None,
            Some(a) => self.life(a),
        }
    }

    /// The space of the life of this number, if one is given and it is in use.
    pub fn space_of_life(&self, a: Option<ActNo>) -> Option<SpaceNo>
        ensures { result ≡ space_of_life (seen self.now).readings a }
    {
        self.parts.lives.space(a)
    }

    /// How many processors the space wants, by its last want record.
    pub fn demand(&self, s: SpaceNo) -> u16
        ensures { result ≡ demand_of (seen self.now).readings s }
    {
        self.parts.board.demand(s)
    }

    /// What the space was not told yet, in order.
    pub fn untold(&self, s: SpaceNo) -> &[Note]
        ensures { result.now ≡ untold_of (seen self.now).readings s }
    {
        self.parts.lives.untold(s)
    }

    /// The lives of the space that were taken and not given back, in the order of taking.
    pub fn taken(&self, s: SpaceNo) -> &[ActNo]
        ensures { result.now ≡ taken_of (seen self.now).readings s }
    {
        self.parts.lives.taken(s)
    }

    /// How many I/Os and fetches were begun.
    pub fn io_count(&self) -> u64
        ensures { result ≡ (seen self.now).readings.io_count }
    {
        self.parts.pending.io_count()
    }

    /// The page of the space is resident.
    pub fn is_resident(&self, s: SpaceNo, page: u16) -> bool
        ensures { result ≡ is_resident (seen self.now).readings s page }
    {
        self.parts.pending.is_resident(s, page)
    }

    /// The upcall page of the space is being fetched.
    pub fn is_fetching(&self, s: SpaceNo) -> bool
        ensures { result ≡ is_fetching (seen self.now).readings s }
    {
        self.parts.pending.is_fetching(s)
    }

    /// What the I/O is for that is due at the event: the one with the least end up to the event, and of these the one
    /// with the least number.
    pub fn due(&self, event: u64) -> Option<IoKind>
        ensures { result ≡ option_map (λ (io : Io). io.kind) (due_of event (seen self.now).readings.under_way) }
    {
        self.parts.pending.due(event)
    }

    /// Some I/O is under way.
    pub fn is_busy(&self) -> bool
        ensures { IsTrue result ↔ ((seen self.now).readings.under_way ≢ []) }
    {
        self.parts.pending.is_busy()
    }

    /// The thread; one that was not made counts as done.
    #[inline(always)]
    pub fn thread(&self, s: SpaceNo, t: ThreadNo) -> ThreadState
        ensures { result ≡ thread_at (seen self.now).readings.state s t }
    {
        self.parts.replay.thread(s, t)
    }

    /// The thread that runs on the processor.
    #[inline(always)]
    pub fn runner(&self, p: ProcNo) -> Option<RunningThread>
        ensures { result ≡ runner_on (seen self.now).readings.state p }
    {
        self.parts.replay.runner(p)
    }

    /// The instruction at this pc of the thread's program, and `end` where there is none.
    #[inline(always)]
    pub fn instr_of(&self, s: SpaceNo, t: ThreadNo, pc: u16) -> Instr
        ensures { result ≡ instr_of (seen self.now).workload (seen self.now).readings.state s t pc }
    {
        self.parts.replay.instr_of(s, t, pc)
    }

    /// The thread that runs on the life's processor.
    pub fn carried(&self, p: ProcNo) -> Option<ThreadNo>
        ensures { result ≡ option_map (λ (runner : Runner). runner.thread) (runner_on (seen self.now).readings.state p) }
    {
        match self.runner(p) {
            None => None,
            Some(runner) => Some(runner.thread()),
        }
    }

    /// A thread of the life's hand is carried or due.
    #[inline(always)]
    pub fn has_hand(&self, life: &KeptLife) -> bool
        ensures { result ≡ has_hand (seen self.now).readings life.now }
    {
        let s = life.space();
        for t in life.hand() {
            if self.counts(s, *t) {
                return true;
            }
        }
        false
    }

    /// The thread of a hand counts: it is carried or due.
    pub fn counts(&self, s: SpaceNo, t: ThreadNo) -> bool
        ensures { result ≡ counts (space_at (seen self.now).readings.state s) t }
    {
        self.thread(s, t).place() == Place::Carried || self.parts.replay.is_due(s, t)
    }

    /// The ready and running threads of the space, and the threads of its untold stops.
    pub fn load(&self, s: SpaceNo) -> u128
        ensures { result ≡ load_of (seen self.now).readings s }
    {
        u128::from(self.parts.replay.active_threads(s)) + self.parts.lives.untold_threads(s) as u128
    }

    /// How many processors the load of the space can use.
    pub fn usable(&self, s: SpaceNo) -> u16
        ensures { result ≡ usable (seen self.now).workload (seen self.now).readings s }
    {
        let processors = self.workload().processors();
        if self.load(s) < u128::from(processors) {
            self.load(s) as u16
        } else {
            processors
        }
    }

    /// 8 or more lives of the space were taken and not given back.
    pub fn many_taken(&self, s: SpaceNo) -> bool
        ensures { result ≡ many_taken (seen self.now).readings s }
    {
        self.taken(s).len() >= BULK_RETURN as usize
    }

    /// The space wants no processor and must be told something.
    pub fn must_want(&self, s: SpaceNo) -> bool
        ensures { result ≡ must_want (seen self.now).readings s }
    {
        self.demand(s) == 0 && self.one_must_be_heard(self.untold(s))
    }

    /// Some life of the space has the list among its locks.
    pub fn is_locked(&self, s: SpaceNo, l: ProcNo) -> bool
        ensures { IsTrue result ↔ IsLocked (seen self.now).readings s l }
    {
        self.parts.lives.is_locked(s, l)
    }

    /// Some other life of the space than `a` has the list among its locks.
    pub fn is_locked_by_other(&self, a: ActNo, s: SpaceNo, l: ProcNo) -> bool
        ensures { IsTrue result ↔ AnotherHas (seen self.now).readings a s l }
    {
        self.parts.lives.is_locked_by_other(a, s, l)
    }

    /// The thread holds the lock of a list.
    pub fn holds_lock(&self, s: SpaceNo, t: ThreadNo) -> bool
        ensures { IsTrue result ↔ HoldsLock (seen self.now).readings s t }
    {
        self.parts.lives.holds_lock(s, t)
    }

    /// A ready thread of the space is in the list.
    pub fn has_ready(&self, s: SpaceNo, l: ProcNo) -> bool
        ensures { result ≡ has_ready (seen self.now).readings s l }
    {
        self.parts.ready.has_ready(s, l)
    }

    /// Each list of the space in which there is a ready thread is locked.
    pub fn none_is_open(&self, s: SpaceNo) -> bool
        ensures { IsTrue result ↔ NoneIsOpen (seen self.now).readings s }
    {
        for x in self.listed(s) {
            if !self.is_locked(s, x.list) {
                return false;
            }
        }
        true
    }

    /// Of the space's lists from that of the processor on, round, `l` is the first that nobody locks and in which a
    /// ready thread is.
    pub fn is_first_open(&self, s: SpaceNo, p: ProcNo, l: ProcNo) -> bool
        ensures { IsTrue result ↔ IsFirstOpen (seen self.now).workload (seen self.now).readings s p l }
    {
        let processors = self.workload().processors();
        for k in 0..processors {
            let list = list_round(processors, p, k);
            if self.is_open(s, list) {
                return list == l;
            }
        }
        false
    }

    /// The thread that is next in the list of the lock: the newest where the list was taken on its own processor, else
    /// the oldest.
    pub fn next_thread(&self, s: SpaceNo, lock: ListLock) -> Option<ThreadNo>
        ensures { result ≡ next_thread (seen self.now).readings s lock }
    {
        let next = if lock.own {
            self.parts.ready.newest(s, lock.list)
        } else {
            self.parts.ready.oldest(s, lock.list)
        };
        match next {
            None => None,
            Some(x) => Some(x.thread),
        }
    }

    /// The number of the life of the last up.
    pub fn upped(&self) -> Option<ActNo>
        ensures { result ≡ (seen self.now).readings.upped }
    {
        self.parts.lives.upped()
    }

    /// The record of the same event that comes directly before.
    pub fn last(&self) -> Option<Record>
        ensures { result ≡ (seen self.now).readings.last }
    {
        self.parts.last
    }

    /// The space to which the event's processor moved.
    pub fn moved(&self) -> Option<SpaceNo>
        ensures { result ≡ (seen self.now).readings.moved }
    {
        self.parts.moved
    }

    /// Every thread that was made is done.
    pub fn are_all_done(&self) -> bool
        ensures { IsTrue result ↔ IsAllDone (seen self.now).readings }
    {
        self.parts.replay.are_all_done()
    }

    /// Some thread is not done, and nothing can happen any more.
    pub fn is_stuck(&self) -> bool
        ensures { IsTrue result ↔ IsStuck (seen self.now).readings }
    {
        let parts: &Parts = &self.parts;
        if self.are_all_done() || !parts.replay.are_all_at_rest() {
            return false;
        }
        if self.is_busy() {
            return false;
        }
        if !parts.board.all_low() {
            return false;
        }
        !parts.lives.some_is_in()
    }

    // The space must be told one of the notices even where it wants no processor.
    fn one_must_be_heard(&self, notes: &[Note]) -> bool
        ensures { result ≡ list_any (must_hear (seen self.now).readings) notes.now }
    {
        let lives = &self.parts.lives;
        for note in notes {
            if lives.must_be_told(*note) {
                return true;
            }
        }
        false
    }

    /// The ready threads of the space, in the order of their ready records.
    pub fn listed(&self, s: SpaceNo) -> &[ListedThread]
        ensures { result.now ≡ ready_of (seen self.now).readings s }
    {
        self.parts.ready.listed(s)
    }

    // Nobody locks the list, and a ready thread is in it.
    fn is_open(&self, s: SpaceNo, l: ProcNo) -> bool
        ensures { IsTrue result ↔ IsOpen (seen self.now).readings s l }
    {
        self.has_ready(s, l) && !self.is_locked(s, l)
    }
}

// The parts before any record. Fails only where memory runs out.
fn first_parts(alloc: Global, rules: RulesName, workload: &Workload) -> Result<Parts, AllocError>
    ensures seen { IfOk result (λ x. seen (kept_in x) ≡ opened rules workload.now) }
    ensures kept { let r = opening_readings workload.now in IfOk result (λ x. IsKeptFor x.level r.state r.ready) }
{
    let (ready, board, level) = first_lists(alloc, rules, workload)?;
    let (replay, lives, pending) = first_states(alloc, workload)?;
    Ok(Parts {
        replay,
        lives,
        pending,
        ready,
        board,
        level,
        number: 0,
        last: None,
        moved: None,
    })
}

// Before any record: the replay, the lives, and the I/Os and pages. Fails only where memory runs out.
fn first_states(alloc: Global, workload: &Workload) -> Result<(Replay, Lives, Pending), AllocError>
    ensures replay { IfOk result (λ x. x.0 ≡ replayed.opened workload.now) }
    ensures lives { let w = workload.now in IfOk result (λ x. lives_of x.1 ≡ no_lives w.processors (length w.spaces)) }
    ensures pending { IfOk result (λ x. x.2 ≡ pending.opened workload.now) }
{
    let pending = Pending::new(alloc, workload)?;
    let lives = Lives::new(alloc, workload.processors(), workload.spaces().len() as u16)?;
    Ok((Replay::start(alloc, workload)?, lives, pending))
}

// Before any record: the ready threads, what the records say themselves, and what is kept for the rules. Fails only where
// memory runs out.
fn first_lists(
    alloc: Global,
    rules: RulesName,
    workload: &Workload,
) -> Result<(ReadyLists, Board, Level), AllocError>
    ensures ready { IfOk result (λ x. x.0 ≡ first_ready (length workload.now.spaces)) }
    ensures board { let w = workload.now in IfOk result (λ x. x.1 ≡ no_board w.processors (length w.spaces)) }
    ensures rules { IfOk result (λ x. rules_in x.2 ≡ rules) }
    ensures kept { let r = opening_readings workload.now in IfOk result (λ x. IsKeptFor x.2 r.state r.ready) }
{
    let spaces = workload.spaces().len();
    let ready = ReadyLists::new(alloc, spaces)?;
    let board = Board::new(alloc, usize::from(workload.processors()), spaces)?;
    Ok((ready, board, Level::new(alloc, rules, spaces)?))
}

// The list `k` places after that of the processor, of as many as there are processors, round.
fn list_round(processors: u16, p: ProcNo, k: u16) -> ProcNo
    requires { 1 ≤ processors }
    ensures { (w : WorkloadView) → w.processors ≡ processors → result ≡ list_round w p k }
{
    ProcNo(((u32::from(p.0) + u32::from(k)) % u32::from(processors)) as u16)
}
