// A moment as it reads a record.
#![tactic(auto, unfolding(crate::specs::Seen::seen))]

ghost use Rattle.std.specs.Prelude.{◌≡◌, ◌<◌, ◌↔◌, ◌&&◌, not, if◌then◌else◌, IfOk, IfSome, OnOk, IsTrue};
ghost use Rattle.std.specs.Option.{option_map};
ghost use Rattle.sa_base.specs.declared.limits.TheConstants.{PACKAGE_PAGE, PAGES};
ghost use Rattle.sa_laws.specs.Readings.{life_of, life_on, is_resident};
ghost use Rattle.sa_laws.specs.Record.{blocking, length_behind, length_in, is_thread, page_touched, page_in, locks_one, first_list, moved_after};
ghost use Rattle.sa_laws.specs.Step.{Needs};
ghost use Rattle.sa_check_lives.specs.View.{lives_of};
ghost use Rattle.sa_check_lives.specs.Recorded.{recorded};
ghost use Rattle.sa_replay.specs.Replayed.{after};
ghost use Rattle.sa_replay.specs.Needs.{CanChange, Sees, seen_of};
ghost use Rattle.sa_devices.specs.Pages.{HasPage};
ghost use Rattle.sa_check_moment.specs.Level.{ReadsLevel};
ghost use Rattle.sa_check_moment.specs.Seen.{seen, at_event, behind_record};
ghost use Rattle.sa_check_moment.specs.Reading.{ReadsPush, ReadsList, begun_by, changes_nothing, ended_by, passing, pending_after, ready_after};

use crate::level::Level;
use crate::moment::{Moment, Parts};
use sa_base::{ActNo, Item, PACKAGE_PAGE, ProcNo, Record, SpaceNo, ThreadNo};
use sa_check_ios::{Pending, ReadyLists};
use sa_check_lives::Lives;
use sa_devices::IoKind;
use sa_instr::Instr;
use sa_replay::{Beyond, LifeSeen, Replay};
use std::alloc::AllocError;
use std::marker::Model;

// What a block or a fetch is for, and how many events it takes.
#[derive(Clone, Copy)]
struct NewIo {
    kind: IoKind,
    length: u32,
}

impl Model for NewIo {
    ghost use Rattle.sa_laws.specs.Record.{Blocking};

    ghost Value = { Blocking };

    ghost view = { λ x. record { kind = x.kind; length = x.length } };

    ghost inverse = { λ x. record { kind = x.kind; length = x.length } };
}

// What is read of the moment before a record, for the parts that the record changes.
#[derive(Clone, Copy)]
struct Before {
    // A take of the life that runs on the processor is for a push, where the record is one.
    for_push: bool,
    // The I/O that the record begins.
    new_io: Option<NewIo>,
    // The list into which a thread is put that the record makes ready.
    list: ProcNo,
}

impl Moment {
    /// The abstract machine can take the record of the processor.
    #[inline(always)]
    pub fn allows(&self, p: ProcNo, what: &Record) -> bool
        ensures { IsTrue result ↔ Needs (seen self.now).workload p (seen self.now).readings what.now }
    {
        let beyond = self.beyond(what);
        self.parts.replay.allows(p, what, &beyond)
    }

    /// An event of this number and processor begins: its evictions are done, and its processor's line is low.
    #[inline(always)]
    pub fn begin(&mut self, number: u64, p: ProcNo)
        ensures { seen self.new ≡ at_event number p (seen self.old) }
    {
        let parts: &mut Parts = &mut self.parts;
        parts.pending.evict(number, parts.replay.workload());
        parts.board.lower(p);
        parts.last = None;
        parts.moved = None;
    }

    /// Reads a record of an event of this number and processor, which the abstract machine can take. Fails where memory
    /// runs out, where the record signals a semaphore whose count is 2^32 - 1, and where 2^64 - 1 I/Os were begun.
    #[inline(always)]
    pub fn read(self, number: u64, p: ProcNo, what: &Record) -> Result<Moment, AllocError>
        requires { Needs (seen self).workload p (seen self).readings what.now }
        ensures { IfOk result (λ m. seen m ≡ behind_record number p what.now (seen self)) }
    {
        if changes_nothing(what) {
            return Ok(self.passing(what));
        }
        self.reading(number, p, what)
    }

    // The moment at which this record comes directly before the next.
    #[inline(always)]
    fn passing(mut self, what: &Record) -> Moment
        ensures { seen result ≡ passing what.now (seen self) }
    {
        let parts: &mut Parts = &mut self.parts;
        parts.last = Some(*what);
        self
    }

    // Reads a record, which may change any part.
    #[inline(never)]
    fn reading(mut self, number: u64, p: ProcNo, what: &Record) -> Result<Moment, AllocError>
        requires { Needs (seen self).workload p (seen self).readings what.now }
        ensures { IfOk result (λ m. seen m ≡ behind_record number p what.now (seen self)) }
    {
        let before = Before {
            for_push: self.push_at(p, what),
            new_io: self.begun_by(what),
            list: self.list_at(p, what),
        };
        let parts: &mut Parts = &mut self.parts;
        parts.board.note(number, p, parts.last, what);
        read_parts(
            &mut parts.level,
            &mut parts.replay,
            &mut parts.lives,
            &mut parts.pending,
            &mut parts.ready,
            Item {
                event: number,
                proc: p,
                what: *what,
            },
            before,
        )?;
        parts.moved = moved_after(parts.moved, what);
        parts.last = Some(*what);
        Ok(self)
    }

    // What the record's needs look at beyond the abstract machine's state.
    #[inline(always)]
    fn beyond(&self, what: &Record) -> Beyond
        ensures { Sees (seen self.now).readings what.now result }
    {
        let pending = &self.parts.pending;
        let (pages, life, has_io) = match *what {
            Record::Ins(s, _, _) => (pending.pages(s), None, false),
            Record::Block(s, _, a, _) => (pending.pages(s), self.life_seen(a), false),
            Record::Unblock(_, _, a) => (0, self.life_seen(a), pending.has_io(a)),
            _ => (0, None, false),
        };
        Beyond {
            last: self.parts.last,
            pages,
            life,
            has_io,
        }
    }

    // What the needs of a record look at of the life of this number, if it is in use.
    fn life_seen(&self, a: ActNo) -> Option<LifeSeen>
        ensures { result ≡ option_map seen_of (life_of (seen self.now).readings a) }
    {
        match self.life(a) {
            None => None,
            Some(life) => Some(LifeSeen {
                space: life.space(),
                thread: life.thread(),
                locks_one: life.has_lock(),
            }),
        }
    }

    // At a take: it is for a push, as a thread of the hand of the life that runs on the processor counts.
    fn push_at(&self, p: ProcNo, what: &Record) -> bool
        ensures { ReadsPush (seen self.now).readings p what.now result }
    {
        match *what {
            Record::Take(..) => match self.life_on(p) {
                None => false,
                Some(life) => self.has_hand(life),
            },
            _ => false,
        }
    }

    // At a ready: the list into which the thread is put.
    fn list_at(&self, p: ProcNo, what: &Record) -> ProcNo
        ensures { ReadsList (seen self.now).readings p what.now result }
    {
        match *what {
            Record::Ready(..) => self.first_list(p),
            _ => p,
        }
    }

    // The first of the lists that the life on the processor has locked, else the processor's own.
    fn first_list(&self, p: ProcNo) -> ProcNo
        ensures { result ≡ first_list (life_on (seen self.now).readings p) p }
    {
        match self.life_on(p) {
            None => p,
            Some(life) => match life.first_lock() {
                None => p,
                Some(lock) => lock.list,
            },
        }
    }

    // The I/O that the record begins.
    fn begun_by(&self, what: &Record) -> Option<NewIo>
        ensures new_io { result ≡ begun_by (seen self.now).workload (seen self.now).readings what.now }
        ensures page { IfSome result (λ b. HasPage b.kind) }
    {
        match *what {
            Record::Block(s, t, a, _) => Some(self.blocking(s, t, a)),
            Record::Fetch(s) => Some(NewIo {
                kind: IoKind::Upcall(s),
                length: self.workload().fetch(),
            }),
            _ => None,
        }
    }

    // What the block of a life is for.
    fn blocking(&self, s: SpaceNo, t: Option<ThreadNo>, a: ActNo) -> NewIo
        ensures new_io { result ≡ blocking (seen self.now).workload (seen self.now).readings s t a }
        ensures page { HasPage result.kind }
    {
        match self.length_behind(s, t) {
            Some(length) => NewIo {
                kind: IoKind::Plain(s, a),
                length,
            },
            None => NewIo {
                kind: IoKind::Page(s, a, self.page_for(s, t, a)),
                length: self.workload().fetch(),
            },
        }
    }

    // The page for which a life blocks: if it has a lock and the package's page is absent, that page; else the one that its
    // thread touches.
    fn page_for(&self, s: SpaceNo, t: Option<ThreadNo>, a: ActNo) -> u16
        ensures page { result ≡ (if locks_one (life_of (seen self.now).readings a)
            && not (is_resident (seen self.now).readings s PACKAGE_PAGE) then PACKAGE_PAGE
            else page_touched (seen self.now).workload (seen self.now).readings s t) }
        ensures few { result < PAGES }
    {
        match self.life(a) {
            Some(life) if life.has_lock() && !self.is_resident(s, PACKAGE_PAGE) => PACKAGE_PAGE,
            _ => self.page_touched(s, t),
        }
    }

    // The page that the thread touches, if there is one and it does; else 0.
    fn page_touched(&self, s: SpaceNo, t: Option<ThreadNo>) -> u16
        ensures page { result ≡ page_touched (seen self.now).workload (seen self.now).readings s t }
        ensures few { result < PAGES }
    {
        self.workload().ranges();
        match t {
            None => 0,
            Some(t) => page_in(self.parts.replay.next_instr(s, t)),
        }
    }

    // The length of the thread's `io` whose record comes directly before.
    fn length_behind(&self, s: SpaceNo, t: Option<ThreadNo>) -> Option<u32>
        ensures { result ≡ length_behind (seen self.now).workload (seen self.now).readings s t
            (seen self.now).readings.last }
    {
        match self.last() {
            Some(Record::Ins(of, u, place)) => {
                if of.0 == s.0 && is_thread(u, t) {
                    length_in(self.instr_of(of, u, place))
                } else {
                    None
                }
            }
            _ => None,
        }
    }
}

// The record changes nothing but which record comes directly before the next.
#[inline(always)]
fn changes_nothing(what: &Record) -> bool
    ensures { result ≡ changes_nothing what.now }
{
    matches!(*what, Record::Idle | Record::Spin(_) | Record::Tick)
}

// It is this thread.
fn is_thread(t: ThreadNo, other: Option<ThreadNo>) -> bool
    ensures { result ≡ is_thread t other }
{
    match other {
        None => false,
        Some(u) => t.0 == u.0,
    }
}

fn length_in(instr: Instr) -> Option<u32>
    ensures { result ≡ length_in instr }
{
    match instr {
        Instr::Io(length) => Some(length),
        _ => None,
    }
}

fn page_in(instr: Instr) -> u16
    ensures { result ≡ page_in instr }
{
    match instr {
        Instr::Touch(page) => page,
        _ => 0,
    }
}

// The space to which the event's processor moved.
fn moved_after(moved: Option<SpaceNo>, what: &Record) -> Option<SpaceNo>
    ensures { result ≡ moved_after moved what.now }
{
    match *what {
        Record::Move(_, new) => new,
        _ => moved,
    }
}

// Reads a record part by part: what is kept for the rules, the state, the lives, the I/Os and pages, and the ready threads.
fn read_parts(
    level: &mut Level,
    replay: &mut Replay,
    lives: &mut Lives,
    pending: &mut Pending,
    ready: &mut ReadyLists,
    item: Item,
    before: Before,
) -> Result<(), AllocError>
    requires can { CanChange replay.old.workload item.proc replay.old.state item.what }
    requires page { IfSome before.new_io (λ b. HasPage b.kind) }
    ensures level { OnOk result (ReadsLevel replay.old.state item.what level.old level.new) }
    ensures replay { OnOk result (replay.new ≡ after item.proc replay.old item.what) }
    ensures lives { OnOk result (lives_of lives.new
        ≡ recorded replay.new.roused before.for_push item.proc item.what (lives_of lives.old)) }
    ensures pending { OnOk result (pending.new
        ≡ pending_after before.new_io item.event item.what pending.old) }
    ensures ready { OnOk result (ready.new ≡ ready_after before.list item.what ready.old) }
{
    level.read(replay, &item.what)?;
    read_pending(pending, item.event, &item.what, before.new_io)?;
    read_ready(ready, &item.what, before.list)?;
    replay.change(item.proc, &item.what)?;
    lives.read(item.proc, item.what, replay.roused(), before.for_push)
}

// Reads the I/Os and the pages of a record, and the I/O that it begins.
fn read_pending(
    pending: &mut Pending,
    event: u64,
    what: &Record,
    new_io: Option<NewIo>,
) -> Result<(), AllocError>
    requires { IfSome new_io (λ b. HasPage b.kind) }
    ensures { OnOk result (pending.new ≡ pending_after new_io event what.now pending.old) }
{
    match new_io {
        Some(new_io) => pending.begin(new_io.kind, event, new_io.length),
        None => {
            end_one(pending, what);
            Ok(())
        }
    }
}

// Reads the I/O that is over with a record.
fn end_one(pending: &mut Pending, what: &Record)
    ensures { pending.new ≡ ended_by what.now pending.old }
{
    match *what {
        Record::Unblock(_, _, a) => pending.end_of_life(a),
        Record::Fetched(s) => pending.end_of_fetch(s),
        _ => {}
    }
}

// Reads a record that makes a thread ready, in this list, or runs one.
fn read_ready(ready: &mut ReadyLists, what: &Record, list: ProcNo) -> Result<(), AllocError>
    ensures { OnOk result (ready.new ≡ ready_after list what.now ready.old) }
{
    match *what {
        Record::Ready(s, t) => ready.ready(s, t, list),
        Record::Run(s, t) => {
            ready.run(s, t);
            Ok(())
        }
        _ => Ok(()),
    }
}
