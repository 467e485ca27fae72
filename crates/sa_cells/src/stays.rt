// Which cells stay in an event for certain: no text of these is written.
ghost use Rattle.std.specs.Prelude.{◌≡◌, ◌<◌, true, not, length, List};
ghost use Rattle.std.specs.List.{list_any};
ghost use Rattle.std.specs.Option.{option_map};
ghost use Rattle.sa_base.specs.declared.number.ActNo.{ActNo};
ghost use Rattle.sa_base.specs.declared.number.ThreadNo.{ThreadNo};
ghost use Rattle.sa_laws.specs.State.{space_at};
ghost use Rattle.sa_laws.specs.Readings.{life_on};
ghost use Rattle.sa_check_moment.specs.Seen.{seen};
ghost use Rattle.sa_cells.specs.Text.{text_of};
ghost use Rattle.sa_cells.specs.Space.{holder_text};
ghost use Rattle.sa_cells.specs.Stays.{Follows, is_move, is_aim, is_want, is_switch, is_news, is_listing, is_instr, is_threads, is_told, touches, stays, same_flag, same_line, same_thread, same_run, both_if, runs_same, same_place, no_lock, no_hand, same_at, same_where, same_standing, same_awaited, same_wait, made_same, has_made, thread_same, is_same};

use crate::cell::Cell;
use crate::life::is_on;
use crate::thread::{holder_of, waits};
use crate::view::View;
use sa_base::{ActNo, ProcNo, Record, SpaceNo, ThreadNo};
use sa_check_lives::KeptLife;
use sa_check_moment::Moment;
use sa_instr::Instr;
use sa_laws::Place;
use sa_replay::ThreadState;
use sa_sync::SyncState;

/// Whether the cell has for certain after this event the text that it had before: no record of the event touches it, or what its text is
/// made of is the same.
pub(crate) fn is_kept(
    before: &View,
    now: &View,
    number: u64,
    p: ProcNo,
    records: &[Record],
    cell: Cell,
) -> bool
    requires { Follows (seen before.now.moment) (seen now.now.moment) number p records.now }
    ensures { (ups : List ActNo) → result ≡ true
        → text_of ups (seen before.now.moment) cell ≡ text_of ups (seen now.now.moment) cell }
{
    if stays(records, cell) {
        return true;
    }
    if is_same(before, now, cell) {
        return true;
    }
    is_free(&before.moment, &now.moment, cell)
}

// No record touches the cell, which is one of those of which records tell.
fn stays(records: &[Record], cell: Cell) -> bool
    ensures { result ≡ stays records.now cell }
{
    is_told(cell) && !is_touched(records, cell)
}

fn is_touched(records: &[Record], cell: Cell) -> bool
    ensures { result ≡ list_any (touches cell) records.now }
{
    records.iter().any(|what| touches(cell, what))
}

fn is_told(cell: Cell) -> bool
    ensures { result ≡ is_told cell }
{
    match cell {
        Cell::Owner(_)
        | Cell::Aim(_)
        | Cell::Activation(_)
        | Cell::Demand(_)
        | Cell::Untold(_)
        | Cell::Listed(_, _)
        | Cell::Thread(_, _)
        | Cell::Mutex(_, _)
        | Cell::Semaphore(_, _)
        | Cell::Shared(_, _) => true,
        _ => false,
    }
}

fn touches(cell: Cell, what: &Record) -> bool
    ensures { result ≡ touches cell what.now }
{
    match cell {
        Cell::Owner(_) => is_move(what),
        Cell::Aim(_) => is_aim(what),
        Cell::Activation(_) => is_switch(what),
        Cell::Demand(_) => is_want(what),
        Cell::Untold(_) => is_news(what),
        Cell::Listed(s, _) => is_listing(s, what),
        Cell::Thread(s, _) => is_threads(s, what),
        Cell::Mutex(s, _) => is_instr(s, what),
        Cell::Semaphore(s, _) => is_instr(s, what),
        Cell::Shared(s, _) => is_instr(s, what),
        _ => true,
    }
}

fn is_move(what: &Record) -> bool
    ensures { result ≡ is_move what.now }
{
    matches!(*what, Record::Move(_, _))
}

fn is_aim(what: &Record) -> bool
    ensures { result ≡ is_aim what.now }
{
    matches!(*what, Record::Aim(_, _))
}

fn is_want(what: &Record) -> bool
    ensures { result ≡ is_want what.now }
{
    matches!(*what, Record::Want(_, _))
}

// An activation begins or ends to run.
fn is_switch(what: &Record) -> bool
    ensures { result ≡ is_switch what.now }
{
    match *what {
        Record::Stop(..) | Record::Block(..) | Record::Up(..) => true,
        _ => false,
    }
}

// A space is to be told something, or is told.
fn is_news(what: &Record) -> bool
    ensures { result ≡ is_news what.now }
{
    match *what {
        Record::Stop(..) | Record::Block(..) | Record::Unblock(..) | Record::Told(_) => true,
        _ => false,
    }
}

// A ready list of the space gets or loses a thread.
fn is_listing(s: SpaceNo, what: &Record) -> bool
    ensures { result ≡ is_listing s what.now }
{
    match *what {
        Record::Run(of, _) | Record::Ready(of, _) => of.0 == s.0,
        _ => false,
    }
}

/// No thread of the space runs an instruction in these records.
pub(crate) fn has_no_instr(s: SpaceNo, records: &[Record]) -> bool
    ensures { result ≡ not (list_any (is_instr s) records.now) }
{
    !has_instr(s, records)
}

fn has_instr(s: SpaceNo, records: &[Record]) -> bool
    ensures { result ≡ list_any (is_instr s) records.now }
{
    records.iter().any(|what| is_instr(s, what))
}

/// A thread of the space runs an instruction.
pub(crate) fn is_instr(s: SpaceNo, what: &Record) -> bool
    ensures { result ≡ is_instr s what.now }
{
    match *what {
        Record::Ins(of, _, _) => of.0 == s.0,
        _ => false,
    }
}

// A thread of the space goes on, or is in another place.
fn is_threads(s: SpaceNo, what: &Record) -> bool
    ensures { result ≡ is_threads s what.now }
{
    match *what {
        Record::Ins(u, _, _) => u.0 == s.0,
        Record::Run(u, _) | Record::Ready(u, _) => u.0 == s.0,
        Record::Stop(u, _, _) | Record::Unblock(u, _, _) => u.0 == s.0,
        Record::Block(u, _, _, _) => u.0 == s.0,
        Record::Cont(u, _) | Record::Back(u, _) => u.0 == s.0,
        _ => false,
    }
}

// What the cell's text is made of is the same at both moments.
fn is_same(before: &View, now: &View, cell: Cell) -> bool
    ensures { result ≡ is_same (seen before.now.moment) (seen now.now.moment) cell }
{
    let old = &before.moment;
    let new = &now.moment;
    match cell {
        Cell::Line(p) => same_line(old.line(p), new.line(p)),
        Cell::Runs(p) => runs_same(old, new, p),
        Cell::Thread(s, t) => thread_same(before, now, s, t),
        Cell::Where(a) => places_same(old, new, a),
        Cell::Locks(a) => locks_none(old, new, a),
        Cell::Hand(a) => hands_none(old, new, a),
        _ => false,
    }
}

fn same_flag(a: bool, b: bool) -> bool
    ensures { result ≡ same_flag a b }
{
    if a { b } else { !b }
}

fn same_line(a: Option<u64>, b: Option<u64>) -> bool
    ensures { result ≡ same_line a b }
{
    match (a, b) {
        (None, None) => true,
        (Some(m), Some(n)) => m == n,
        _ => false,
    }
}

fn same_thread(a: Option<ThreadNo>, b: Option<ThreadNo>) -> bool
    ensures { result ≡ same_thread a b }
{
    match (a, b) {
        (None, None) => true,
        (Some(t), Some(u)) => t.0 == u.0,
        _ => false,
    }
}

// The same runs on the processor.
fn runs_same(old: &Moment, new: &Moment, p: ProcNo) -> bool
    ensures { result ≡ runs_same (seen old.now).readings (seen new.now).readings p }
{
    lives_same(old, new, p) && same_thread(old.carried(p), new.carried(p))
}

fn lives_same(old: &Moment, new: &Moment, p: ProcNo) -> bool
    ensures { result ≡ both_if same_run (life_on (seen old.now).readings p) (life_on (seen new.now).readings p) }
{
    match old.life_on(p) {
        None => false,
        Some(x) => match new.life_on(p) {
            None => false,
            Some(y) => same_run(x, y),
        },
    }
}

fn same_run(x: &KeptLife, y: &KeptLife) -> bool
    ensures { result ≡ same_run x.now y.now }
{
    same_flag(x.cont(), y.cont()) && x.scans() == y.scans()
}

// The life of this number runs at both moments, on one processor.
fn places_same(old: &Moment, new: &Moment, a: ActNo) -> bool
    ensures { let r = (seen old.now).readings in let q = (seen new.now).readings in
        result ≡ same_at (same_place r q a) r q a }
{
    match old.life(a) {
        None => false,
        Some(x) => match new.life(a) {
            None => false,
            Some(y) => same_place(old, new, a, x, y),
        },
    }
}

fn same_place(old: &Moment, new: &Moment, a: ActNo, x: &KeptLife, y: &KeptLife) -> bool
    ensures { result ≡ same_place (seen old.now).readings (seen new.now).readings a x.now y.now }
{
    x.space().0 == y.space().0
        && (x.proc().0 == y.proc().0 && (is_on(old, a, x) && is_on(new, a, y)))
}

// The life of this number has no lock at either moment.
fn locks_none(old: &Moment, new: &Moment, a: ActNo) -> bool
    ensures { result ≡ same_at no_lock (seen old.now).readings (seen new.now).readings a }
{
    match old.life(a) {
        None => false,
        Some(x) => match new.life(a) {
            None => false,
            Some(y) => no_lock(x, y),
        },
    }
}

fn no_lock(x: &KeptLife, y: &KeptLife) -> bool
    ensures { result ≡ no_lock x.now y.now }
{
    !x.has_lock() && !y.has_lock()
}

// The life of this number has nothing in hand at either moment.
fn hands_none(old: &Moment, new: &Moment, a: ActNo) -> bool
    ensures { result ≡ same_at no_hand (seen old.now).readings (seen new.now).readings a }
{
    match old.life(a) {
        None => false,
        Some(x) => match new.life(a) {
            None => false,
            Some(y) => no_hand(x, y),
        },
    }
}

fn no_hand(x: &KeptLife, y: &KeptLife) -> bool
    ensures { result ≡ no_hand x.now y.now }
{
    x.hand().is_empty() && y.hand().is_empty()
}

// The thread stands as before, and waits for the same, if it waits.
fn thread_same(before: &View, now: &View, s: SpaceNo, t: ThreadNo) -> bool
    ensures { let m = seen before.now.moment in
        result ≡ thread_same m.workload m.readings.state (seen now.now.moment).readings.state s t }
{
    if s.0 < before.replay.spaces() && s.0 < now.replay.spaces() {
        has_made(&before.moment, s, t)
            && (has_made(&now.moment, s, t) && made_same(before, now, s, t))
    } else {
        false
    }
}

fn has_made(moment: &Moment, s: SpaceNo, t: ThreadNo) -> bool
    ensures { result ≡ has_made (seen moment.now).readings.state s t }
{
    t.0 < moment.made(s)
}

fn made_same(before: &View, now: &View, s: SpaceNo, t: ThreadNo) -> bool
    requires before { s.0 < length (seen before.now.moment).readings.state.spaces }
    requires now { s.0 < length (seen now.now.moment).readings.state.spaces }
    ensures { let m = seen before.now.moment in
        result ≡ made_same m.workload m.readings.state (seen now.now.moment).readings.state s t }
{
    let x = before.moment.thread(s, t);
    let y = now.moment.thread(s, t);
    same_standing(&x, &y) && same_wait(before, now, s, t, x.pc())
}

fn same_standing(x: &ThreadState, y: &ThreadState) -> bool
    ensures { result ≡ same_standing x.now y.now }
{
    x.program() == y.program() && (x.pc() == y.pc() && same_where(x.place(), y.place()))
}

fn same_where(a: Place, b: Place) -> bool
    ensures { result ≡ same_where a b }
{
    match (a, b) {
        (Place::Running(p), Place::Running(q)) => p.0 == q.0,
        (Place::Ready, Place::Ready) => true,
        (Place::Blocked, Place::Blocked) => true,
        (Place::Waiting, Place::Waiting) => true,
        (Place::Carried, Place::Carried) => true,
        (Place::Done, Place::Done) => true,
        _ => false,
    }
}

fn same_wait(before: &View, now: &View, s: SpaceNo, t: ThreadNo, pc: u16) -> bool
    requires before { s.0 < length (seen before.now.moment).readings.state.spaces }
    requires now { s.0 < length (seen now.now.moment).readings.state.spaces }
    ensures { let m = seen before.now.moment in
        result ≡ same_wait m.workload m.readings.state (seen now.now.moment).readings.state s t pc }
{
    if waits(before, s, t) {
        let instr = before.moment.instr_of(s, t, pc.saturating_sub(1));
        waits(now, s, t) && same_awaited(before.replay.sync(s), now.replay.sync(s), instr)
    } else {
        !waits(now, s, t)
    }
}

// What the instruction waits for is held by the same thread.
fn same_awaited(x: &SyncState, y: &SyncState, instr: Instr) -> bool
    ensures { result ≡ same_awaited x.now y.now instr }
{
    match instr {
        Instr::Lock(m) => same_holder(holder_of(x, m), holder_of(y, m)),
        _ => true,
    }
}

fn same_holder(a: Option<ThreadNo>, b: Option<ThreadNo>) -> bool
    ensures { result ≡ same_line (option_map (λ (t : ThreadNo). t.0) a) (option_map (λ (t : ThreadNo). t.0) b) }
{
    match (a, b) {
        (None, None) => true,
        (Some(t), Some(u)) => t.0 == u.0,
        _ => false,
    }
}

// The cell is that of a lock that nobody has at either moment.
fn is_free(old: &Moment, new: &Moment, cell: Cell) -> bool
    ensures { (ups : List ActNo) → result ≡ true
        → text_of ups (seen old.now) cell ≡ text_of ups (seen new.now) cell }
{
    match cell {
        Cell::Holder(s, l) => nobody_has(old, new, s, l),
        _ => false,
    }
}

fn nobody_has(old: &Moment, new: &Moment, s: SpaceNo, l: ProcNo) -> bool
    ensures { (ups : List ActNo) → result ≡ true
        → holder_text (seen old.now).readings ups s l ≡ holder_text (seen new.now).readings ups s l }
{
    if old.is_locked(s, l) {
        return false;
    }
    !new.is_locked(s, l)
}
