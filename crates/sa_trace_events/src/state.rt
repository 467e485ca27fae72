// What the tracks show: the state of each after an item.
ghost use Rattle.std.specs.Prelude.{◌≡◌};
ghost use Rattle.sa_shapes.specs.Change.{is_aimed, is_space, with_aim};
ghost use Rattle.sa_trace_events.specs.State.{act_after, context_after, same_space, same_act, same_context, is_thread, is_thread_of, left, at_list, own_or_left, doing_by, same_doing, held, holder_by, same_holder, more_if, less_if, demand_by, aimed_to, aimed_by, owned_by, ready_by, told_by, untold_by, tally_by};

use crate::track::{Count, Level};
use sa_base::{ActNo, IoNo, Item, Note, ProcNo, Record, SpaceNo, ThreadNo};
use sa_shapes::{Look, MAX_LANES};

/// What is on a processor.
#[derive(Clone, Copy)]
pub struct Context {
    /// What it does, and for which space.
    pub look: Look,
    /// The activation that runs there.
    pub act: Option<ActNo>,
}

/// What a thread does.
#[derive(Clone, Copy)]
pub enum Doing {
    /// No record has named it.
    Unseen,
    /// It is in a ready list.
    Ready,
    /// It runs on this processor.
    Runs(ProcNo),
    /// Its section goes on in its copy, on this processor.
    Section(ProcNo),
    /// An interrupt stopped it.
    Stopped,
    /// It waits for this I/O.
    Blocked(IoNo),
    /// Its I/O is over, and it is in no list yet.
    Returned,
    /// A handler has it, whose section is over.
    Hand,
    /// It waits for another thread, or is done.
    Away,
}

/// Who holds a lock, and on which processor it was taken.
#[derive(Clone, Copy)]
pub enum Holder {
    Nobody,
    Handler(ProcNo),
    Thread(ProcNo, ThreadNo),
}

/// A count of a space.
#[derive(Clone, Copy)]
pub struct Tally {
    pub n: u64,
    /// Whether the last upcall was one of the space.
    pub told: bool,
    /// For each processor, from 0 on, whether it is aimed at the space.
    pub aims: [bool; MAX_LANES],
}

impl Context {
    /// What is on the processor after the item.
    pub(crate) fn after(self, p: ProcNo, item: &Item) -> Context
        ensures { result ≡ context_after p self item.now }
    {
        if item.proc.0 == p.0 {
            Context {
                look: self.look.after(&item.what),
                act: act_after(self.act, &item.what),
            }
        } else {
            self
        }
    }

    /// The kind of slices shows the same.
    pub(crate) fn is_same(self, level: Level, other: Context) -> bool
        ensures { result ≡ same_context level self other }
    {
        let owner = same_space(self.look.owner(), other.look.owner());
        let act = same_act(self.act, other.act);
        match level {
            Level::Owner => owner,
            Level::Activation => owner && act,
            Level::Work => owner && act && self.look.is_same(other.look),
        }
    }
}

fn act_after(act: Option<ActNo>, what: &Record) -> Option<ActNo>
    ensures { result ≡ act_after act what.now }
{
    match *what {
        Record::Up(_, a) => Some(a),
        Record::Stop(..) | Record::Block(..) | Record::Move(..) | Record::Tick => None,
        _ => act,
    }
}

fn same_space(a: Option<SpaceNo>, b: Option<SpaceNo>) -> bool
    ensures { result ≡ same_space a b }
{
    match (a, b) {
        (None, None) => true,
        (Some(s), Some(u)) => s.0 == u.0,
        _ => false,
    }
}

fn same_act(a: Option<ActNo>, b: Option<ActNo>) -> bool
    ensures { result ≡ same_act a b }
{
    match (a, b) {
        (None, None) => true,
        (Some(a), Some(b)) => a.0 == b.0,
        _ => false,
    }
}

/// It is this thread that is named.
pub(crate) fn is_thread(s: SpaceNo, t: ThreadNo, u: SpaceNo, v: ThreadNo) -> bool
    ensures { result ≡ is_thread s t u v }
{
    u.0 == s.0 && v.0 == t.0
}

pub(crate) fn is_thread_of(s: SpaceNo, t: ThreadNo, u: SpaceNo, v: Option<ThreadNo>) -> bool
    ensures { result ≡ is_thread_of s t u v }
{
    match v {
        None => false,
        Some(v) => is_thread(s, t, u, v),
    }
}

impl Doing {
    // What the thread does after the processor did something for another one, or for none.
    fn left(self, p: ProcNo) -> Doing
        ensures { result ≡ left p self }
    {
        match self {
            Doing::Runs(q) => { if q.0 == p.0 { Doing::Away } else { self } }
            Doing::Section(q) => { if q.0 == p.0 { Doing::Away } else { self } }
            _ => self,
        }
    }

    // What it does at a list.
    fn at_list(self, p: ProcNo) -> Doing
        ensures { result ≡ at_list p self }
    {
        match self {
            Doing::Section(q) => Doing::Section(q),
            _ => Doing::Runs(p),
        }
    }

    fn own_or_left(self, own: bool, p: ProcNo, next: Doing) -> Doing
        ensures { result ≡ own_or_left own p next self }
    {
        if own { next } else { self.left(p) }
    }

    /// What the thread does after a record of a turn of the processor.
    pub(crate) fn after(self, s: SpaceNo, t: ThreadNo, p: ProcNo, what: &Record) -> Doing
        ensures { result ≡ doing_by s t p self what.now }
    {
        match *what {
            Record::Ins(u, v, _) => self.own_or_left(is_thread(s, t, u, v), p, Doing::Runs(p)),
            Record::Out(u, v, _) => self.own_or_left(is_thread(s, t, u, v), p, Doing::Runs(p)),
            Record::Run(u, v) => self.own_or_left(is_thread(s, t, u, v), p, Doing::Runs(p)),
            Record::Ready(u, v) => {
                if is_thread(s, t, u, v) {
                    Doing::Ready
                } else {
                    self
                }
            }
            Record::Stop(u, v, _) => self.own_or_left(is_thread_of(s, t, u, v), p, Doing::Stopped),
            Record::Block(u, v, _, io) => {
                self.own_or_left(is_thread_of(s, t, u, v), p, Doing::Blocked(io))
            }
            Record::Unblock(u, v, _) => {
                if is_thread_of(s, t, u, v) {
                    Doing::Returned
                } else {
                    self
                }
            }
            Record::Cont(u, v) => self.own_or_left(is_thread_of(s, t, u, v), p, Doing::Section(p)),
            Record::Back(u, v) => self.own_or_left(is_thread_of(s, t, u, v), p, Doing::Hand),
            Record::Take(u, _, v) => {
                self.own_or_left(is_thread_of(s, t, u, v), p, self.at_list(p))
            }
            Record::Free(u, _, v) => {
                self.own_or_left(is_thread_of(s, t, u, v), p, self.at_list(p))
            }
            Record::Up(..) | Record::Idle => self.left(p),
            _ => self,
        }
    }

    /// The same is shown.
    pub(crate) fn is_same(self, other: Doing) -> bool
        ensures { result ≡ same_doing self other }
    {
        match (self, other) {
            (Doing::Unseen, Doing::Unseen) => true,
            (Doing::Ready, Doing::Ready) => true,
            (Doing::Runs(p), Doing::Runs(q)) => p.0 == q.0,
            (Doing::Section(p), Doing::Section(q)) => p.0 == q.0,
            (Doing::Stopped, Doing::Stopped) => true,
            (Doing::Blocked(a), Doing::Blocked(b)) => a.0 == b.0,
            (Doing::Returned, Doing::Returned) => true,
            (Doing::Hand, Doing::Hand) => true,
            (Doing::Away, Doing::Away) => true,
            _ => false,
        }
    }
}

// The lock is held for this thread, or for none.
fn held(p: ProcNo, t: Option<ThreadNo>) -> Holder
    ensures { result ≡ held p t }
{
    match t {
        None => Holder::Handler(p),
        Some(t) => Holder::Thread(p, t),
    }
}

impl Holder {
    /// Who holds the lock of this list after a record of a turn of the processor.
    pub(crate) fn after(self, s: SpaceNo, l: ProcNo, p: ProcNo, what: &Record) -> Holder
        ensures { result ≡ holder_by s l p self what.now }
    {
        match *what {
            Record::Take(u, m, t) => {
                if u.0 == s.0 && m.0 == l.0 {
                    held(p, t)
                } else {
                    self
                }
            }
            Record::Free(u, m, _) => {
                if u.0 == s.0 && m.0 == l.0 {
                    Holder::Nobody
                } else {
                    self
                }
            }
            _ => self,
        }
    }

    /// The same is shown.
    pub(crate) fn is_same(self, other: Holder) -> bool
        ensures { result ≡ same_holder self other }
    {
        match (self, other) {
            (Holder::Nobody, Holder::Nobody) => true,
            (Holder::Handler(p), Holder::Handler(q)) => p.0 == q.0,
            (Holder::Thread(p, t), Holder::Thread(q, u)) => p.0 == q.0 && t.0 == u.0,
            _ => false,
        }
    }
}

// The space is this one.
fn is_space(s: SpaceNo, u: Option<SpaceNo>) -> bool
    ensures { result ≡ is_space s u }
{
    match u {
        None => false,
        Some(u) => u.0 == s.0,
    }
}

// The processor is among those that are aimed.
fn is_aimed(aims: &[bool; MAX_LANES], p: ProcNo) -> bool
    ensures { result ≡ is_aimed aims.now p }
{
    let p = usize::from(p.0);
    if p < MAX_LANES { aims[p] } else { false }
}

// These, and the processor among them or not.
fn with_aim(mut aims: [bool; MAX_LANES], p: ProcNo, now: bool) -> [bool; MAX_LANES]
    ensures { result ≡ with_aim aims p now }
{
    let p = usize::from(p.0);
    if p < MAX_LANES {
        aims[p] = now;
    }
    aims
}

impl Tally {
    fn more_if(self, is_more: bool) -> Tally
        ensures { result ≡ more_if is_more self }
    {
        if is_more {
            Tally {
                n: self.n.saturating_add(1),
                ..self
            }
        } else {
            self
        }
    }

    fn less_if(self, is_less: bool) -> Tally
        ensures { result ≡ less_if is_less self }
    {
        if is_less {
            Tally {
                n: self.n.saturating_sub(1),
                ..self
            }
        } else {
            self
        }
    }

    fn demand_after(self, s: SpaceNo, what: &Record) -> Tally
        ensures { result ≡ demand_by s self what.now }
    {
        match *what {
            Record::Want(u, n) => {
                if u.0 == s.0 {
                    Tally {
                        n: u64::from(n),
                        ..self
                    }
                } else {
                    self
                }
            }
            _ => self,
        }
    }

    // The count after the processor's aim may have changed from that of the other.
    fn aimed_from(self, p: ProcNo, old: Tally) -> Tally
        ensures { result ≡ aimed_to p old self }
    {
        let was = is_aimed(&old.aims, p);
        let is = is_aimed(&self.aims, p);
        self.less_if(was && !is).more_if(is && !was)
    }

    fn aimed_after(self, s: SpaceNo, what: &Record) -> Tally
        ensures { result ≡ aimed_by s self what.now }
    {
        match *what {
            Record::Aim(p, u) => {
                let next = Tally {
                    aims: with_aim(self.aims, p, is_space(s, u)),
                    ..self
                };
                next.aimed_from(p, self)
            }
            _ => self,
        }
    }

    fn owned_after(self, s: SpaceNo, what: &Record) -> Tally
        ensures { result ≡ owned_by s self what.now }
    {
        match *what {
            Record::Move(o, n) => self.less_if(is_space(s, o)).more_if(is_space(s, n)),
            _ => self,
        }
    }

    fn ready_after(self, s: SpaceNo, what: &Record) -> Tally
        ensures { result ≡ ready_by s self what.now }
    {
        match *what {
            Record::Ready(u, _) => self.more_if(u.0 == s.0),
            Record::Run(u, _) => self.less_if(u.0 == s.0),
            _ => self,
        }
    }

    fn told_after(self, note: Note) -> Tally
        ensures { result ≡ told_by self note }
    {
        match note {
            Note::Add(_) => self,
            _ => self.less_if(self.told),
        }
    }

    fn untold_after(self, s: SpaceNo, what: &Record) -> Tally
        ensures { result ≡ untold_by s self what.now }
    {
        match *what {
            Record::Up(u, _) => Tally {
                told: u.0 == s.0,
                ..self
            },
            Record::Stop(u, _, _) | Record::Unblock(u, _, _) => self.more_if(u.0 == s.0),
            Record::Block(u, _, _, _) => self.more_if(u.0 == s.0),
            Record::Told(note) => self.told_after(note),
            _ => self,
        }
    }

    /// The count of the space after a record.
    pub(crate) fn after(self, s: SpaceNo, count: Count, what: &Record) -> Tally
        ensures { result ≡ tally_by s count self what.now }
    {
        match count {
            Count::Demand => self.demand_after(s, what),
            Count::Aimed => self.aimed_after(s, what),
            Count::Owned => self.owned_after(s, what),
            Count::Ready => self.ready_after(s, what),
            Count::Untold => self.untold_after(s, what),
        }
    }
}
