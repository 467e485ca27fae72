// The slices of a track.
ghost use Rattle.std.specs.Prelude.{◌≡◌};
ghost use Rattle.sa_trace_events.specs.Slices.{level_of, shown_context, is_work, shown_doing, shown_holder, start, after, same_state, is_shown, is_block, is_free, slice_begun, going_by};

use crate::state::{Context, Doing, Holder, Tally};
use crate::track::{Level, Track};
use sa_base::{Item, Record};
use sa_shapes::{Look, MAX_LANES};

/// What a track shows, and what it needs to go on.
#[derive(Clone, Copy)]
pub enum State {
    Context(Context),
    Doing(Doing),
    Holder(Holder),
    Tally(Tally),
}

/// A part of a track along which it shows one thing.
#[derive(Clone, Copy)]
pub struct Slice {
    pub track: Track,
    /// Its first event, and the one after its last.
    pub from: u64,
    pub to: u64,
    /// The state that it shows.
    pub shown: State,
    /// The index of the item with which the track began to show this, and the index after the last before it showed another thing.
    pub first: usize,
    pub last: usize,
}

/// A slice that goes on.
#[derive(Clone, Copy)]
pub struct Going {
    /// The event from which on it is shown, and the one at which the track is.
    pub from: u64,
    pub clock: u64,
    /// What is shown, and the state now, which shows the same.
    pub shown: State,
    pub state: State,
    /// The index of the item with which it began.
    pub first: usize,
}

/// The events of a trace: the first, and the one after the last.
#[derive(Clone, Copy)]
pub struct Span {
    pub begin: u64,
    pub end: u64,
}

impl Context {
    // The kind of slices shows something.
    fn is_shown(self, level: Level) -> bool
        ensures { result ≡ shown_context level self }
    {
        let owned = self.look.owner().is_some();
        match level {
            Level::Owner => owned,
            Level::Activation => owned && self.act.is_some(),
            Level::Work => owned && is_work(self.look),
        }
    }
}

// Something runs.
fn is_work(look: Look) -> bool
    ensures { result ≡ is_work look }
{
    match look {
        Look::Unowned | Look::Placed(_) => false,
        _ => true,
    }
}

impl Doing {
    fn is_shown(self) -> bool
        ensures { result ≡ shown_doing self }
    {
        match self {
            Doing::Unseen => false,
            _ => true,
        }
    }
}

impl Holder {
    fn is_shown(self) -> bool
        ensures { result ≡ shown_holder self }
    {
        match self {
            Holder::Nobody => false,
            _ => true,
        }
    }
}

impl Track {
    /// The kind of slices of a processor.
    pub(crate) fn level(self) -> Level
        ensures { result ≡ level_of self }
    {
        match self {
            Track::Processor(_, level) => level,
            _ => Level::Work,
        }
    }

    // The state before the first item.
    fn start(self) -> State
        ensures { result ≡ start self }
    {
        match self {
            Track::Processor(_, _) => State::Context(Context {
                look: Look::Unowned,
                act: None,
            }),
            Track::Thread(_, _) => State::Doing(Doing::Unseen),
            Track::Lock(_, _) => State::Holder(Holder::Nobody),
            Track::Count(_, _) => State::Tally(Tally {
                n: 0,
                told: false,
                aims: [false; MAX_LANES],
            }),
        }
    }

    /// The state after an item.
    pub(crate) fn after(self, state: State, item: &Item) -> State
        ensures { result ≡ after self state item.now }
    {
        match (self, state) {
            (Track::Processor(p, _), State::Context(context)) => {
                State::Context(context.after(p, item))
            }
            (Track::Thread(s, t), State::Doing(doing)) => {
                State::Doing(doing.after(s, t, item.proc, &item.what))
            }
            (Track::Lock(s, l), State::Holder(holder)) => {
                State::Holder(holder.after(s, l, item.proc, &item.what))
            }
            (Track::Count(s, count), State::Tally(tally)) => {
                State::Tally(tally.after(s, count, &item.what))
            }
            _ => state,
        }
    }

    /// Both states show the same.
    pub(crate) fn is_same(self, a: State, b: State) -> bool
        ensures { result ≡ same_state self a b }
    {
        match (a, b) {
            (State::Context(a), State::Context(b)) => a.is_same(self.level(), b),
            (State::Doing(a), State::Doing(b)) => a.is_same(b),
            (State::Holder(a), State::Holder(b)) => a.is_same(b),
            (State::Tally(a), State::Tally(b)) => a.n == b.n,
            _ => true,
        }
    }

    /// The state shows something.
    pub(crate) fn is_shown(self, state: State) -> bool
        ensures { result ≡ is_shown self state }
    {
        match state {
            State::Context(context) => context.is_shown(self.level()),
            State::Doing(doing) => doing.is_shown(),
            State::Holder(holder) => holder.is_shown(),
            State::Tally(tally) => 0 < tally.n,
        }
    }
}

/// A block.
pub(crate) fn is_block(what: &Record) -> bool
    ensures { result ≡ is_block what.now }
{
    match *what {
        Record::Block(..) => true,
        _ => false,
    }
}

/// That a lock is freed.
pub(crate) fn is_free(what: &Record) -> bool
    ensures { result ≡ is_free what.now }
{
    match *what {
        Record::Free(..) => true,
        _ => false,
    }
}

impl Going {
    /// Before the first item.
    pub(crate) fn slice_begun(track: Track, begin: u64) -> Going
        ensures { result ≡ slice_begun track begin }
    {
        Going {
            from: begin,
            clock: begin,
            shown: track.start(),
            state: track.start(),
            first: 0,
        }
    }

    /// What goes on after the item of this index, which leaves this state.
    pub(crate) fn moved(self, same: bool, next: State, clock: u64, k: usize) -> Going
        ensures { result ≡ going_by same self next clock k }
    {
        if same {
            Going {
                clock,
                state: next,
                ..self
            }
        } else {
            Going {
                from: clock,
                clock,
                shown: next,
                state: next,
                first: k,
            }
        }
    }
}
