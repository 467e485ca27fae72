// The items that touch a track: those that may change it. One pass finds those of all tracks of a kind, and each track goes over its own alone.
ghost use Rattle.std.specs.Prelude.{◌≡◌, ◌<◌, [], IfOk, OnOk, length, map, replicate};
ghost use Rattle.sa_lemmas.specs.Function.{put};
ghost use Rattle.sa_trace_events.specs.Touches.{number_if, is_number, count_in, lock_in, among, thread_in, number_by, clears, on_at, on_after, other_than, left_by, are_locks, over_after, since_in, pushed, both_pushed, touches_at, IsIndexOf};

use crate::slices::{is_block, is_free};
use crate::track::Count;
use sa_base::{Item, ProcNo, Record, SpaceNo, ThreadNo};
use std::alloc::{AllocError, Global};

/// Tracks of one kind: each has a number.
#[derive(Clone, Copy)]
pub enum Group {
    /// The processors, each with all its slices.
    Lanes,
    /// What is counted of a space.
    Counts(SpaceNo),
    /// The locks of its ready lists.
    Locks(SpaceNo),
    /// Its threads.
    Threads(SpaceNo),
}

/// An item that touches a track.
#[derive(Clone, Copy)]
pub struct Touch {
    /// Its index.
    pub at: usize,
    /// The event at which the track is after it.
    pub clock: u64,
    pub item: Item,
}

/// The items that touch the tracks of a kind.
#[derive(Drop)]
pub struct Index {
    /// By the numbers of the tracks.
    pub lists: Vec<Vec<Touch>>,
    /// The event at which the tracks are after all items.
    pub clock: u64,
}

// The number, if this is so.
fn number_if(is: bool, n: usize) -> Option<usize>
    ensures { result ≡ number_if is n }
{
    if is { Some(n) } else { None }
}

fn is_number(n: usize, number: Option<usize>) -> bool
    ensures { result ≡ is_number n number }
{
    match number {
        None => false,
        Some(m) => m == n,
    }
}

// The count of the space that the record changes.
fn count_in(s: SpaceNo, what: &Record) -> Option<usize>
    ensures { result ≡ count_in s what.now }
{
    match *what {
        Record::Want(u, _) => number_if(u.0 == s.0, Count::Demand.number()),
        Record::Aim(..) => Some(Count::Aimed.number()),
        Record::Move(..) => Some(Count::Owned.number()),
        Record::Ready(u, _) | Record::Run(u, _) => number_if(u.0 == s.0, Count::Ready.number()),
        Record::Stop(u, _, _) | Record::Unblock(u, _, _) => {
            number_if(u.0 == s.0, Count::Untold.number())
        }
        Record::Block(u, _, _, _) => number_if(u.0 == s.0, Count::Untold.number()),
        Record::Up(..) | Record::Told(_) => Some(Count::Untold.number()),
        _ => None,
    }
}

// The lock of the space that the record takes or frees.
fn lock_in(s: SpaceNo, what: &Record) -> Option<usize>
    ensures { result ≡ lock_in s what.now }
{
    match *what {
        Record::Take(u, l, _) | Record::Free(u, l, _) => { number_if(u.0 == s.0, usize::from(l.0)) }
        _ => None,
    }
}

fn among(s: SpaceNo, u: SpaceNo, t: Option<ThreadNo>) -> Option<usize>
    ensures { result ≡ among s u t }
{
    match t {
        None => None,
        Some(t) => number_if(u.0 == s.0, usize::from(t.0)),
    }
}

// The thread of the space that the record names.
fn thread_in(s: SpaceNo, what: &Record) -> Option<usize>
    ensures { result ≡ thread_in s what.now }
{
    match *what {
        Record::Ins(u, t, _) => among(s, u, Some(t)),
        Record::Out(u, t, _) => among(s, u, Some(t)),
        Record::Run(u, t) | Record::Ready(u, t) => among(s, u, Some(t)),
        Record::Stop(u, t, _) | Record::Unblock(u, t, _) => among(s, u, t),
        Record::Block(u, t, _, _) => among(s, u, t),
        Record::Cont(u, t) | Record::Back(u, t) => among(s, u, t),
        Record::Take(u, _, t) | Record::Free(u, _, t) => among(s, u, t),
        _ => None,
    }
}

// After the record no thread but the one that it names runs on its processor.
fn clears(what: &Record) -> bool
    ensures { result ≡ clears what.now }
{
    match *what {
        Record::Ins(..) | Record::Out(..) | Record::Run(..) => true,
        Record::Stop(..) | Record::Block(..) => true,
        Record::Cont(..) | Record::Back(..) => true,
        Record::Take(..) | Record::Free(..) => true,
        Record::Up(..) | Record::Idle => true,
        _ => false,
    }
}

// The number, unless it is the other one.
fn other_than(number: Option<usize>, was: Option<usize>) -> Option<usize>
    ensures { result ≡ other_than number was }
{
    match was {
        None => None,
        Some(m) => { if is_number(m, number) { None } else { Some(m) } }
    }
}

impl Group {
    // The number of the track that the item changes.
    fn number(self, item: &Item) -> Option<usize>
        ensures { result ≡ number_by self item.now }
    {
        match self {
            Group::Lanes => Some(usize::from(item.proc.0)),
            Group::Counts(s) => count_in(s, &item.what),
            Group::Locks(s) => lock_in(s, &item.what),
            Group::Threads(s) => thread_in(s, &item.what),
        }
    }

    // The thread that the record stops from running and does not name.
    fn left(self, number: Option<usize>, was: Option<usize>, what: &Record) -> Option<usize>
        ensures { result ≡ left_by self number was what.now }
    {
        match self {
            Group::Threads(_) => {
                if clears(what) {
                    other_than(number, was)
                } else {
                    None
                }
            }
            _ => None,
        }
    }

    fn are_locks(self) -> bool
        ensures { result ≡ are_locks self }
    {
        match self {
            Group::Locks(_) => true,
            _ => false,
        }
    }

    // What the item ends is shown at its event too: a block, and of a lock that it is freed.
    fn over_after(self, what: &Record) -> bool
        ensures { result ≡ over_after self what.now }
    {
        is_block(what) || (self.are_locks() && is_free(what))
    }

    // The event from which on the tracks show what the item makes them show.
    fn since(self, item: &Item) -> u64
        ensures { result ≡ since_in self item.now }
    {
        if self.over_after(&item.what) {
            item.event.saturating_add(1)
        } else {
            item.event
        }
    }
}

// The number that the last record named that cleared the processor.
fn on_at(on: &[Option<usize>], p: ProcNo) -> Option<usize>
    ensures { result ≡ on_at on.now p.0 }
{
    match on.get(usize::from(p.0)) {
        None => None,
        Some(number) => *number,
    }
}

// Makes room up to the processor, if there is none yet.
fn reach(on: &mut Vec<Option<usize>>, p: ProcNo) -> Result<(), AllocError>
    ensures room { OnOk result (p.0 < length on.new.items) }
    ensures same { OnOk result (on_at on.new.items ≡ on_at on.old.items) }
{
    let len = usize::from(p.0) + 1;
    if on.len() < len {
        return on.resize(len, None);
    }
    Ok(())
}

// Puts a number in the place of a processor.
fn put(on: &mut Vec<Option<usize>>, p: ProcNo, number: Option<usize>) -> Result<(), AllocError>
    ensures { OnOk result (on_at on.new.items ≡ put (on_at on.old.items) p.0 number) }
{
    reach(on, p)?;
    on[usize::from(p.0)] = number;
    Ok(())
}

// Puts the touch into the list of this number, if there is one.
fn push(lists: &mut Vec<Vec<Touch>>, number: Option<usize>, touch: Touch) -> Result<(), AllocError>
    ensures { OnOk result (map (λ v. v.items) lists.new.items ≡ pushed number touch (map (λ v. v.items) lists.old.items)) }
{
    if let Some(n) = number
        && n < lists.len()
    {
        lists[n].push(touch)?;
    }
    Ok(())
}

// Puts the item into the lists of the tracks that it touches.
fn push_both(
    lists: &mut Vec<Vec<Touch>>,
    on: &mut Vec<Option<usize>>,
    group: Group,
    touch: Touch,
) -> Result<(), AllocError>
    ensures lists { OnOk result (map (λ v. v.items) lists.new.items
        ≡ both_pushed group (on_at on.old.items) touch (map (λ v. v.items) lists.old.items)) }
    ensures on { OnOk result (on_at on.new.items ≡ on_after group (on_at on.old.items) touch.item) }
{
    let item = touch.item;
    let number = group.number(&item);
    let left = group.left(number, on_at(on, item.proc), &item.what);
    push(lists, number, touch)?;
    push(lists, left, touch)?;
    if clears(&item.what) {
        return put(on, item.proc, number);
    }
    Ok(())
}

fn empty_lists(alloc: Global, count: usize) -> Result<Vec<Vec<Touch>>, AllocError>
    ensures { IfOk result (λ lists. map (λ v. v.items) lists.items ≡ replicate count []) }
{
    let mut lists = Vec::new(alloc);
    for _ in 0..count {
        lists.push(Vec::new(alloc))?;
    }
    Ok(lists)
}

/// Finds the items that touch the tracks of a kind, from number 0 up to this count.
pub(crate) fn index_of(
    alloc: Global,
    group: Group,
    begin: u64,
    count: usize,
    items: &[Item],
) -> Result<Index, AllocError>
    ensures index { IfOk result (IsIndexOf group begin items.now) }
    ensures count { IfOk result (λ index. length index.lists.items ≡ count) }
{
    let mut lists = empty_lists(alloc, count)?;
    let mut on = Vec::new(alloc);
    let mut clock = begin;
    for (at, item) in items.iter().enumerate() {
        clock = clock.max(group.since(item));
        let touch = Touch {
            at,
            clock,
            item: *item,
        };
        push_both(&mut lists, &mut on, group, touch)?;
    }
    Ok(Index { lists, clock })
}

impl Index {
    /// Those that touch the track of this number.
    pub(crate) fn at(&self, n: usize) -> &[Touch]
        ensures { result.now ≡ touches_at self.now n }
    {
        match self.lists.get(n) {
            None => &[],
            Some(touches) => touches.as_slice(),
        }
    }
}

/// The items alone.
pub(crate) fn items_of(alloc: Global, touches: &[Touch]) -> Result<Vec<Item>, AllocError>
    ensures { IfOk result (λ own. own.items ≡ map (λ e. e.item) touches.now) }
{
    let mut own = Vec::new(alloc);
    for touch in touches {
        own.push(touch.item)?;
    }
    Ok(own)
}
