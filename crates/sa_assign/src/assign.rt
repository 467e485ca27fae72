ghost use Rattle.std.specs.Prelude.{◌≡◌, ℕ, ◌+◌, ◌*◌, ◌≤◌, ◌<◌, ◌++◌, length, replicate, false, None, Some, slice_index_or, slice_set};
ghost use Rattle.sa_share.specs.Share.{IsFirst, share_at};
ghost use Rattle.sa_share.specs.Rounds.{shares_of};

use crate::aims::{aimed, choice, have_shares};
use arrayvec::ArrayVec;
use sa_base::{Item, ProcNo, Record, SpaceNo, Trace};
use sa_share::{Claim, MAX_PROCESSORS, MAX_SPACES, shares};
use std::marker::Model;

// How many processors there are at most, as a length.
const PLACES: usize = MAX_PROCESSORS as usize;

/// The most items that new aims say: an aim and its line of each processor.
pub const AIM_ITEMS: usize = 2 * PLACES;

/// Of each processor: the space that owns it, its aim, its interrupt line and its idle mark. The owner
/// is the space whose activation runs there; the aim is the space that the policy gave it to; a raised
/// line asks for an interrupt. No call can fail for want of memory.
#[derive(Drop)]
pub struct Assign {
    owners: ArrayVec<Option<SpaceNo>, PLACES>,
    aims: ArrayVec<Option<SpaceNo>, PLACES>,
    lines: ArrayVec<Option<u64>, PLACES>,
    marks: ArrayVec<bool, PLACES>,
}

impl Model for Assign {
    ghost use Rattle.std.specs.Prelude.{◌≡◌, length, ◌≤◌};
    ghost use Rattle.sa_assign.specs.AssignView.{AssignView};

    ghost Value = { AssignView };

    ghost view = { λ a. record {
      owners = a.owners.items;
      aims = a.aims.items;
      lines = a.lines.items;
      marks = a.marks.items;
    } };

    ghost invariant = { λ a. (1 ≤ length a.owners.items)
        × (length a.aims.items ≡ length a.owners.items)
        × (length a.lines.items ≡ length a.owners.items)
        × (length a.marks.items ≡ length a.owners.items) };
}

impl Assign {
    ghost use Rattle.sa_assign.specs.AssignView.{AssignView};
    ghost use Rattle.sa_assign.specs.Aims.{aimed, choice, missing, changes_for};
    ghost use Rattle.sa_base.specs.Items.{items_at};
    ghost use Rattle.sa_assign.specs.Reaim.{reaimed, reaim_records, carried_out};

    /// So many processors, 1 to 16: none is owned, aimed or marked, and every line is low.
    pub fn new(processors: u16) -> Self
        requires some { 1 ≤ processors }
        requires few { processors ≤ MAX_PROCESSORS }
        ensures { let none : AssignView = record {
          owners = replicate processors None;
          aims = replicate processors None;
          lines = replicate processors None;
          marks = replicate processors false;
        } in result ≡ none }
    {
        Assign {
            owners: cells(processors, None),
            aims: cells(processors, None),
            lines: cells(processors, None),
            marks: cells(processors, false),
        }
    }

    /// The space whose activation runs on the processor.
    pub fn owner(&self, p: ProcNo) -> Option<SpaceNo>
        requires { p.0 < length self.now.owners }
        ensures { result ≡ slice_index_or self.now.owners p.0 None }
    {
        self.owners[usize::from(p.0)]
    }

    /// The space that the policy gave the processor to.
    pub fn aim(&self, p: ProcNo) -> Option<SpaceNo>
        requires { p.0 < length self.now.owners }
        ensures { result ≡ slice_index_or self.now.aims p.0 None }
    {
        self.aims[usize::from(p.0)]
    }

    /// The event that raised the processor's interrupt line, or `None` where the line is low.
    pub fn line(&self, p: ProcNo) -> Option<u64>
        requires { p.0 < length self.now.owners }
        ensures { result ≡ slice_index_or self.now.lines p.0 None }
    {
        self.lines[usize::from(p.0)]
    }

    /// Whether the processor is marked as idle.
    pub fn is_marked(&self, p: ProcNo) -> bool
        requires { p.0 < length self.now.owners }
        ensures { result ≡ slice_index_or self.now.marks p.0 false }
    {
        self.marks[usize::from(p.0)]
    }

    /// Another space owns the processor, or none.
    pub fn set_owner(&mut self, p: ProcNo, s: Option<SpaceNo>)
        requires { p.0 < length self.old.owners }
        ensures { self.new ≡ record self.old { owners = slice_set self.old.owners p.0 s } }
    {
        put(&mut self.owners, p, s);
    }

    /// The processor is given to no space.
    pub fn clear_aim(&mut self, p: ProcNo)
        requires { p.0 < length self.old.owners }
        ensures { self.new ≡ record self.old { aims = slice_set self.old.aims p.0 None } }
    {
        put(&mut self.aims, p, None);
    }

    /// Marks the processor idle, or takes the mark away.
    pub fn mark(&mut self, p: ProcNo, idle: bool)
        requires { p.0 < length self.old.owners }
        ensures { self.new ≡ record self.old { marks = slice_set self.old.marks p.0 idle } }
    {
        put(&mut self.marks, p, idle);
    }

    /// The event raises the processor's line, which is low.
    pub fn raise(&mut self, p: ProcNo, event: u64)
        requires within { p.0 < length self.old.owners }
        requires low { slice_index_or self.old.lines p.0 None ≡ None }
        ensures { self.new ≡ record self.old { lines = slice_set self.old.lines p.0 (Some event) } }
    {
        put(&mut self.lines, p, Some(event));
    }

    /// The processor's line is low from now on.
    pub fn lower(&mut self, p: ProcNo)
        requires { p.0 < length self.old.owners }
        ensures { self.new ≡ record self.old { lines = slice_set self.old.lines p.0 None } }
    {
        put(&mut self.lines, p, None);
    }

    /// Changes aims until each claim's space has at least its share of them, where the turns for the
    /// remainder begin at the space `first`. Space by space, in the order of their numbers, each missing aim
    /// is that of the lowest-numbered processor without one, else of the lowest-numbered processor that is
    /// marked idle and aimed at a space with more than its share, else of the highest-numbered processor
    /// aimed at such a space. Each change is recorded for the event and the processor of `item`, and after it
    /// the line that it raises where that was low. There are at most 16 claims; `first` is one of them, or 0
    /// where there are none.
    pub fn reaim(&mut self, claims: &[Claim], first: u16, item: Item, trace: &mut Trace)
        requires spaces { length claims.now ≤ MAX_SPACES }
        requires first { IsFirst first claims.now }
        requires room { AIM_ITEMS ≤ trace.old.spare }
        ensures assign { self.new ≡ reaimed item.event (length claims.now)
            (shares_of (length self.old.owners) first claims.now) self.old }
        ensures items { trace.new.items ≡ trace.old.items ++ items_at item.event item.proc
            (reaim_records item.event (length claims.now)
            (shares_of (length self.old.owners) first claims.now) self.old) }
        ensures met { let shares = shares_of (length self.old.owners) first claims.now in
            (s : ℕ) → s < length claims.now → share_at shares s ≤ aimed s self.new.aims }
        ensures cost { trace.old.spare ≤ trace.new.spare + AIM_ITEMS }
        ensures spare { trace.new.spare + length trace.new.items
            ≡ trace.old.spare + length trace.old.items }
    {
        let shares = shares(self.processors(), first, claims);
        if have_shares(&shares, &self.aims) {
            return;
        }
        for s in 0..claims.len() {
            self.fill(&shares, SpaceNo(s as u16), item, trace);
        }
    }

    // Aims as many processors at the space as it misses.
    fn fill(&mut self, shares: &[u16; MAX_SPACES], s: SpaceNo, item: Item, trace: &mut Trace)
        requires space { s.0 < MAX_SPACES }
        requires room { 2 * share_at shares.now s.0 ≤ trace.old.spare }
        ensures carried { (self.new, trace.new.items) ≡ carried_out item.event item.proc
            (changes_for (missing shares.now self.old.aims s.0)
            shares.now self.old.marks s.0 self.old.aims)
            (self.old, trace.old.items) }
        ensures cost { trace.old.spare ≤ trace.new.spare + 2 * share_at shares.now s.0 }
        ensures spare { trace.new.spare + length trace.new.items
            ≡ trace.old.spare + length trace.old.items }
    {
        let missing = usize::from(shares[usize::from(s.0)]).saturating_sub(self.aimed(s));
        for _ in 0..missing {
            self.aim_one(shares, s, item, trace);
        }
    }

    // Aims one processor more at the space, if one can be chosen.
    fn aim_one(&mut self, shares: &[u16; MAX_SPACES], s: SpaceNo, item: Item, trace: &mut Trace)
        requires room { 2 ≤ trace.old.spare }
        ensures carried { (self.new, trace.new.items) ≡ carried_out item.event item.proc
            (changes_for 1 shares.now self.old.marks s.0 self.old.aims)
            (self.old, trace.old.items) }
        ensures cost { trace.old.spare ≤ trace.new.spare + 2 }
        ensures spare { trace.new.spare + length trace.new.items
            ≡ trace.old.spare + length trace.old.items }
    {
        let Some(p) = choice(shares, &self.marks, &self.aims) else {
            return;
        };
        put(&mut self.aims, ProcNo(p), Some(s));
        trace.say(item.event, item.proc, Record::Aim(ProcNo(p), Some(s)));
        if self.lines[usize::from(p)].is_none() {
            put(&mut self.lines, ProcNo(p), Some(item.event));
            trace.say(item.event, item.proc, Record::Line(ProcNo(p)));
        }
    }

    /// How many processors are aimed at the space.
    pub fn aimed(&self, s: SpaceNo) -> usize
        ensures { result ≡ aimed s.0 self.now.aims }
    {
        aimed(&self.aims, s)
    }

    /// The number of processors, 1 to 16.
    pub fn processors(&self) -> u16
        ensures owners { result ≡ length self.now.owners }
        ensures aims { result ≡ length self.now.aims }
        ensures marks { result ≡ length self.now.marks }
        ensures some { 1 ≤ result }
        ensures few { result ≤ MAX_PROCESSORS }
    {
        self.owners.len() as u16
    }
}

// The same for each of that many processors.
fn cells<T: Copy + Default>(processors: u16, value: T) -> ArrayVec<T, PLACES>
    requires { processors ≤ MAX_PROCESSORS }
    ensures { result.items ≡ replicate processors value }
{
    let mut cells = ArrayVec::new();
    for _ in 0..processors {
        cells.push(value);
    }
    cells
}

// Puts the value at the processor's place.
fn put<T: Copy>(cells: &mut ArrayVec<T, PLACES>, p: ProcNo, value: T)
    requires { p.0 < length cells.old.items }
    ensures { cells.new.items ≡ slice_set cells.old.items p.0 value }
{
    cells[usize::from(p.0)] = value;
}
