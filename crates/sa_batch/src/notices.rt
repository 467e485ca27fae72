ghost use Rattle.std.specs.Prelude.{sum_by, ◌≡◌, ℕ, ◌+◌, ◌≤◌, ◌<◌, [], ◌∷◌, ◌++◌, length, map, drop, replicate, slice_get, slice_index_or, slice_set, OnOk, IfOk};
ghost use Rattle.sa_batch.specs.Notices.{notes_of, behind_added, notes_told, has_untold, HaveRoom};
ghost use Rattle.sa_base.specs.Recorded.{Adds};
ghost use Rattle.sa_base.specs.Items.{items_at};

use crate::batch::Batch;
use sa_base::{MAX_EVENTS, Note, ProcNo, Record, SpaceNo, Trace};
use std::alloc::{AllocError, Global};
use std::marker::Model;

/// The notices of each space that it was not told yet, and those that the last upcall told, as far as its context has
/// not fetched them. Only `new` and `reserve` can fail for want of memory.
#[derive(Drop)]
pub struct Notices {
    untold: Vec<Batch>,
    // The notice of the upcall that a processor was added, which comes before the others of `telling`.
    added: Option<ProcNo>,
    telling: Batch,
    spare: usize,
}

impl Model for Notices {
    ghost use Rattle.std.specs.Prelude.{◌≤◌, map};
    ghost use Rattle.sa_batch.specs.Notices.{NoticesView, notes_of, behind_added, HaveRoom};

    ghost Value = { NoticesView };

    ghost view = { λ n. record {
      untold = map notes_of n.untold.items;
      telling = behind_added n.added n.telling.notes;
      spare = n.spare;
    } };

    ghost invariant = { λ n. HaveRoom n.spare n.untold.items × (n.spare ≤ n.telling.spare) };
}

impl Notices {
    ghost use Rattle.sa_batch.specs.Notices.{NoticesView};

    /// No notice of any of that many spaces, and no room.
    pub fn new(alloc: Global, spaces: usize) -> Result<Self, AllocError>
        ensures { IfOk result (λ n. let none : NoticesView = record { untold = replicate spaces []; telling = []; spare = 0 } in n ≡ none) }
    {
        Ok(Notices {
            untold: empty_batches(alloc, spaces)?,
            added: None,
            telling: Batch::new(alloc),
            spare: 0,
        })
    }

    /// Makes room for at least `n` more notices. An error changes no notice.
    pub fn reserve(&mut self, n: usize) -> Result<(), AllocError>
        ensures ok { OnOk result (n ≤ self.new.spare) }
        ensures grows { self.old.spare ≤ self.new.spare }
        ensures rest { self.new ≡ record self.old { spare = self.new.spare } }
    {
        if self.spare < n {
            reserve_all(&mut self.untold, n)?;
            self.telling.reserve(n)?;
            self.spare = n;
        }
        Ok(())
    }

    /// A notice for a space, after those that it was not told.
    pub fn add(&mut self, s: SpaceNo, note: Note)
        requires space { s.0 < length self.old.untold }
        requires room { 1 ≤ self.old.spare }
        ensures notes { self.new.untold ≡ slice_set self.old.untold s.0 (slice_index_or self.old.untold s.0 [] ++ note ∷ []) }
        ensures telling { self.new.telling ≡ self.old.telling }
        ensures spare { self.new.spare + 1 ≡ self.old.spare }
    {
        add_to(&mut self.untold, usize::from(s.0), note);
        self.spare -= 1;
    }

    /// An upcall tells the space what it was not told, after the notice of a processor that was added.
    pub fn tell(&mut self, s: SpaceNo, p: ProcNo, added: bool)
        requires space { s.0 < length self.old.untold }
        requires fetched { self.old.telling ≡ [] }
        ensures untold { self.new.untold ≡ slice_set self.old.untold s.0 [] }
        ensures telling { self.new.telling ≡ notes_told added p (slice_index_or self.old.untold s.0 []) }
        ensures spare { self.new.spare ≡ self.old.spare }
    {
        swap_with(&mut self.untold, usize::from(s.0), &mut self.telling);
        self.added = if added { Some(p) } else { None };
    }

    /// The next notice that the last upcall told: `None` exactly where all were fetched.
    pub fn next(&mut self) -> Option<Note>
        ensures first { result ≡ slice_get self.old.telling 0 }
        ensures rest { self.new ≡ record self.old { telling = drop 1 self.old.telling } }
    {
        match self.added.take() {
            Some(p) => Some(Note::Add(p)),
            None => self.telling.next(),
        }
    }

    /// Records what the last upcall tells.
    pub fn say_told(&self, event: u64, p: ProcNo, trace: &mut Trace)
        requires { length self.now.telling ≤ trace.old.spare }
        ensures items { trace.new.items ≡ trace.old.items ++ items_at event p (map Record.Told self.now.telling) }
        ensures room { Adds (length self.now.telling) trace.old trace.new }
    {
        say_added(self.added, event, p, trace);
        say_all_told(self.telling.notes(), event, p, trace);
    }

    /// What the space was not told, in order.
    pub fn untold(&self, s: SpaceNo) -> &[Note]
        requires { s.0 < length self.now.untold }
        ensures { result.now ≡ slice_index_or self.now.untold s.0 [] }
    {
        self.untold[usize::from(s.0)].notes()
    }

    /// How many notices were not told.
    pub fn count(&self) -> usize
        requires { sum_by length self.now.untold ≤ MAX_EVENTS }
        ensures { result ≡ sum_by length self.now.untold }
    {
        count_all(&self.untold)
    }

    /// Whether the space is to be told something.
    pub fn has_untold(&self, s: SpaceNo) -> bool
        requires { s.0 < length self.now.untold }
        ensures { result ≡ has_untold (slice_index_or self.now.untold s.0 []) }
    {
        !self.untold(s).is_empty()
    }
}

// Records the notice of an added processor, if there is one.
fn say_added(added: Option<ProcNo>, event: u64, p: ProcNo, trace: &mut Trace)
    requires { length (behind_added added []) ≤ trace.old.spare }
    ensures items { trace.new.items ≡ trace.old.items ++ items_at event p (map Record.Told (behind_added added [])) }
    ensures room { Adds (length (behind_added added [])) trace.old trace.new }
{
    if let Some(q) = added {
        trace.say(event, p, Record::Told(Note::Add(q)));
    }
}

// Records that each of these notices is told.
fn say_all_told(notes: &[Note], event: u64, p: ProcNo, trace: &mut Trace)
    requires { length notes.now ≤ trace.old.spare }
    ensures items { trace.new.items ≡ trace.old.items ++ items_at event p (map Record.Told notes.now) }
    ensures room { Adds (length notes.now) trace.old trace.new }
{
    for note in notes {
        trace.say(event, p, Record::Told(*note));
    }
}

// How many notices there are in all batches.
fn count_all(batches: &Vec<Batch>) -> usize
    requires { sum_by length (map notes_of batches.now.items) ≤ MAX_EVENTS }
    ensures { result ≡ sum_by length (map notes_of batches.now.items) }
{
    let mut count: usize = 0;
    for i in 0..batches.len() {
        count += batches[i].len();
    }
    count
}

// So many batches without notices and room.
fn empty_batches(alloc: Global, n: usize) -> Result<Vec<Batch>, AllocError>
    ensures { IfOk result (λ v. (map notes_of v.items ≡ replicate n []) × HaveRoom 0 v.items) }
{
    let mut batches = Vec::new(alloc);
    for _ in 0..n {
        batches.push(Batch::new(alloc))?;
    }
    Ok(batches)
}

// Makes room for that many more notices in each batch.
fn reserve_all(batches: &mut Vec<Batch>, n: usize) -> Result<(), AllocError>
    ensures ok { OnOk result (HaveRoom n batches.new.items) }
    ensures grows { (k : ℕ) → HaveRoom k batches.old.items → HaveRoom k batches.new.items }
    ensures notes { map notes_of batches.new.items ≡ map notes_of batches.old.items }
{
    for i in 0..batches.len() {
        batches[i].reserve(n)?;
    }
    Ok(())
}

// Puts a notice after the others of a batch.
fn add_to(batches: &mut Vec<Batch>, i: usize, note: Note)
    requires within { i < length batches.old.items }
    requires room { HaveRoom 1 batches.old.items }
    ensures notes { map notes_of batches.new.items
        ≡ slice_set (map notes_of batches.old.items) i (slice_index_or (map notes_of batches.old.items) i [] ++ note ∷ []) }
    ensures room { (k : ℕ) → HaveRoom (k + 1) batches.old.items → HaveRoom k batches.new.items }
{
    batches[i].add(note);
}

// Exchanges a batch of the list and another, which is empty.
fn swap_with(batches: &mut Vec<Batch>, i: usize, other: &mut Batch)
    requires within { i < length batches.old.items }
    requires empty { other.old.notes ≡ [] }
    ensures notes { map notes_of batches.new.items ≡ slice_set (map notes_of batches.old.items) i [] }
    ensures other { other.new.notes ≡ slice_index_or (map notes_of batches.old.items) i [] }
    ensures room { (k : ℕ) → HaveRoom k batches.old.items → k ≤ other.old.spare → HaveRoom k batches.new.items × (k ≤ other.new.spare) }
{
    std::mem::swap(&mut batches[i], other);
}
