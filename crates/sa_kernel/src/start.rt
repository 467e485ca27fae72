// The opening, and what is done at each entry.
ghost use Rattle.std.specs.Prelude.{◌≡◌, ◌+◌, ◌*◌, ◌≤◌, ◌<◌, ◌^◌, ◌++◌, length, map, replicate, Some, None, IfOk, OnOk};
ghost use Rattle.sa_acts.specs.Table.{held_of};
ghost use Rattle.sa_base.specs.Items.{items_at};
ghost use Rattle.sa_spaces.specs.Space.{SpaceView};
ghost use Rattle.sa_assign.specs.Reaim.{proc_no};
ghost use Rattle.sa_base.specs.Recorded.{Adds};
ghost use Rattle.sa_kernel_model.specs.Opening.{first_wants};

use crate::closing::CLOSING_ITEMS;
use crate::parts::Parts;
use sa_acts::Acts;
use sa_assign::Assign;
use sa_base::{ActNo, MAX_SPACES, Note, ProcNo, Record, SpaceNo, Stopped, Trace};
use sa_batch::Notices;
use sa_devices::Devices;
use sa_kernel_model::{Entry, Given};
use sa_spaces::{SpaceDef, Workload};
use std::alloc::{AllocError, Global};

/// How many items the opening has at most: a want of each space, and those of a closing.
pub(crate) const OPENING: usize = MAX_SPACES + CLOSING_ITEMS;

impl<C: Drop> Parts<C> {
    ghost use Rattle.sa_kernel.specs.View.{state_of, scene_of, used, Spends};
    ghost use Rattle.sa_kernel.specs.Needs.{MayUpcall, MayBegin};
    ghost use Rattle.sa_kernel_model.specs.Sound.{IsFormed, HasSizes};
    ghost use Rattle.sa_kernel_model.specs.Enters.{Enters, untold_count, taken_count};
    ghost use Rattle.sa_kernel_model.specs.Opening.{opening_state};
    ghost use Rattle.sa_kernel_model.specs.Closing.{closed};
    ghost use Rattle.sa_kernel_model.specs.Entries.{entered_as, held_for, handed_by, fetched, next_note, after_fetch};
    ghost use Rattle.sa_kernel_model.specs.Entering.{MayEnter, upcalls};

    /// The parts at the opening of a workload.
    pub(crate) fn new(alloc: Global, w: &Workload) -> Result<Self, AllocError>
        ensures state { IfOk result (λ m. state_of m ≡ opening_state w.now) }
        ensures used { IfOk result (λ m. used m ≡ 0) }
    {
        let spaces = w.spaces();
        Ok(Parts {
            fetch: w.fetch(),
            slice: w.slice(),
            priorities: priorities(alloc, spaces)?,
            lives: cells(alloc, usize::from(w.processors()), None)?,
            demands: cells(alloc, spaces.len(), 1)?,
            devices: Devices::new(alloc, w)?,
            notices: Notices::new(alloc, spaces.len())?,
            acts: Acts::new(alloc),
            assign: Assign::new(w.processors()),
        })
    }

    /// The opening: each space wants a processor, and the closing follows.
    pub(crate) fn open(&mut self, trace: &mut Trace)
        requires sizes { HasSizes (state_of self.old) }
        requires trace { OPENING ≤ trace.old.spare }
        ensures exact { scene_of self.new trace.new ≡ closed 0 (proc_no 0) (record {
          state = state_of self.old;
          items = trace.old.items ++ items_at 0 (proc_no 0) (first_wants 0 (length self.old.demands.items));
        }) }
        ensures room { Spends self.old self.new 0 0 0 }
    {
        say_wants(self.demands.len() as u16, trace);
        self.close(0, ProcNo(0), trace);
    }

    /// Makes room for that many entries. An error changes nothing but the room.
    pub(crate) fn reserve(&mut self, n: usize) -> Result<(), AllocError>
        ensures ok { OnOk result ((n ≤ self.new.notices.spare) × (n ≤ self.new.acts.spare)
            × (2 * n ≤ self.new.devices.ios.spare)) }
        ensures state { state_of self.new ≡ state_of self.old }
        ensures used { used self.new ≡ used self.old }
        ensures grows { Spends self.old self.new 0 0 0 }
    {
        let ios = n.checked_mul(2).ok_or(AllocError)?;
        self.notices.reserve(n)?;
        self.acts.reserve(n)?;
        self.devices.reserve(ios)
    }

    // The context that is held of an activation, if one is, which is taken from now on.
    fn take(&mut self, a: ActNo) -> Option<Stopped<C>>
        ensures held { result ≡ held_of ((state_of self.old).acts a.0) }
        ensures state { state_of self.new
            ≡ handed_by (held_of ((state_of self.old).acts a.0)) a (state_of self.old) }
        ensures room { Spends self.old self.new 0 0 0 }
    {
        if self.acts.held(a).is_none() {
            return None;
        }
        Some(self.acts.take_context(a))
    }

    // The context that a notice hands over.
    fn hand_over(&mut self, note: Note) -> Option<Stopped<C>>
        ensures held { result ≡ held_for (state_of self.old) note }
        ensures state { state_of self.new ≡ fetched note (state_of self.old) }
        ensures room { Spends self.old self.new 0 0 0 }
    {
        match note {
            Note::Add(_) => None,
            Note::Blocked(_) => None,
            Note::Preempted(a) => self.take(a),
            Note::Unblocked(a) => self.take(a),
        }
    }

    /// The next notice that the last upcall told, with the context that it hands over.
    pub(crate) fn next_note(&mut self) -> Option<(Note, Option<Stopped<C>>)>
        ensures note { result ≡ next_note (state_of self.old) }
        ensures state { state_of self.new ≡ after_fetch (state_of self.old).telling (state_of self.old) }
        ensures room { Spends self.old self.new 0 0 0 }
    {
        let note = self.notices.next()?;
        let held = self.hand_over(note);
        Some((note, held))
    }

    /// How many activations are taken and not given back.
    pub(crate) fn taken_count(&self) -> usize
        requires { HasSizes (state_of self.now) }
        ensures is { result ≡ taken_count (state_of self.now) }
        ensures few { result ≤ MAX_SPACES * 2 ^ 32 }
    {
        let mut count: usize = 0;
        for s in 0..MAX_SPACES {
            count += self.acts.taken(SpaceNo(s as u16)) as usize;
        }
        count
    }

    /// What an entry does, but for the closing.
    pub(crate) fn enter_as(
        &mut self,
        event: u64,
        p: ProcNo,
        entry: Entry<C>,
        trace: &mut Trace,
    ) -> Given
        requires sound { IsFormed (state_of self.old) }
        requires within { p.0 < length self.old.lives.items }
        requires fit { MayEnter (state_of self.old) p event entry }
        requires notes { 1 ≤ self.old.notices.spare }
        requires upcall { MayUpcall self.old }
        requires ios { MayBegin self.old event 2 }
        requires trace { 5 + untold_count (state_of self.old) + taken_count (state_of self.old) ≤ trace.old.spare }
        ensures exact { Enters (scene_of self.old trace.old) (scene_of self.new trace.new) result
            (upcalls (state_of self.old) p entry) (λ a. entered_as event p a entry) }
        ensures room { Spends self.old self.new 1 1 2 }
        ensures items { Adds (5 + untold_count (state_of self.old) + taken_count (state_of self.old)) trace.old trace.new }
    {
        match entry {
            Entry::Interrupt(held) => self.interrupt(event, p, held, trace),
            Entry::Block { held, length, page } => self.block(event, p, held, length, page, trace),
            Entry::Complete(io) => {
                self.complete(event, p, io, trace);
                Given::Nothing
            }
            Entry::More(n) => {
                self.more(event, p, n, trace);
                Given::Nothing
            }
            Entry::Idle => {
                self.idle(event, p, trace);
                Given::Nothing
            }
            Entry::GiveBack => {
                self.give_back(event, p, trace);
                Given::Nothing
            }
            Entry::InterruptOwn(q) => {
                self.raise(event, p, q, trace);
                Given::Nothing
            }
        }
    }
}

// The priority of each space.
fn priorities(alloc: Global, spaces: &[SpaceDef]) -> Result<Vec<u8>, AllocError>
    ensures { IfOk result (λ v. v.items ≡ map (λ (s : SpaceView). s.priority) spaces.now) }
{
    let mut priorities = Vec::new(alloc);
    for space in spaces {
        priorities.push(space.priority())?;
    }
    Ok(priorities)
}

// The same value that many times.
fn cells<T: Copy>(alloc: Global, n: usize, value: T) -> Result<Vec<T>, AllocError>
    ensures { IfOk result (λ v. v.items ≡ replicate n value) }
{
    let mut cells = Vec::new(alloc);
    for _ in 0..n {
        cells.push(value)?;
    }
    Ok(cells)
}

// Each space wants a processor.
fn say_wants(spaces: u16, trace: &mut Trace)
    requires { spaces ≤ trace.old.spare }
    ensures items { trace.new.items ≡ trace.old.items ++ items_at 0 (proc_no 0) (first_wants 0 spaces) }
    ensures room { Adds spaces trace.old trace.new }
{
    for s in 0..spaces {
        trace.say(0, ProcNo(0), Record::Want(SpaceNo(s), 1));
    }
}
