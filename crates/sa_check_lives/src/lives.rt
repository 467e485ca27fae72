ghost use Rattle.std.specs.Prelude.{◌≡◌, ◌↔◌, ◌≤◌, IsTrue, IfOk, OnOk, OnErr, length, slice_set};
ghost use Rattle.std.specs.Option.{option_copied};
ghost use Rattle.sa_laws.specs.Readings.{Readings, IsLocked};
ghost use Rattle.sa_laws.specs.Turns.{AnotherHas};
ghost use Rattle.sa_laws.specs.Locks.{HoldsLock};
ghost use Rattle.sa_check_lives.specs.Change.{changed_by, stepped_by, arisen_by};
ghost use Rattle.sa_check_lives.specs.Table.{SomeIsIn};
ghost use Rattle.sa_check_lives.specs.Recorded.{recorded, taken_lock};
ghost use Rattle.sa_check_lives.specs.View.{lives_of, no_lives, running_at, life_if_at, space_at, taken_at, untold_at, changed, changed_on, with_up, told, given_back, untold_threads, thread_of_note, must_be_told, noted, passed};

use crate::change::{Change, Stepped};
use crate::life::KeptLife;
use crate::lists::{Row, add, no_rows, remove_act, remove_note, row_at, undo};
use crate::lock::ListLock;
use crate::table::Table;
use sa_base::{ActNo, BULK_RETURN, Note, ProcNo, Record, SpaceNo, ThreadNo};
use std::alloc::{AllocError, Global};
use std::marker::Model;

/// The lives of a history. A call that changes them may fail for want of memory, and then nothing is changed. A call goes
/// through the few lives whose numbers share one of 512 shelves, and through what it hands over; through the lives that
/// have locks where one frees its last, through those that are in where one is out that was in, and through the row of a
/// space where a life is given back; a notice that is told is looked for in what is untold.
#[derive(Drop)]
pub struct Lives {
    alloc: Global,
    table: Table,
    running: Vec<Option<ActNo>>,
    taken: Vec<Row<ActNo>>,
    untold: Vec<Row<Note>>,
    upped: Option<ActNo>,
}

impl Model for Lives {
    ghost use Rattle.sa_check_lives.specs.View.{Stored};

    ghost Value = { Stored };

    ghost view = { λ x. record {
      table = x.table;
      running = x.running.items;
      taken = x.taken.items;
      untold = x.untold.items;
      upped = x.upped;
    } };
}

impl Lives {
    /// Before any record, of this many processors and spaces.
    pub fn new(alloc: Global, processors: u16, spaces: u16) -> Result<Self, AllocError>
        ensures { IfOk result (λ lives. lives_of lives ≡ no_lives processors spaces) }
    {
        let mut running = Vec::new(alloc);
        running.resize(usize::from(processors), None)?;
        let taken = no_rows(alloc, spaces)?;
        let untold = no_rows(alloc, spaces)?;
        Ok(Lives {
            alloc,
            table: Table::new(alloc)?,
            running,
            taken,
            untold,
            upped: None,
        })
    }

    /// The life of this number, if it is in use.
    #[inline(always)]
    pub fn life(&self, a: ActNo) -> Option<&KeptLife>
        ensures { option_copied result ≡ (lives_of self.now).lives a.0 }
    {
        self.table.life(a)
    }

    /// The number of the life that runs on the processor, if one does.
    pub fn running(&self, p: ProcNo) -> Option<ActNo>
        ensures { result ≡ running_at (lives_of self.now) p }
    {
        self.running.get(usize::from(p.0)).copied().flatten()
    }

    /// Of each processor: the number of the life that runs on it.
    pub fn all_running(&self) -> &[Option<ActNo>]
        ensures { result.now ≡ (lives_of self.now).running }
    {
        self.running.as_slice()
    }

    /// The life that runs on the processor.
    pub fn life_on(&self, p: ProcNo) -> Option<&KeptLife>
        ensures { option_copied result
            ≡ life_if_at (lives_of self.now) (running_at (lives_of self.now) p) }
    {
        self.life(self.running(p)?)
    }

    /// The space of the life of this number, if one is given and it is in use.
    pub fn space(&self, a: Option<ActNo>) -> Option<SpaceNo>
        ensures { result ≡ space_at (lives_of self.now) a }
    {
        let life = self.life(a?)?;
        Some(life.space())
    }

    /// The number of the life of the last up.
    pub fn upped(&self) -> Option<ActNo>
        ensures { result ≡ (lives_of self.now).upped }
    {
        self.upped
    }

    /// The lives of the space that were taken and not given back, in the order of taking.
    pub fn taken(&self, s: SpaceNo) -> &[ActNo]
        ensures { result.now ≡ taken_at (lives_of self.now) s }
    {
        row_at(self.taken.as_slice(), s)
    }

    /// What the space was not told yet, in order.
    pub fn untold(&self, s: SpaceNo) -> &[Note]
        ensures { result.now ≡ untold_at (lives_of self.now) s }
    {
        row_at(self.untold.as_slice(), s)
    }

    /// 8 or more lives of the space were taken and not given back.
    pub fn many_taken(&self, s: SpaceNo) -> bool
        ensures { IsTrue result ↔ (BULK_RETURN ≤ length (taken_at (lives_of self.now) s)) }
    {
        self.taken(s).len() >= BULK_RETURN as usize
    }

    /// How many threads the untold stops of the space have.
    pub fn untold_threads(&self, s: SpaceNo) -> usize
        ensures { result ≡ untold_threads (lives_of self.now) s }
    {
        let mut threads = 0;
        for note in self.untold(s) {
            threads += self.thread_of_note(*note);
        }
        threads
    }

    // How many threads an untold stop has: 1 or 0.
    fn thread_of_note(&self, note: Note) -> usize
        ensures threads { result ≡ thread_of_note (lives_of self.now) note }
        ensures few { result ≤ 1 }
    {
        let Note::Preempted(a) = note else {
            return 0;
        };
        match self.life(a) {
            Some(life) if life.thread().is_some() => 1,
            _ => 0,
        }
    }

    /// The space must be told the notice even where it wants no processor: it is the end of an I/O, or the stop of a life
    /// that was not idle.
    pub fn must_be_told(&self, note: Note) -> bool
        ensures { result ≡ must_be_told (lives_of self.now) note }
    {
        match note {
            Note::Preempted(a) => match self.life(a) {
                None => true,
                Some(life) => !life.idle(),
            },
            Note::Unblocked(_) => true,
            _ => false,
        }
    }

    /// Some life of the space has the list among its locks.
    pub fn is_locked(&self, s: SpaceNo, l: ProcNo) -> bool
        ensures { (r : Readings) → r.lives ≡ (lives_of self.now).lives
            → (IsTrue result ↔ IsLocked r s l) }
    {
        self.table.is_locked(None, s, l)
    }

    /// Some other life of the space than `a` has the list among its locks.
    pub fn is_locked_by_other(&self, a: ActNo, s: SpaceNo, l: ProcNo) -> bool
        ensures { (r : Readings) → r.lives ≡ (lives_of self.now).lives
            → (IsTrue result ↔ AnotherHas r a s l) }
    {
        self.table.is_locked(Some(a), s, l)
    }

    /// The thread of the space holds the lock of a list.
    pub fn holds_lock(&self, s: SpaceNo, t: ThreadNo) -> bool
        ensures { (r : Readings) → r.lives ≡ (lives_of self.now).lives
            → (IsTrue result ↔ HoldsLock r s t) }
    {
        self.table.holds_lock(s, t)
    }

    /// Some life is in.
    pub fn some_is_in(&self) -> bool
        ensures { IsTrue result ↔ SomeIsIn (lives_of self.now).lives }
    {
        self.table.some_is_in()
    }

    /// An up of the space on the processor begins a life of this number.
    pub fn up(&mut self, p: ProcNo, s: SpaceNo, a: ActNo) -> Result<(), AllocError>
        ensures ok { OnOk result (lives_of self.new ≡ with_up p s a (lives_of self.old)) }
        ensures err { OnErr result (lives_of self.new ≡ lives_of self.old) }
    {
        let life = KeptLife::new(self.alloc, s, p);
        self.table.begin(a, life)?;
        self.set_running(p, Some(a));
        self.upped = Some(a);
        Ok(())
    }

    /// The notice was told: it is untold no longer, and where it hands a life over, that life is taken, and the life of the
    /// last up gets its locks and its hand.
    pub fn tell(&mut self, note: Note) -> Result<(), AllocError>
        ensures ok { OnOk result (lives_of self.new ≡ told note (lives_of self.old)) }
        ensures err { OnErr result (lives_of self.new ≡ lives_of self.old) }
    {
        match note {
            Note::Preempted(a) | Note::Unblocked(a) => self.pass(a)?,
            _ => {}
        }
        remove_note(&mut self.untold, note);
        Ok(())
    }

    /// The number was given back.
    pub fn give_back(&mut self, a: ActNo)
        ensures { lives_of self.new ≡ given_back a (lives_of self.old) }
    {
        let s = self.space(Some(a));
        remove_act(&mut self.taken, s, a);
        self.table.end(a);
    }

    /// What a record of the processor does to the lives. `roused` are the threads that the record's instruction forks or
    /// wakes; `for_push` says whether the hand of the running life counts a thread, at a take. A record of any other kind
    /// changes nothing.
    pub fn read(
        &mut self,
        p: ProcNo,
        what: Record,
        roused: &[ThreadNo],
        for_push: bool,
    ) -> Result<(), AllocError>
        ensures ok { OnOk result
            (lives_of self.new ≡ recorded roused.now for_push p what (lives_of self.old)) }
        ensures err { OnErr result (lives_of self.new ≡ lives_of self.old) }
    {
        match what {
            Record::Ins(..) => {
                let a = self.running(p);
                self.table.rouse(a, roused)
            }
            Record::Run(_, t) => self.change_on(p, &Change::Run(t)),
            Record::Stop(s, t, a) => self.leave(p, s, a, Note::Preempted(a), &Change::Stop(t)),
            Record::Block(s, t, a, _) => self.leave(p, s, a, Note::Blocked(a), &Change::Block(t)),
            Record::Unblock(s, t, a) => self.note(s, a, Note::Unblocked(a), &Change::Unblock(t)),
            Record::Cont(..) => self.change_on(p, &Change::Cont),
            Record::Back(_, t) => self.change_on(p, &Change::Back(t)),
            Record::Ready(_, t) => self.change_on(p, &Change::Ready(t)),
            Record::Take(_, l, t) => {
                self.change_on(p, &Change::Take(lock_at(p, l, t, for_push)))
            }
            Record::Free(..) => self.change_on(p, &Change::Free),
            Record::Up(s, a) => self.up(p, s, a),
            Record::Told(note) => self.tell(note),
            Record::GiveBack(a) => {
                self.give_back(a);
                Ok(())
            }
            _ => Ok(()),
        }
    }

    /// An own event of this life is over, if one is given: the one that ran on the processor before the event.
    #[inline(always)]
    pub fn step(&mut self, a: Option<ActNo>, stepped: Stepped) -> Result<(), AllocError>
        ensures ok { OnOk result
            (lives_of self.new ≡ changed (stepped_by stepped) a (lives_of self.old)) }
        ensures err { OnErr result (lives_of self.new ≡ lives_of self.old) }
    {
        self.table.change(a, &Change::Step(stepped))
    }

    /// The event of the up of the life that runs on the processor is over, and whether the life is in then.
    pub fn arise(&mut self, p: ProcNo, inside: bool) -> Result<(), AllocError>
        ensures ok { OnOk result
            (lives_of self.new ≡ changed_on (arisen_by inside) p (lives_of self.old)) }
        ensures err { OnErr result (lives_of self.new ≡ lives_of self.old) }
    {
        self.change_on(p, &Change::Arise(inside))
    }

    // The life that runs on the processor is changed, if one does. An error changes nothing.
    #[inline(always)]
    fn change_on(&mut self, p: ProcNo, change: &Change) -> Result<(), AllocError>
        ensures ok { OnOk result
            (lives_of self.new ≡ changed_on (changed_by change.now) p (lives_of self.old)) }
        ensures err { OnErr result (lives_of self.new ≡ lives_of self.old) }
    {
        let a = self.running(p);
        self.table.change(a, change)
    }

    // Another life runs on the processor, or none.
    fn set_running(&mut self, p: ProcNo, a: Option<ActNo>)
        ensures { lives_of self.new ≡ let v = lives_of self.old in
            record v { running = slice_set v.running p.0 a } }
    {
        if let Some(cell) = self.running.get_mut(usize::from(p.0)) {
            *cell = a;
        }
    }

    // The life that ran on the processor is changed, and the space was not told the notice. An error changes nothing.
    fn leave(
        &mut self,
        p: ProcNo,
        s: SpaceNo,
        a: ActNo,
        note: Note,
        change: &Change,
    ) -> Result<(), AllocError>
        ensures ok { OnOk result (lives_of self.new ≡ let v = noted s a note change.now (lives_of self.old) in
            record v { running = slice_set v.running p.0 None }) }
        ensures err { OnErr result (lives_of self.new ≡ lives_of self.old) }
    {
        self.note(s, a, note, change)?;
        self.set_running(p, None);
        Ok(())
    }

    // The life is changed, and the space was not told the notice. An error changes nothing.
    fn note(&mut self, s: SpaceNo, a: ActNo, note: Note, change: &Change) -> Result<(), AllocError>
        ensures ok { OnOk result (lives_of self.new ≡ noted s a note change.now (lives_of self.old)) }
        ensures err { OnErr result (lives_of self.new ≡ lives_of self.old) }
    {
        add(&mut self.untold, s, note)?;
        match self.table.change(Some(a), change) {
            Ok(()) => Ok(()),
            Err(error) => {
                undo(&mut self.untold, s);
                Err(error)
            }
        }
    }

    // The life is taken, and the life of the last up gets its locks and its hand. An error changes nothing.
    fn pass(&mut self, a: ActNo) -> Result<(), AllocError>
        ensures ok { OnOk result (lives_of self.new ≡ passed a (lives_of self.old)) }
        ensures err { OnErr result (lives_of self.new ≡ lives_of self.old) }
    {
        let Some(s) = self.space(Some(a)) else {
            return Ok(());
        };
        add(&mut self.taken, s, a)?;
        match self.table.hand_over(self.upped, a, self.alloc) {
            Ok(()) => Ok(()),
            Err(error) => {
                undo(&mut self.taken, s);
                Err(error)
            }
        }
    }
}

// A lock at its take on the processor.
fn lock_at(p: ProcNo, l: ProcNo, t: Option<ThreadNo>, for_push: bool) -> ListLock
    ensures { result ≡ taken_lock p l t for_push }
{
    ListLock {
        list: l,
        thread: t,
        for_push,
        used: false,
        own: l.0 == p.0,
        inherited: false,
    }
}
