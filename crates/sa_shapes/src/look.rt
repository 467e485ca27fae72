// What a processor does, as far as a looker is told.
ghost use Rattle.std.specs.Prelude.{◌≡◌};
ghost use Rattle.sa_shapes.specs.Look.{owner, working, continued, announcing, owned_by, same_look, look_after};

use sa_base::{ProcNo, Record, SpaceNo, ThreadNo};

/// What a processor does from one of its turns to the next.
#[derive(Clone, Copy)]
pub enum Look {
    /// No space owns it.
    Unowned,
    /// A thread of the space runs.
    Thread(SpaceNo, ThreadNo),
    /// The space's package is at work, outside of a list.
    Package(SpaceNo),
    /// The space has the processor, and no upcall has come there: a virtual processor is placed.
    Placed(SpaceNo),
    /// A virtual processor goes on with the thread that it had.
    GoesOn(SpaceNo),
    /// The package is at this processor's ready list.
    List(SpaceNo, ProcNo),
    /// The package looked for a thread and found none.
    Idle(SpaceNo),
    /// A stopped section goes on in its copy.
    Section(SpaceNo),
}

impl Look {
    /// The space that owns the processor.
    pub fn owner(self) -> Option<SpaceNo>
        ensures { result ≡ owner self }
    {
        match self {
            Look::Unowned => None,
            Look::Thread(s, _) => Some(s),
            Look::Package(s) => Some(s),
            Look::Placed(s) => Some(s),
            Look::GoesOn(s) => Some(s),
            Look::List(s, _) => Some(s),
            Look::Idle(s) => Some(s),
            Look::Section(s) => Some(s),
        }
    }

    // What a step of the package at a list shows, which a copy's own step does not change.
    fn working(self, next: Look) -> Look
        ensures { result ≡ working self next }
    {
        match self {
            Look::Section(s) => Look::Section(s),
            _ => next,
        }
    }

    // What a `cont` shows: a section in its copy, or a virtual processor that goes on where no upcall has come.
    fn continued(self, s: SpaceNo) -> Look
        ensures { result ≡ continued self s }
    {
        match self {
            Look::Placed(_) => Look::GoesOn(s),
            _ => Look::Section(s),
        }
    }

    // What an announcement of demand shows: of the processor's owner that its package is at work, of another space nothing.
    fn announcing(self, s: SpaceNo) -> Look
        ensures { result ≡ announcing self s }
    {
        match self.owner() {
            None => self,
            Some(u) => { if u.0 == s.0 { Look::Package(s) } else { self } }
        }
    }

    /// The same thing is shown.
    pub fn is_same(self, other: Look) -> bool
        ensures { result ≡ same_look self other }
    {
        match (self, other) {
            (Look::Unowned, Look::Unowned) => true,
            (Look::Thread(s, t), Look::Thread(u, v)) => s.0 == u.0 && t.0 == v.0,
            (Look::Package(s), Look::Package(u)) => s.0 == u.0,
            (Look::Placed(s), Look::Placed(u)) => s.0 == u.0,
            (Look::GoesOn(s), Look::GoesOn(u)) => s.0 == u.0,
            (Look::List(s, l), Look::List(u, m)) => s.0 == u.0 && l.0 == m.0,
            (Look::Idle(s), Look::Idle(u)) => s.0 == u.0,
            (Look::Section(s), Look::Section(u)) => s.0 == u.0,
            _ => false,
        }
    }

    /// What the processor does after a record of its own.
    pub fn after(self, what: &Record) -> Look
        ensures { result ≡ look_after self what.now }
    {
        match *what {
            Record::Ins(s, t, _) | Record::Out(s, t, _) => Look::Thread(s, t),
            Record::Stop(s, _, _) => Look::Placed(s),
            Record::Block(s, _, _, _) => Look::Placed(s),
            Record::Up(s, _) | Record::Back(s, _) => Look::Package(s),
            Record::Cont(s, _) => self.continued(s),
            Record::Take(s, l, _) | Record::Free(s, l, _) => self.working(Look::List(s, l)),
            Record::Move(_, n) => owned_by(n),
            Record::Want(s, _) => self.announcing(s),
            Record::Idle => match self.owner() {
                None => self,
                Some(s) => Look::Idle(s),
            },
            Record::Spin(l) => match self.owner() {
                None => self,
                Some(s) => self.working(Look::List(s, l)),
            },
            Record::Tick => Look::Unowned,
            _ => self,
        }
    }
}

// What a processor does whose owner has changed to this one.
fn owned_by(n: Option<SpaceNo>) -> Look
    ensures { result ≡ owned_by n }
{
    match n {
        None => Look::Unowned,
        Some(s) => Look::Placed(s),
    }
}
