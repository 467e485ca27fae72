// The cells of a moment, and their names.
ghost use Rattle.std.specs.Prelude.{◌≡◌, ◌++◌, OnOk};
ghost use Rattle.sa_cells.specs.Name.{of_space, name_of};

use crate::pieces::{push_numbered, push_one};
use sa_base::{ActNo, ProcNo, SpaceNo, ThreadNo};
use std::alloc::AllocError;

/// A thing of a moment that has a text.
#[derive(Clone, Copy)]
pub enum Cell {
    /// The space that owns the processor.
    Owner(ProcNo),
    /// The space of the processor's last aim record.
    Aim(ProcNo),
    /// The processor's interrupt line.
    Line(ProcNo),
    /// The activation that runs on the processor.
    Activation(ProcNo),
    /// What runs on the processor.
    Runs(ProcNo),
    /// How many processors the space wants.
    Demand(SpaceNo),
    /// What the space was not told yet.
    Untold(SpaceNo),
    /// Who holds the lock of this list of the space.
    Holder(SpaceNo, ProcNo),
    /// The threads of this list of the space.
    Listed(SpaceNo, ProcNo),
    /// A thread of the space: where it is, its pc and the instruction there.
    Thread(SpaceNo, ThreadNo),
    /// A mutex of the space.
    Mutex(SpaceNo, u16),
    /// A semaphore of the space.
    Semaphore(SpaceNo, u16),
    /// A cell that the space's threads share.
    Shared(SpaceNo, u16),
    /// Where the activation is.
    Where(ActNo),
    /// The locks of the activation.
    Locks(ActNo),
    /// The hand of the activation.
    Hand(ActNo),
}

/// Appends the name of a cell.
pub(crate) fn push_name(out: &mut Vec<u8>, cell: Cell) -> Result<(), AllocError>
    ensures { OnOk result (out.new.items ≡ out.old.items ++ name_of cell) }
{
    match cell {
        Cell::Owner(p) => push_one(out, b"p", u64::from(p.0), b".space"),
        Cell::Aim(p) => push_one(out, b"p", u64::from(p.0), b".aim"),
        Cell::Line(p) => push_one(out, b"p", u64::from(p.0), b".line"),
        Cell::Activation(p) => push_one(out, b"p", u64::from(p.0), b".activation"),
        Cell::Runs(p) => push_one(out, b"p", u64::from(p.0), b".runs"),
        Cell::Demand(s) => push_one(out, b"s", u64::from(s.0), b".demand"),
        Cell::Untold(s) => push_one(out, b"s", u64::from(s.0), b".untold"),
        Cell::Holder(s, l) => push_of_space(out, s, b".lock", l.0),
        Cell::Listed(s, l) => push_of_space(out, s, b".list", l.0),
        Cell::Thread(s, t) => push_of_space(out, s, b".thread", t.0),
        Cell::Mutex(s, m) => push_of_space(out, s, b".mutex", m),
        Cell::Semaphore(s, k) => push_of_space(out, s, b".semaphore", k),
        Cell::Shared(s, c) => push_of_space(out, s, b".cell", c),
        Cell::Where(a) => push_one(out, b"a", a.0, b".place"),
        Cell::Locks(a) => push_one(out, b"a", a.0, b".locks"),
        Cell::Hand(a) => push_one(out, b"a", a.0, b".hand"),
    }
}

// Appends the name of a thing of a space.
fn push_of_space(out: &mut Vec<u8>, s: SpaceNo, word: &[u8], n: u16) -> Result<(), AllocError>
    ensures { OnOk result (out.new.items ≡ out.old.items ++ of_space s.0 word.now n) }
{
    push_numbered(out, b"s", u64::from(s.0))?;
    push_numbered(out, word, u64::from(n))
}
