// What the records of a trace say themselves of processors and spaces.
ghost use Rattle.std.specs.Prelude.{◌≡◌, None, is_none, false, IfOk, slice_index, slice_index_or, slice_set};
ghost use Rattle.std.specs.List.{list_all};
ghost use Rattle.sa_laws.specs.Record.{mark_after};
ghost use Rattle.sa_check_moment.specs.Board.{no_board, lowered, noted};

use sa_base::{ProcNo, Record, SpaceNo};
use std::alloc::{AllocError, Global};
use std::marker::Model;

/// Of each processor the space of its last aim record, the event that raised its line and its idle mark, and of each space
/// the number of its last want record. A processor or a space that is not there has none, and gets none.
#[derive(Drop)]
pub(crate) struct Board {
    aims: Vec<Option<SpaceNo>>,
    lines: Vec<Option<u64>>,
    marks: Vec<bool>,
    demands: Vec<u16>,
}

impl Model for Board {
    ghost use Rattle.sa_check_moment.specs.Board.{BoardView};

    ghost Value = { BoardView };

    ghost view = { λ b. record {
      aims = b.aims.items;
      lines = b.lines.items;
      marks = b.marks.items;
      demands = b.demands.items;
    } };
}

impl Board {
    /// Before any record, of this many processors and spaces. Fails only where memory runs out.
    pub(crate) fn new(alloc: Global, processors: usize, spaces: usize) -> Result<Board, AllocError>
        ensures { IfOk result (λ b. b ≡ no_board processors spaces) }
    {
        Ok(Board {
            aims: vec![in alloc; None; processors]?,
            lines: vec![in alloc; None; processors]?,
            marks: vec![in alloc; false; processors]?,
            demands: vec![in alloc; 0; spaces]?,
        })
    }

    pub(crate) fn aims(&self) -> &[Option<SpaceNo>]
        ensures { result.now ≡ self.now.aims }
    {
        self.aims.as_slice()
    }

    pub(crate) fn lines(&self) -> &[Option<u64>]
        ensures { result.now ≡ self.now.lines }
    {
        self.lines.as_slice()
    }

    pub(crate) fn marks(&self) -> &[bool]
        ensures { result.now ≡ self.now.marks }
    {
        self.marks.as_slice()
    }

    pub(crate) fn aim(&self, p: ProcNo) -> Option<SpaceNo>
        ensures { result ≡ slice_index_or self.now.aims p.0 None }
    {
        self.aims.get(usize::from(p.0)).copied().flatten()
    }

    pub(crate) fn line(&self, p: ProcNo) -> Option<u64>
        ensures { result ≡ slice_index_or self.now.lines p.0 None }
    {
        self.lines.get(usize::from(p.0)).copied().flatten()
    }

    pub(crate) fn demand(&self, s: SpaceNo) -> u16
        ensures { result ≡ slice_index self.now.demands s.0 }
    {
        self.demands.get(usize::from(s.0)).copied().unwrap_or(0)
    }

    /// No line is raised.
    pub(crate) fn all_low(&self) -> bool
        ensures { result ≡ list_all is_none self.now.lines }
    {
        for line in self.lines.as_slice() {
            if line.is_some() {
                return false;
            }
        }
        true
    }

    /// The line of the processor is low.
    pub(crate) fn lower(&mut self, p: ProcNo)
        ensures { self.new ≡ lowered p self.old }
    {
        put(&mut self.lines, p.0, None);
    }

    /// Reads a record of an event of the processor; `last` is the one of the same event directly before it.
    pub(crate) fn note(&mut self, event: u64, p: ProcNo, last: Option<Record>, what: &Record)
        ensures { self.new ≡ noted event p last what.now self.old }
    {
        match *what {
            Record::Aim(q, s) => put(&mut self.aims, q.0, s),
            Record::Line(q) => put(&mut self.lines, q.0, Some(event)),
            Record::Up(..) => put(&mut self.marks, p.0, false),
            Record::Want(s, n) => {
                let mark = mark_after(last, self.demand(s), n, self.mark(p));
                put(&mut self.marks, p.0, mark);
                put(&mut self.demands, s.0, n);
            }
            _ => {}
        }
    }

    fn mark(&self, p: ProcNo) -> bool
        ensures { result ≡ slice_index_or self.now.marks p.0 false }
    {
        self.marks.get(usize::from(p.0)).copied().unwrap_or(false)
    }
}

// The idle mark after a want, which is a hint where it is its event's first record.
fn mark_after(last: Option<Record>, old: u16, new: u16, mark: bool) -> bool
    ensures { result ≡ mark_after last old new mark }
{
    match last {
        None => new < old,
        Some(_) => mark,
    }
}

// Puts an item at a place, if it is there.
fn put<T: Copy>(items: &mut [T], at: u16, item: T)
    ensures { items.new ≡ slice_set items.old at item }
{
    if usize::from(at) < items.len() {
        items[usize::from(at)] = item;
    }
}
