// What the lines of a source say. Names are not looked up yet.
ghost use Rattle.std.specs.Prelude.{◌≡◌};
ghost use Rattle.toga_draft.specs.Draft.{value_or};

use crate::word::Word;
use sa_base::ProcNo;
use sa_instr::{Operand, Operation};
use std::alloc::Global;
use std::marker::Model;
use toga_diagnostic::Kind;
use toga_source::Name;

/// A number that was set, and the line that set it.
#[derive(Clone, Copy)]
pub struct Setting {
    pub value: u64,
    pub line: u64,
}

/// A mutex, a semaphore or a cell: its name, and the line that declares it.
#[derive(Drop)]
pub struct NameDraft {
    pub name: Name,
    pub line: u64,
}

/// A label: its name and column, the line where it stands, and the place of the instruction after it.
#[derive(Drop)]
pub struct LabelDraft {
    pub name: Word,
    pub line: u64,
    pub place: u16,
}

/// An operand.
#[derive(Drop)]
pub enum OperandDraft {
    /// There is none.
    None,
    /// One that names nothing: a register, a number, a length or a page.
    Known(Operand),
    /// The name of a mutex, a semaphore, a cell, a program or a label.
    Named(Kind, Word),
    /// The number of a mutex, a semaphore, a cell or a program, or a place.
    Numbered(Kind, NumberDraft),
}

/// A number that stands for something that is declared: its column, and how many bytes it has.
#[derive(Clone, Copy)]
pub struct NumberDraft {
    pub number: u64,
    pub column: usize,
    pub width: usize,
}

/// An instruction. Its operands are as many, and of the kinds, as its operation has.
#[derive(Drop)]
pub struct InstrDraft {
    pub operation: Operation,
    pub line: u64,
    /// The column of the operation's word.
    pub column: usize,
    pub first: OperandDraft,
    pub second: OperandDraft,
}

/// An eviction of a page of its space.
#[derive(Clone, Copy)]
pub struct EvictDraft {
    pub page: u16,
    pub event: u64,
}

/// A program. Contracts see lists of its labels and instructions.
#[derive(Drop)]
pub struct ProgramDraft {
    pub name: Word,
    pub line: u64,
    pub labels: Vec<LabelDraft>,
    pub instrs: Vec<InstrDraft>,
}

impl Model for ProgramDraft {
    ghost use Rattle.toga_draft.specs.Draft.{ProgramDraftView};

    ghost Value = { ProgramDraftView };

    ghost view = { λ p. record {
      name = p.name;
      line = p.line;
      labels = p.labels.items;
      instrs = p.instrs.items;
    } };
}

/// A space: what it declares, each kind in the order of the lines. Contracts see lists.
#[derive(Drop)]
pub struct SpaceDraft {
    pub name: Name,
    pub line: u64,
    pub priority: Option<Setting>,
    pub patience: Option<Setting>,
    pub mutexes: Vec<NameDraft>,
    pub semaphores: Vec<NameDraft>,
    pub cells: Vec<NameDraft>,
    /// What each semaphore starts with.
    pub starts: Vec<u32>,
    /// The absent pages, in the order of the lines.
    pub absent: Vec<u16>,
    /// The evictions, in the order of the lines.
    pub evictions: Vec<EvictDraft>,
    pub programs: Vec<ProgramDraft>,
}

impl Model for SpaceDraft {
    ghost use Rattle.toga_draft.specs.Draft.{SpaceDraftView};

    ghost Value = { SpaceDraftView };

    ghost view = { λ s. record {
      name = s.name;
      line = s.line;
      priority = s.priority;
      patience = s.patience;
      mutexes = s.mutexes.items;
      semaphores = s.semaphores.items;
      cells = s.cells.items;
      starts = s.starts.items;
      absent = s.absent.items;
      evictions = s.evictions.items;
      programs = s.programs.items;
    } };
}

/// A whole source. Contracts see lists.
#[derive(Drop)]
pub struct Draft {
    pub processors: Option<Setting>,
    pub fetch: Option<Setting>,
    pub slice: Option<Setting>,
    pub spaces: Vec<SpaceDraft>,
    pub turns: Vec<ProcNo>,
    /// The number of the last line.
    pub last: u64,
}

impl Model for Draft {
    ghost use Rattle.toga_draft.specs.Draft.{DraftView};

    ghost Value = { DraftView };

    ghost view = { λ d. record {
      processors = d.processors;
      fetch = d.fetch;
      slice = d.slice;
      spaces = d.spaces.items;
      turns = d.turns.items;
      last = d.last;
    } };
}

impl Setting {
    /// The number that was set, or the usual one.
    pub fn value_or(setting: Option<Setting>, usual: u64) -> u64
        ensures { result ≡ value_or setting usual }
    {
        match setting {
            Some(setting) => setting.value,
            None => usual,
        }
    }
}

impl ProgramDraft {
    ghost use Rattle.toga_draft.specs.State.{program_from};
    ghost use Rattle.toga_draft.specs.Words.{no_word};

    /// A program that begins.
    pub(crate) fn new(alloc: Global, name: Word, line: u64) -> ProgramDraft
        ensures { result ≡ program_from name line }
    {
        ProgramDraft {
            name,
            line,
            labels: Vec::new(alloc),
            instrs: Vec::new(alloc),
        }
    }

    /// No program.
    pub(crate) fn none(alloc: Global) -> ProgramDraft
        ensures { result ≡ program_from no_word 0 }
    {
        let name = Word {
            text: Name::new(Vec::new(alloc)),
            column: 0,
        };
        ProgramDraft::new(alloc, name, 0)
    }
}

impl SpaceDraft {
    ghost use Rattle.toga_draft.specs.State.{space_from};

    /// A space that begins.
    pub(crate) fn new(alloc: Global, name: Name, line: u64) -> SpaceDraft
        ensures { result ≡ space_from name line }
    {
        SpaceDraft {
            name,
            line,
            priority: None,
            patience: None,
            mutexes: Vec::new(alloc),
            semaphores: Vec::new(alloc),
            cells: Vec::new(alloc),
            starts: Vec::new(alloc),
            absent: Vec::new(alloc),
            evictions: Vec::new(alloc),
            programs: Vec::new(alloc),
        }
    }
}
