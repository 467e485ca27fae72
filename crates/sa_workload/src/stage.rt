// What the lines so far say, and which line comes next.
ghost use Rattle.std.specs.Prelude.{◌≡◌, IfSome};
ghost use Rattle.sa_spaces.specs.Workload.{IsWorkload};
ghost use Rattle.sa_workload.specs.Position.{AtVersion, closed};
ghost use Rattle.sa_workload.specs.Stage.{position_of};

use sa_base::ProcNo;
use sa_instr::{Instr, Program};
use sa_spaces::{Evict, SpaceDef, Workload};
use std::alloc::Global;

/// What the lines before the spaces say.
#[derive(Clone, Copy)]
pub(crate) struct Header {
    /// The version, 1 to 3.
    pub version: u16,
    /// The number of processors, 1 to 16.
    pub processors: u16,
    /// How many events a fetch takes, 1 to 1,000.
    pub fetch: u32,
    /// The slice, 0 to 1,000,000.
    pub slice: u32,
    /// How many spaces there are, 1 to 16.
    pub count: u16,
}

/// What the lines of a space say so far.
#[derive(Drop)]
pub(crate) struct SpaceDraft {
    pub priority: u8,
    pub mutexes: u16,
    /// How many semaphores there are.
    pub sem_count: u16,
    pub cells: u16,
    /// How many programs there are.
    pub program_count: u16,
    pub patience: u16,
    pub sems: Vec<u32>,
    pub absent: Vec<u16>,
    pub programs: Vec<Program>,
}

/// A line before those of the spaces.
#[derive(Clone, Copy)]
pub(crate) enum MachineLine {
    Version,
    Processors,
    Fetch,
    Slice,
    Spaces,
}

/// The line that comes next.
#[derive(Clone, Copy)]
pub(crate) enum Stage {
    Machine(MachineLine),
    Space,
    Sem,
    /// An absent page, or the first program.
    Absent,
    Program,
    Instr,
    /// An eviction, the first turn or the end.
    Evict,
    /// A further turn or the end.
    Turn,
    /// None.
    Closed,
}

/// A reader after some lines. What is not said yet counts for nothing.
#[derive(Drop)]
pub struct Reader {
    pub(crate) stage: Stage,
    pub(crate) header: Header,
    /// The spaces that are whole.
    pub(crate) spaces: Vec<SpaceDef>,
    /// The space that is read.
    pub(crate) draft: SpaceDraft,
    /// How many instructions the program that is read has.
    pub(crate) len: u16,
    /// Its instructions so far.
    pub(crate) instrs: Vec<Instr>,
    pub(crate) evictions: Vec<Evict>,
    pub(crate) turns: Vec<ProcNo>,
}

impl SpaceDraft {
    /// A draft that says nothing.
    pub(crate) fn new(alloc: Global) -> SpaceDraft {
        SpaceDraft {
            priority: 0,
            mutexes: 0,
            sem_count: 0,
            cells: 0,
            program_count: 0,
            patience: 1,
            sems: Vec::new(alloc),
            absent: Vec::new(alloc),
            programs: Vec::new(alloc),
        }
    }
}

impl Reader {
    /// A reader before the first line.
    pub fn new(alloc: Global) -> Reader
        ensures { position_of result ≡ AtVersion }
    {
        Reader {
            stage: Stage::Machine(MachineLine::Version),
            header: Header {
                version: 1,
                processors: 1,
                fetch: 1,
                slice: 0,
                count: 1,
            },
            spaces: Vec::new(alloc),
            draft: SpaceDraft::new(alloc),
            len: 0,
            instrs: Vec::new(alloc),
            evictions: Vec::new(alloc),
            turns: Vec::new(alloc),
        }
    }

    /// Lets go of the reader with all that it holds. One that goes out of scope is let go too, but by code that is made,
    /// and proved, again in each crate where it does.
    pub fn discard(self) {}

    /// The workload that was read, if no line is to come.
    pub fn finish(self) -> Option<Workload>
        requires { IfSome (closed (position_of self)) IsWorkload }
        ensures { result ≡ closed (position_of self) }
    {
        let Stage::Closed = self.stage else {
            return None;
        };
        let header = self.header;
        Workload::new(
            header.processors,
            header.fetch,
            self.spaces,
            self.evictions,
            self.turns,
        )
        .unwrap()
        .with_slice(header.slice)
    }
}
