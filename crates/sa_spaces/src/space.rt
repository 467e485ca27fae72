// Spaces.
ghost use Rattle.std.specs.Prelude.{◌≡◌, ◌≤◌, ◌<◌, ◌↔◌, IsTrue, SomeIff, IfOk, All, length};
ghost use Rattle.std.specs.List.Sorted.{IsStrictlyIncreasing};
ghost use Rattle.sa_instr.specs.Instr.{NamesDeclared};
ghost use Rattle.sa_instr.specs.Program.{IsProgram};
ghost use Rattle.sa_spaces.specs.Space.{SpaceView, IsSpace};

use sa_instr::{
    Declared, LAST_PAGE, MAX_CELLS, MAX_MUTEXES, MAX_PATIENCE, MAX_PRIORITY, MAX_PROGRAMS,
    MAX_SEMAPHORES, MAX_START, Program,
};
use std::alloc::{AllocError, Global};
use std::marker::Model;

/// A space as a workload declares it: its mutexes, semaphores, cells and programs are numbered from 0.
#[derive(Drop)]
pub struct SpaceDef {
    priority: u8,
    mutexes: u16,
    sems: Vec<u32>,
    cells: u16,
    absent: Vec<u16>,
    programs: Vec<Program>,
    patience: u16,
}

impl Model for SpaceDef {
    ghost use Rattle.sa_spaces.specs.Space.{SpaceView, IsSpace};

    ghost Value = { SpaceView };

    ghost use Rattle.sa_spaces.specs.SpaceFields.{space_of};

    ghost view = { space_of };

    ghost invariant = { λ s. IsSpace (space_of s) };
}

impl SpaceDef {
    /// A space of patience 1. It cannot fail for want of memory.
    ///
    /// `None` exactly where one of these is broken: the priority is 0 to 7; there are 0 to 64 mutexes,
    /// semaphores and cells each, and 1 to 256 programs; a semaphore starts with 0 to 1,000,000; the absent
    /// pages are 0 to 15, each greater than the one before; a program names only what the space declares.
    pub fn new(
        priority: u8,
        mutexes: u16,
        sems: Vec<u32>,
        cells: u16,
        absent: Vec<u16>,
        programs: Vec<Program>,
    ) -> Option<SpaceDef>
        ensures { let space : SpaceView = record {
          priority = priority;
          mutexes = mutexes;
          sems = sems.items;
          cells = cells;
          absent = absent.items;
          programs = programs.items;
          patience = 1;
        } in SomeIff result (IsSpace space) space }
    {
        if !is_space(priority, mutexes, &sems, cells, &absent, &programs) {
            return None;
        }
        Some(SpaceDef {
            priority,
            mutexes,
            sems,
            cells,
            absent,
            programs,
            patience: 1,
        })
    }

    /// The space with this patience. It cannot fail for want of memory.
    ///
    /// `None` exactly where the patience is not 1 to 1,000.
    pub fn with_patience(mut self, patience: u16) -> Option<SpaceDef>
        ensures { SomeIff result ((1 ≤ patience) × (patience ≤ MAX_PATIENCE))
            (record self { patience = patience }) }
    {
        if patience < 1 || patience > MAX_PATIENCE {
            return None;
        }
        self.patience = patience;
        Some(self)
    }

    /// An equal space. Fails only where memory runs out.
    pub fn copy(&self, alloc: Global) -> Result<SpaceDef, AllocError>
        ensures { IfOk result (λ space. space ≡ self.now) }
    {
        Ok(SpaceDef {
            priority: self.priority,
            mutexes: self.mutexes,
            sems: Vec::from_slice(alloc, self.sems.as_slice())?,
            cells: self.cells,
            absent: Vec::from_slice(alloc, self.absent.as_slice())?,
            programs: copy_programs(alloc, self.programs.as_slice())?,
            patience: self.patience,
        })
    }

    /// The priority, 0 to 7: spaces of priority 7 come first.
    pub fn priority(&self) -> u8
        ensures value { result ≡ self.now.priority }
        ensures range { result ≤ MAX_PRIORITY }
    {
        self.priority
    }

    /// The number of mutexes, 0 to 64.
    pub fn mutexes(&self) -> u16
        ensures value { result ≡ self.now.mutexes }
        ensures range { result ≤ MAX_MUTEXES }
    {
        self.mutexes
    }

    /// The count that each semaphore starts with, 0 to 1,000,000; there are 0 to 64 of them.
    pub fn sems(&self) -> &[u32]
        ensures value { result.now ≡ self.now.sems }
        ensures few { length result.now ≤ MAX_SEMAPHORES }
        ensures range { All (λ start. start ≤ MAX_START) result.now }
    {
        self.sems.as_slice()
    }

    /// The number of cells, 0 to 64.
    pub fn cells(&self) -> u16
        ensures value { result ≡ self.now.cells }
        ensures range { result ≤ MAX_CELLS }
    {
        self.cells
    }

    /// The pages that are absent at the opening, 0 to 15, rising.
    pub fn absent(&self) -> &[u16]
        ensures value { result.now ≡ self.now.absent }
        ensures range { All (λ page. page ≤ LAST_PAGE) result.now }
        ensures rise { IsStrictlyIncreasing result.now }
    {
        self.absent.as_slice()
    }

    /// The programs, of which there are 1 to 256.
    pub fn programs(&self) -> &[Program]
        ensures value { result.now ≡ self.now.programs }
        ensures some { 1 ≤ length result.now }
        ensures few { length result.now ≤ MAX_PROGRAMS }
    {
        self.programs.as_slice()
    }

    /// The patience, 1 to 1,000: after that many looks that found no thread, an idle processor is offered to
    /// the kernel.
    pub fn patience(&self) -> u16
        ensures value { result ≡ self.now.patience }
        ensures some { 1 ≤ result }
        ensures range { result ≤ MAX_PATIENCE }
    {
        self.patience
    }

    /// What every space keeps to. It does nothing.
    pub fn ranges(&self)
        ensures { IsSpace self.now }
    {
        let _space = &self.priority;
    }
}

// Whether a space of patience 1 may have these.
fn is_space(
    priority: u8,
    mutexes: u16,
    sems: &[u32],
    cells: u16,
    absent: &[u16],
    programs: &[Program],
) -> bool
    ensures { IsTrue result ↔ IsSpace (record {
      priority = priority;
      mutexes = mutexes;
      sems = sems.now;
      cells = cells;
      absent = absent.now;
      programs = programs.now;
      patience = 1;
    }) }
{
    let declared = Declared {
        mutexes,
        sems: sems.len(),
        cells,
        programs: programs.len(),
    };
    priority <= MAX_PRIORITY
        && declared.is_in_range()
        && are_starts(sems)
        && are_absent_pages(absent)
        && name_only(programs, &declared)
}

// Whether each semaphore's start is in its range, and there are few enough.
fn are_starts(sems: &[u32]) -> bool
    ensures { IsTrue result ↔ ((length sems.now ≤ MAX_SEMAPHORES)
        × All (λ start. start ≤ MAX_START) sems.now) }
{
    sems.len() <= MAX_SEMAPHORES && sems.iter().all(|start| *start <= MAX_START)
}

// Whether the pages are in their range and rise.
fn are_absent_pages(pages: &[u16]) -> bool
    ensures { IsTrue result ↔ (All (λ page. page ≤ LAST_PAGE) pages.now
        × IsStrictlyIncreasing pages.now) }
{
    pages.iter().all(|page| *page <= LAST_PAGE) && rise(pages)
}

// Whether each page is greater than the one before it.
fn rise(pages: &[u16]) -> bool
    ensures { IsTrue result ↔ IsStrictlyIncreasing pages.now }
{
    for i in 1..pages.len() {
        if pages[i] <= pages[i - 1] {
            return false;
        }
    }
    true
}

// Whether the programs name only what is declared.
fn name_only(programs: &[Program], declared: &Declared) -> bool
    ensures { IsTrue result ↔ (All IsProgram programs.now
        × All (All (NamesDeclared declared.now.mutexes declared.now.sems declared.now.cells
        declared.now.programs)) programs.now) }
{
    programs.iter().all(|program| program.names_only(declared))
}

// Equal programs.
fn copy_programs(alloc: Global, programs: &[Program]) -> Result<Vec<Program>, AllocError>
    ensures { IfOk result (λ copies. copies.items ≡ programs.now) }
{
    let mut copies = Vec::new(alloc);
    for program in programs {
        copies.push(program.copy(alloc)?)?;
    }
    Ok(copies)
}
