// Workloads.
ghost use Rattle.std.specs.Prelude.{◌≡◌, ◌≤◌, ◌<◌, ◌↔◌, IsTrue, SomeIff, IfOk, All, length};
ghost use Rattle.std.specs.List.{AllAdjacentBelow};
ghost use Rattle.sa_spaces.specs.Space.{IsSpace};
ghost use Rattle.sa_spaces.specs.Workload.{IsWorkload};

use crate::space::SpaceDef;
use sa_base::{MAX_EVENTS, MAX_PROCESSORS, MAX_SPACES, ProcNo, SpaceNo};
use sa_instr::{LAST_PAGE, MAX_EVICTIONS, MAX_FETCH, MAX_SLICE, MAX_TURNS};
use std::alloc::{AllocError, Global};
use std::marker::Model;

/// From this event on, the page of the space is absent until it is fetched.
#[derive(Clone, Copy)]
pub struct Evict {
    /// The event, 1 to 1,000,000.
    pub event: u64,
    /// A space of the workload.
    pub space: SpaceNo,
    /// The page, 0 to 15.
    pub page: u16,
}

impl Evict {
    ghost use Rattle.sa_spaces.specs.Workload.{IsEviction, IsBefore};

    // Whether it is of a page of one of that many spaces, at an event that a run can have.
    fn is_in_range(&self, spaces: usize) -> bool
        ensures { IsTrue result ↔ IsEviction spaces self.now }
    {
        1 <= self.event
            && self.event <= MAX_EVENTS
            && (self.space.0 as usize) < spaces
            && self.page <= LAST_PAGE
    }

    // Whether it comes before the other, by the event, then by the space, then by the page.
    fn is_before(&self, other: &Evict) -> bool
        ensures { IsTrue result ↔ IsBefore self.now other.now }
    {
        if self.event != other.event {
            return self.event < other.event;
        }
        if self.space.0 != other.space.0 {
            return self.space.0 < other.space.0;
        }
        self.page < other.page
    }

    // Whether the evictions are few enough, each in its range and before the next.
    fn are_in_order(evictions: &[Evict], spaces: usize) -> bool
        ensures { IsTrue result ↔ ((length evictions.now ≤ MAX_EVICTIONS)
            × All (IsEviction spaces) evictions.now
            × AllAdjacentBelow IsBefore evictions.now (length evictions.now)) }
    {
        evictions.len() <= MAX_EVICTIONS
            && evictions.iter().all(|evict| evict.is_in_range(spaces))
            && Evict::rise(evictions)
    }

    // Whether each eviction is before the next.
    fn rise(evictions: &[Evict]) -> bool
        ensures { IsTrue result ↔ AllAdjacentBelow IsBefore evictions.now (length evictions.now) }
    {
        for i in 1..evictions.len() {
            if !evictions[i - 1].is_before(&evictions[i]) {
                return false;
            }
        }
        true
    }
}

/// What a run is given: the machine, its spaces, and what comes to them from outside.
#[derive(Drop)]
pub struct Workload {
    processors: u16,
    fetch: u32,
    spaces: Vec<SpaceDef>,
    evictions: Vec<Evict>,
    turns: Vec<ProcNo>,
    slice: u32,
}

impl Model for Workload {
    ghost use Rattle.sa_spaces.specs.Workload.{WorkloadView, IsWorkload};

    ghost Value = { WorkloadView };

    ghost use Rattle.sa_spaces.specs.WorkloadFields.{workload_of};

    ghost view = { workload_of };

    ghost invariant = { λ w. IsWorkload (workload_of w) };
}

impl Workload {
    ghost use Rattle.sa_spaces.specs.Workload.{WorkloadView, IsWorkload, IsEviction, IsBefore};

    /// A workload of slice 0. It cannot fail for want of memory.
    ///
    /// `None` exactly where one of these is broken: there are 1 to 16 processors and 1 to 16 spaces; a fetch
    /// takes 1 to 1,000 events; there are at most 4,096 evictions, each of an event from 1 to 1,000,000, of
    /// one of the spaces and of a page from 0 to 15, and each greater than the one before; there are at most
    /// 65,536 turns, each of one of the processors.
    pub fn new(
        processors: u16,
        fetch: u32,
        spaces: Vec<SpaceDef>,
        evictions: Vec<Evict>,
        turns: Vec<ProcNo>,
    ) -> Option<Workload>
        ensures { let workload : WorkloadView = record {
          processors = processors;
          fetch = fetch;
          spaces = spaces.items;
          evictions = evictions.items;
          turns = turns.items;
          slice = 0;
        } in SomeIff result (IsWorkload workload) workload }
    {
        if !is_workload(processors, fetch, &spaces, &evictions, &turns) {
            return None;
        }
        Some(Workload {
            processors,
            fetch,
            spaces,
            evictions,
            turns,
            slice: 0,
        })
    }

    /// The workload with this slice. It cannot fail for want of memory.
    ///
    /// `None` exactly where the slice is above 1,000,000.
    pub fn with_slice(mut self, slice: u32) -> Option<Workload>
        ensures { SomeIff result (slice ≤ MAX_SLICE) (record self { slice = slice }) }
    {
        if slice > MAX_SLICE {
            return None;
        }
        self.slice = slice;
        Some(self)
    }

    /// An equal workload. Fails only where memory runs out.
    pub fn copy(&self, alloc: Global) -> Result<Workload, AllocError>
        ensures { IfOk result (λ workload. workload ≡ self.now) }
    {
        Ok(Workload {
            processors: self.processors,
            fetch: self.fetch,
            evictions: Vec::from_slice(alloc, self.evictions.as_slice())?,
            turns: Vec::from_slice(alloc, self.turns.as_slice())?,
            spaces: copy_spaces(alloc, self.spaces.as_slice())?,
            slice: self.slice,
        })
    }

    /// The number of processors, 1 to 16.
    pub fn processors(&self) -> u16
        ensures value { result ≡ self.now.processors }
        ensures some { 1 ≤ result }
        ensures few { result ≤ MAX_PROCESSORS }
    {
        self.processors
    }

    /// How many events the fetch of a page takes, 1 to 1,000.
    pub fn fetch(&self) -> u32
        ensures value { result ≡ self.now.fetch }
        ensures some { 1 ≤ result }
        ensures short { result ≤ MAX_FETCH }
    {
        self.fetch
    }

    /// The spaces, of which there are 1 to 16.
    pub fn spaces(&self) -> &[SpaceDef]
        ensures value { result.now ≡ self.now.spaces }
        ensures some { 1 ≤ length result.now }
        ensures few { length result.now ≤ MAX_SPACES }
        ensures spaces { All IsSpace result.now }
    {
        self.spaces.as_slice()
    }

    /// The evictions, at most 4,096, in order.
    pub fn evictions(&self) -> &[Evict]
        ensures value { result.now ≡ self.now.evictions }
        ensures few { length result.now ≤ MAX_EVICTIONS }
        ensures range { All (IsEviction (length self.now.spaces)) result.now }
        ensures rise { AllAdjacentBelow IsBefore result.now (length result.now) }
    {
        self.evictions.as_slice()
    }

    /// The processors of the first turns, at most 65,536.
    pub fn turns(&self) -> &[ProcNo]
        ensures value { result.now ≡ self.now.turns }
        ensures few { length result.now ≤ MAX_TURNS }
        ensures range { All (λ proc. proc.0 < self.now.processors) result.now }
    {
        self.turns.as_slice()
    }

    /// After how many events the remainder of the processors rotates, 0 to 1,000,000; 0 is never.
    pub fn slice(&self) -> u32
        ensures value { result ≡ self.now.slice }
        ensures range { result ≤ MAX_SLICE }
    {
        self.slice
    }

    /// What every workload keeps to. It does nothing.
    pub fn ranges(&self)
        ensures { IsWorkload self.now }
    {
        let _workload = &self.processors;
    }
}

// Whether a workload of slice 0 may have these.
fn is_workload(
    processors: u16,
    fetch: u32,
    spaces: &[SpaceDef],
    evictions: &[Evict],
    turns: &[ProcNo],
) -> bool
    ensures { IsTrue result ↔ IsWorkload (record {
      processors = processors;
      fetch = fetch;
      spaces = spaces.now;
      evictions = evictions.now;
      turns = turns.now;
      slice = 0;
    }) }
{
    show_ranges(spaces);
    is_machine(processors, fetch, spaces.len())
        && Evict::are_in_order(evictions, spaces.len())
        && are_turns(turns, processors)
}

// Whether a machine may have that many processors and spaces, and take that long for a fetch.
fn is_machine(processors: u16, fetch: u32, spaces: usize) -> bool
    ensures { IsTrue result ↔ ((1 ≤ processors) × (processors ≤ MAX_PROCESSORS)
        × (1 ≤ fetch) × (fetch ≤ MAX_FETCH) × (1 ≤ spaces) × (spaces ≤ MAX_SPACES)) }
{
    1 <= processors
        && processors <= MAX_PROCESSORS
        && 1 <= fetch
        && fetch <= MAX_FETCH
        && 1 <= spaces
        && spaces <= MAX_SPACES
}

// Whether there are few enough turns, each of one of that many processors.
fn are_turns(turns: &[ProcNo], processors: u16) -> bool
    ensures { IsTrue result ↔ ((length turns.now ≤ MAX_TURNS)
        × All (λ proc. proc.0 < processors) turns.now) }
{
    turns.len() <= MAX_TURNS && turns.iter().all(|proc| proc.0 < processors)
}

// Each space keeps to its ranges. It does nothing.
fn show_ranges(spaces: &[SpaceDef])
    ensures { All IsSpace spaces.now }
{
    for space in spaces {
        space.ranges();
    }
}

// Equal spaces.
fn copy_spaces(alloc: Global, spaces: &[SpaceDef]) -> Result<Vec<SpaceDef>, AllocError>
    ensures { IfOk result (λ copies. copies.items ≡ spaces.now) }
{
    let mut copies = Vec::new(alloc);
    for space in spaces {
        copies.push(space.copy(alloc)?)?;
    }
    Ok(copies)
}
