// The opening of a run.
ghost use Rattle.std.specs.Prelude.{◌≡◌, ◌≤◌, [], ◌∷◌, length, replicate, IfOk};
ghost use Rattle.sa_base.specs.declared.limits.TheConstants.{MAX_PROCESSORS};
ghost use Rattle.sa_vp_model.specs.Board.{empty, first_ready, opened, act_numbers};
ghost use Rattle.sa_virtual.specs.Virtual.{opening_queue};
ghost use Rattle.sa_vp.specs.View.{board_of};
ghost use Rattle.sa_vp.specs.Opening.{IsOpeningTable, AreOpeningRows};

use crate::board::Parts;
use crate::queue::{fill, opening_numbers};
use crate::ready::Ready;
use sa_base::{ActNo, MAX_THREADS, ProcNo, ThreadNo, Trace};
use sa_devices::Devices;
use sa_links::Links;
use sa_replay::Replay;
use sa_spaces::Workload;
use sa_vp_model::VIRTUALS;
use std::alloc::{AllocError, Global};

// The queue at the opening: place 0 of each space, then place 1, and so on. Fails only where memory runs out.
fn opening_queue(alloc: Global, w: &Workload) -> Result<Links, AllocError>
    ensures { IfOk result (λ queue. queue ≡ record { nodes = VIRTUALS; lists = act_numbers (opening_queue w.now) ∷ [] }) }
{
    w.ranges();
    let numbers = opening_numbers(alloc, w.spaces().len() as u16, w.processors())?;
    let mut queue = Links::new(alloc, VIRTUALS, 1)?;
    fill(&mut queue, numbers.as_slice());
    Ok(queue)
}

// The ready lists of the spaces: thread 0 is ready at place 0. Fails only where memory runs out.
fn opening_ready(alloc: Global, spaces: usize, lists: u16) -> Result<Vec<Ready>, AllocError>
    requires some { 1 ≤ lists }
    requires few { lists ≤ MAX_PROCESSORS }
    ensures { IfOk result (λ ready. ready.items ≡ replicate spaces (first_ready lists)) }
{
    let mut rows = Vec::new(alloc);
    for row in 0..spaces {
        let mut ready = Ready::new(alloc, lists)?;
        ready.push(ProcNo(0), ThreadNo(0));
        rows.push(ready)?;
    }
    Ok(rows)
}

// The work lists of the spaces. Fails only where memory runs out.
fn opening_work(alloc: Global, spaces: usize, lists: u16) -> Result<Vec<Links>, AllocError>
    ensures { IfOk result (λ work. work.items ≡ replicate spaces (empty lists)) }
{
    let mut rows = Vec::new(alloc);
    for row in 0..spaces {
        rows.push(Links::new(alloc, u32::from(MAX_THREADS), u32::from(lists))?)?;
    }
    Ok(rows)
}

// What is kept of virtual processors at the opening, but for their lists.
#[derive(Drop)]
struct Tables {
    placed: Vec<Option<ActNo>>,
    threads: Vec<Option<ThreadNo>>,
    steps: Vec<u32>,
    blocked: Vec<u32>,
    lost: Vec<u64>,
}

// The tables of the spaces and processors. Fails only where memory runs out.
fn opening_tables(alloc: Global, spaces: usize, processors: u16) -> Result<Tables, AllocError>
    ensures { IfOk result (IsOpeningTable spaces processors) }
{
    Ok(Tables {
        placed: vec![in alloc; None; usize::from(processors)]?,
        threads: vec![in alloc; None; VIRTUALS as usize]?,
        steps: vec![in alloc; 0; VIRTUALS as usize]?,
        blocked: vec![in alloc; 0; spaces]?,
        lost: vec![in alloc; 0; spaces]?,
    })
}

// The lists of the spaces at the opening.
#[derive(Drop)]
struct Rows {
    queue: Links,
    ready: Vec<Ready>,
    work: Vec<Links>,
}

// The lists of a workload. Fails only where memory runs out.
fn opening_rows(alloc: Global, w: &Workload) -> Result<Rows, AllocError>
    ensures { IfOk result (AreOpeningRows w.now) }
{
    w.ranges();
    let spaces = w.spaces().len();
    Ok(Rows {
        queue: opening_queue(alloc, w)?,
        ready: opening_ready(alloc, spaces, w.processors())?,
        work: opening_work(alloc, spaces, w.processors())?,
    })
}

// All that is kept in tables and lists.
#[derive(Drop)]
struct Kept {
    tables: Tables,
    rows: Rows,
}

// The tables and the lists of a workload. Fails only where memory runs out.
fn opening_kept(alloc: Global, w: &Workload) -> Result<Kept, AllocError>
    ensures tables { IfOk result (λ kept. IsOpeningTable (length w.now.spaces) w.now.processors kept.tables) }
    ensures rows { IfOk result (λ kept. AreOpeningRows w.now kept.rows) }
{
    let tables = opening_tables(alloc, w.spaces().len(), w.processors())?;
    Ok(Kept {
        tables,
        rows: opening_rows(alloc, w)?,
    })
}

impl Parts {
    /// The opening of a workload. Fails only where memory runs out.
    pub(crate) fn start(alloc: Global, w: &Workload) -> Result<Parts, AllocError>
        ensures { IfOk result (λ m. board_of m ≡ opened w.now) }
    {
        let devices = Devices::new(alloc, w)?;
        let Kept { tables, rows } = opening_kept(alloc, w)?;
        let replay = Replay::start(alloc, w)?;
        Ok(Parts {
            replay,
            devices,
            queue: rows.queue,
            placed: tables.placed,
            threads: tables.threads,
            steps: tables.steps,
            ready: rows.ready,
            work: rows.work,
            due: 0,
            blocked: tables.blocked,
            lost: tables.lost,
            trace: Trace::new(alloc),
            number: 1,
        })
    }
}
