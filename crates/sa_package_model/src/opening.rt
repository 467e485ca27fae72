// The opening of a space.
ghost use Rattle.std.specs.Prelude.{◌≡◌, ◌≤◌, IfOk, None, [], replicate};
ghost use Rattle.sa_abstract.specs.Setting.{Setting, IsSetting};
ghost use Rattle.sa_sync.specs.Sync.{opening};
ghost use Rattle.sa_copies.specs.Copies.{package_ops};
ghost use Rattle.sa_fast.specs.Threads.{unmade, at_start, with_block};
ghost use Rattle.sa_package_model.specs.Step.{started_with, opened};

use crate::package::Package;
use sa_base::{MAX_PROCESSORS, MAX_THREADS, ProcNo, SpaceNo, ThreadNo};
use sa_code::{MAX_LISTS, PackageState, routines};
use sa_copies::make_copies;
use sa_fast::{Block, KeptPlace, Shared, Threads, WorkLists};
use sa_instr::Regs;
use sa_lists::{Ranks, ReadyLists};
use sa_spaces::SpaceDef;
use sa_sync::SyncState;
use std::alloc::{AllocError, Global};

impl Package {
    /// What a package keeps at the opening of its space: thread 0 is ready in list 0, and all locks are free. There are lists
    /// of one rank, one for each processor, or one list of many ranks, in which a thread has the rank of its program's number.
    /// The space has this many processors at most, 1 to 16, and the fetch of a page takes `fetch` events, 1 to 1,000. Fails
    /// only where memory runs out.
    pub fn open(
        alloc: Global,
        ranks: Ranks,
        space: SpaceNo,
        def: SpaceDef,
        processors: u16,
        fetch: u32,
    ) -> Result<Package, AllocError>
        requires { IsSetting (record { space = space; def = def; processors = processors; fetch = fetch }) }
        ensures { let setting : Setting = record {
          space = space;
          def = def;
          processors = processors;
          fetch = fetch;
        } in IfOk result (λ made. made ≡ started_with ranks setting) }
    {
        let shared = open_shared(alloc, ranks, space, &def, processors)?;
        Ok(Package {
            def,
            processors,
            fetch,
            shared,
        })
    }
}

// What all contexts of a space share at its opening. Fails only where memory runs out.
fn open_shared(
    alloc: Global,
    ranks: Ranks,
    space: SpaceNo,
    def: &SpaceDef,
    processors: u16,
) -> Result<Shared, AllocError>
    requires some { 1 ≤ processors }
    requires few { processors ≤ MAX_PROCESSORS }
    ensures { IfOk result (λ shared. shared ≡ record {
      state = record {
        space = space;
        lists = opened ranks processors;
        holders = replicate MAX_LISTS None;
        code = package_ops;
      };
      sync = opening def.now;
      threads = with_block (replicate MAX_THREADS unmade) 0 (at_start 0 KeptPlace.Ready);
      works = replicate MAX_THREADS [];
    }) }
{
    let threads = open_threads(alloc)?;
    let works = WorkLists::new(alloc)?;
    let lists = open_lists(alloc, ranks, processors)?;
    let sync = SyncState::new(alloc, def)?;
    let state = PackageState {
        space,
        lists,
        holders: [None; MAX_LISTS],
        code: make_copies(&routines()),
    };
    Ok(Shared {
        state,
        sync,
        threads,
        works,
    })
}

// The blocks of a space's threads at its opening. Fails only where memory runs out.
fn open_threads(alloc: Global) -> Result<Threads, AllocError>
    ensures { IfOk result (λ threads. threads
        ≡ with_block (replicate MAX_THREADS unmade) 0 (at_start 0 KeptPlace.Ready)) }
{
    let mut threads = Threads::new(alloc)?;
    threads.set(
        ThreadNo(0),
        Block {
            program: 0,
            pc: 0,
            regs: Regs::zero(),
            place: KeptPlace::Ready,
        },
    );
    Ok(threads)
}

// The ready lists of a space at its opening.
fn open_lists(alloc: Global, ranks: Ranks, processors: u16) -> Result<ReadyLists, AllocError>
    requires some { 1 ≤ processors }
    requires few { processors ≤ MAX_PROCESSORS }
    ensures { IfOk result (λ lists. lists ≡ opened ranks processors) }
{
    let count = match ranks {
        Ranks::One => processors,
        Ranks::Many => 1,
    };
    let mut lists = ReadyLists::new(alloc, count, ranks, MAX_THREADS)?;
    let _ = lists.make(0);
    let _ = lists.try_lock(ProcNo(0));
    lists.push(ProcNo(0), ThreadNo(0));
    lists.unlock(ProcNo(0));
    Ok(lists)
}
