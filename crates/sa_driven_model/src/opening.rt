// The opening of a space.
ghost use Rattle.std.specs.Prelude.{◌≡◌, IfOk, None, [], replicate};
ghost use Rattle.sa_abstract.specs.Setting.{Setting, IsSetting};
ghost use Rattle.sa_sync.specs.Sync.{opening};
ghost use Rattle.sa_fast.specs.Threads.{unmade, at_start, with_block};
ghost use Rattle.sa_driven_model.specs.Step.{opened_lists, opened_shared, started};

use crate::space::DrivenSpace;
use crate::threads::ThreadSet;
use sa_base::{MAX_THREADS, SpaceNo, ThreadNo};
use sa_code::{Code, MAX_LISTS, PackageState};
use sa_fast::{Block, KeptPlace, Shared, Threads, WorkLists};
use sa_instr::Regs;
use sa_lists::{Ranks, ReadyLists};
use sa_package_model::Package;
use sa_spaces::SpaceDef;
use sa_sync::SyncState;
use std::alloc::{AllocError, Global};

impl DrivenSpace {
    /// What is kept at the opening of a space: thread 0 is ready, and there is no reply. The space has this many processors
    /// at most, 1 to 16, and the fetch of a page takes `fetch` events, 1 to 1,000. Fails only where memory runs out.
    pub fn open(
        alloc: Global,
        space: SpaceNo,
        def: SpaceDef,
        processors: u16,
        fetch: u32,
    ) -> Result<DrivenSpace, AllocError>
        requires { IsSetting (record { space = space; def = def; processors = processors; fetch = fetch }) }
        ensures { let setting : Setting = record {
          space = space;
          def = def;
          processors = processors;
          fetch = fetch;
        } in IfOk result (λ made. made ≡ started setting) }
    {
        let shared = open_shared(alloc, space, &def)?;
        Ok(DrivenSpace {
            base: Package {
                def,
                processors,
                fetch,
                shared,
            },
            handed: ThreadSet::new(),
            reply: None,
        })
    }
}

// What all contexts of a space share at its opening. Fails only where memory runs out.
fn open_shared(alloc: Global, space: SpaceNo, def: &SpaceDef) -> Result<Shared, AllocError>
    ensures { IfOk result (λ shared. shared ≡ opened_shared space def.now) }
{
    let threads = open_threads(alloc)?;
    let works = WorkLists::new(alloc)?;
    let lists = open_lists(alloc)?;
    let sync = SyncState::new(alloc, def)?;
    let state = PackageState {
        space,
        lists,
        holders: [None; MAX_LISTS],
        code: Code::new(&[]),
    };
    Ok(Shared {
        state,
        sync,
        threads,
        works,
    })
}

// The blocks of a space's threads at its opening. Fails only where memory runs out.
fn open_threads(alloc: Global) -> Result<Threads, AllocError>
    ensures { IfOk result (λ threads. threads
        ≡ with_block (replicate MAX_THREADS unmade) 0 (at_start 0 KeptPlace.Ready)) }
{
    let mut threads = Threads::new(alloc)?;
    threads.set(
        ThreadNo(0),
        Block {
            program: 0,
            pc: 0,
            regs: Regs::zero(),
            place: KeptPlace::Ready,
        },
    );
    Ok(threads)
}

// One list, which stays empty: thread 0 was made. Fails only where memory runs out.
fn open_lists(alloc: Global) -> Result<ReadyLists, AllocError>
    ensures { IfOk result (λ lists. lists ≡ opened_lists) }
{
    let mut lists = ReadyLists::new(alloc, 1, Ranks::One, MAX_THREADS)?;
    let _ = lists.make(0);
    Ok(lists)
}
