// The package and its opening.
ghost use Rattle.std.specs.Prelude.{◌≡◌, IfOk};
ghost use Rattle.sa_abstract.specs.Setting.{Setting, IsSetting};
ghost use Rattle.sa_prio_model.specs.Step.{started};

use sa_base::{SpaceNo, ThreadNo};
use sa_lists::Ranks;
use sa_package::FastThreads;
use sa_spaces::SpaceDef;
use std::alloc::{AllocError, Global};
use std::marker::Model;

/// The package with thread priorities of one address space: FastThreads with one ready list, in which the threads are in the order
/// of their ranks. The rank of a thread is the number of its program.
#[derive(Drop)]
pub struct PrioThreads {
    pub(crate) base: FastThreads,
    // of each processor, the thread that the space's context there carries
    pub(crate) on: Vec<Option<ThreadNo>>,
}

impl Model for PrioThreads {
    ghost use Rattle.sa_prio_model.specs.Prio.{Prio};

    ghost Value = { Prio };

    ghost view = { λ v. record {
      base = v.base;
      on = v.on.items;
    } };
}

impl PrioThreads {
    /// The package of a space at its opening: thread 0 is ready, all locks are free, and nothing runs. The space has this many
    /// processors at most, 1 to 16, and the fetch of a page takes `fetch` events, 1 to 1,000. Fails only where memory runs
    /// out; no other call can fail so.
    pub fn start(
        alloc: Global,
        space: SpaceNo,
        def: SpaceDef,
        processors: u16,
        fetch: u32,
    ) -> Result<PrioThreads, AllocError>
        requires { IsSetting (record { space = space; def = def; processors = processors; fetch = fetch }) }
        ensures { let setting : Setting = record {
          space = space;
          def = def;
          processors = processors;
          fetch = fetch;
        } in IfOk result (λ user. user ≡ started setting) }
    {
        let on = vec![in alloc; None; usize::from(processors)]?;
        let base = FastThreads::start_with(alloc, Ranks::Many, space, def, processors, fetch)?;
        Ok(PrioThreads { base, on })
    }

    /// FastThreads, over which the package is built.
    pub fn base(&self) -> &FastThreads
        ensures { result.now ≡ self.now.base }
    {
        &self.base
    }

    /// Of each processor, the thread that the space's context there carries.
    pub fn on(&self) -> &[Option<ThreadNo>]
        ensures { result.now ≡ self.now.on }
    {
        self.on.as_slice()
    }
}
