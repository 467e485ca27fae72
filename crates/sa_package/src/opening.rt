// The opening of a space.
ghost use Rattle.std.specs.Prelude.{◌≡◌, IfOk};
ghost use Rattle.sa_abstract.specs.Setting.{Setting, IsSetting};
ghost use Rattle.sa_package_model.specs.Step.{started, started_with};

use crate::package::FastThreads;
use sa_base::SpaceNo;
use sa_lists::Ranks;
use sa_package_model::Package;
use sa_spaces::SpaceDef;
use std::alloc::{AllocError, Global};

impl FastThreads {
    /// FastThreads of a space at its opening: there is a ready list for each processor, thread 0 is ready in list 0, and
    /// all locks are free. The space has this many processors at most, 1 to 16, and the fetch of a page takes `fetch` events,
    /// 1 to 1,000. Fails only where memory runs out; no other call can fail so.
    pub fn start(
        alloc: Global,
        space: SpaceNo,
        def: SpaceDef,
        processors: u16,
        fetch: u32,
    ) -> Result<FastThreads, AllocError>
        requires { IsSetting (record { space = space; def = def; processors = processors; fetch = fetch }) }
        ensures { let setting : Setting = record {
          space = space;
          def = def;
          processors = processors;
          fetch = fetch;
        } in IfOk result (λ user. user ≡ started setting) }
    {
        FastThreads::start_with(alloc, Ranks::One, space, def, processors, fetch)
    }

    /// The same over lists of one rank, one for each processor, or over one list of many ranks, in which a thread has the
    /// rank of its program's number.
    pub fn start_with(
        alloc: Global,
        ranks: Ranks,
        space: SpaceNo,
        def: SpaceDef,
        processors: u16,
        fetch: u32,
    ) -> Result<FastThreads, AllocError>
        requires { IsSetting (record { space = space; def = def; processors = processors; fetch = fetch }) }
        ensures { let setting : Setting = record {
          space = space;
          def = def;
          processors = processors;
          fetch = fetch;
        } in IfOk result (λ user. user ≡ started_with ranks setting) }
    {
        let package = Package::open(alloc, ranks, space, def, processors, fetch)?;
        Ok(FastThreads { package })
    }
}
