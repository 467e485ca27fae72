// What is written of cells along a trace.
ghost use Rattle.std.specs.Prelude.{◌≡◌, [], IfOk};
ghost use Rattle.sa_check_moment.specs.Seen.{seen};

mod walk;

use sa_base::{ActNo, RulesName};
use sa_cells::View;
use sa_spaces::Workload;
use std::alloc::{AllocError, Global};
pub(crate) use walk::push_shown;

/// One moment twice: the one goes along an event, and the other follows once the cells of both were compared.
#[derive(Drop)]
pub(crate) struct Pair {
    pub(crate) before: View,
    pub(crate) now: View,
    // All ups so far, in order.
    pub(crate) ups: Vec<ActNo>,
    ghost same: { seen before.moment ≡ seen now.moment },
}

impl Pair {
    ghost use Rattle.sa_check_moment.specs.Seen.{opened};

    /// Before any record of a trace of this workload.
    pub(crate) fn start(
        alloc: Global,
        rules: RulesName,
        workload: &Workload,
    ) -> Result<Pair, AllocError>
        ensures moment { IfOk result (λ pair. seen pair.now.moment ≡ opened rules workload.now) }
        ensures ups { IfOk result (λ pair. pair.ups.items ≡ []) }
    {
        Ok(Pair {
            before: View::start(alloc, rules, workload)?,
            now: View::start(alloc, rules, workload)?,
            ups: Vec::new(alloc),
        })
    }
}
