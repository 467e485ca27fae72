// What an activation runs.
ghost use Rattle.std.specs.Prelude.{◌≡◌};
ghost use Rattle.sa_prio_model.specs.Urge.{unmarked};

use sa_package_model::Context;

/// What an activation runs: a context of FastThreads, and its mark.
#[derive(Drop)]
pub struct PrioContext {
    pub base: Context,
    /// A ready thread outranked a running one when the context came to an instruction or a look, so it has a pair to serve.
    pub urge: bool,
}

impl PrioContext {
    /// A context without the mark.
    pub fn unmarked(base: Context) -> PrioContext
        ensures { result ≡ unmarked base }
    {
        PrioContext { base, urge: false }
    }
}
