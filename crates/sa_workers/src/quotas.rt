// How much of a budget is one processor's.
ghost use Rattle.std.specs.Prelude.{◌≡◌, ◌<◌};
ghost use Rattle.sa_workers.specs.Quota.{quota_of};

use sa_base::ProcNo;

/// How many of the first `budget` events are the processor's by round robin. The quotas of all processors add up to the
/// budget.
pub fn quota(budget: u64, processors: u16, p: ProcNo) -> u64
    requires { p.0 < processors }
    ensures { result ≡ quota_of processors p.0 budget }
{
    let processors = u64::from(processors);
    let extra = u64::from(u64::from(p.0) < budget % processors);
    budget / processors + extra
}
