// The tests of the hints.
ghost use Rattle.std.specs.Prelude.{◌≡◌};
ghost use Rattle.sa_fast.specs.Hints.{idle_owed, more_owed};

/// How many more processors the space can use than it announced: the difference of `demand` from the smaller of
/// `processors` and `load`, the number of its threads that are ready or run. `None` exactly where the demand is not
/// below that (SOSP 1991, section 3.2).
pub fn more_owed(demand: u16, processors: u16, load: u32) -> Option<u16>
    ensures { result ≡ more_owed demand processors load }
{
    let usable = if u32::from(processors) <= load {
        processors
    } else {
        load as u16
    };
    if usable <= demand {
        return None;
    }
    Some(usable - demand)
}

/// Whether the space announced more than its load, so that a processor without a thread is idle (SOSP 1991,
/// section 3.2).
pub fn idle_owed(demand: u16, load: u32) -> bool
    ensures { result ≡ idle_owed demand load }
{
    u32::from(demand) > load
}
