// What a run may have at most.
ghost use Rattle.std.specs.Prelude.{◌≡◌};

/// The most processors of a machine; there is at least 1.
pub const MAX_PROCESSORS: u16 = 16;

/// The most address spaces of a workload; there is at least 1.
pub const MAX_SPACES: usize = 16;

/// The most threads that a space ever makes, its first among them.
pub const MAX_THREADS: u16 = 512;

/// The pages of a space, which are numbered from 0.
pub const PAGES: u16 = 16;

/// The page that an upcall needs.
pub const UPCALL_PAGE: u16 = 0;

/// The page that the package's operations on ready lists need.
pub const PACKAGE_PAGE: u16 = 1;

/// The first page of the threads' own, which reach to the last one.
pub const FIRST_THREAD_PAGE: u16 = 2;

/// The most events of a run, and so the greatest budget; the least is 1.
pub const MAX_EVENTS: u64 = 1_000_000;

/// The budget of a run where none is given, in events.
pub const DEFAULT_BUDGET: u64 = 100_000;

/// The most instructions of a burst; the least is 1.
pub const MAX_BURST: u16 = 64;

/// The burst where none is given, in instructions.
pub const DEFAULT_BURST: u16 = 16;

/// The taken activations of a space at which they are given back in bulk (SOSP 1991, section 4.3).
pub const BULK_RETURN: u32 = 8;

/// The limits of runs, by number. It does nothing.
pub fn run_limits_are_these()
    ensures max_processors { MAX_PROCESSORS ≡ 16 }
    ensures max_spaces { MAX_SPACES ≡ 16 }
    ensures max_threads { MAX_THREADS ≡ 512 }
    ensures pages { PAGES ≡ 16 }
    ensures upcall_page { UPCALL_PAGE ≡ 0 }
    ensures package_page { PACKAGE_PAGE ≡ 1 }
    ensures first_thread_page { FIRST_THREAD_PAGE ≡ 2 }
    ensures max_events { MAX_EVENTS ≡ 1000000 }
    ensures default_budget { DEFAULT_BUDGET ≡ 100000 }
    ensures max_burst { MAX_BURST ≡ 64 }
    ensures default_burst { DEFAULT_BURST ≡ 16 }
    ensures bulk_return { BULK_RETURN ≡ 8 }
{}
