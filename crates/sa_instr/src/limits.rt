// What a workload may declare, and how long things may take.
ghost use Rattle.std.specs.Prelude.{◌≡◌};

use sa_base::PAGES;

/// The greatest priority of a space; the least is 0.
pub const MAX_PRIORITY: u8 = 7;

/// The most mutexes of a space.
pub const MAX_MUTEXES: u16 = 64;

/// The most semaphores of a space.
pub const MAX_SEMAPHORES: usize = 64;

/// The most cells of a space.
pub const MAX_CELLS: u16 = 64;

/// The greatest count that a semaphore starts with; the least is 0.
pub const MAX_START: u32 = 1_000_000;

/// The most programs of a space; there is at least 1.
pub const MAX_PROGRAMS: usize = 256;

/// The most instructions of a program; there is at least 1.
pub const MAX_INSTRUCTIONS: usize = 4_096;

/// The longest I/O, in events; the shortest takes 1.
pub const MAX_IO_LENGTH: u32 = 1_000_000;

/// The longest fetch of a page, in events; the shortest takes 1.
pub const MAX_FETCH: u32 = 1_000;

/// The most evictions of a workload.
pub const MAX_EVICTIONS: usize = 4_096;

/// The most turns of a workload.
pub const MAX_TURNS: usize = 65_536;

/// The longest slice, in events; 0 is none.
pub const MAX_SLICE: u32 = 1_000_000;

/// The greatest patience, in looks at the ready lists; the least is 1.
pub const MAX_PATIENCE: u16 = 1_000;

/// The last page of a space.
pub const LAST_PAGE: u16 = PAGES - 1;

/// How many registers a thread has.
pub const REGISTERS: usize = 8;

/// The limits of workloads, by number. It does nothing.
pub fn workload_limits_are_these()
    ensures max_priority { MAX_PRIORITY ≡ 7 }
    ensures max_mutexes { MAX_MUTEXES ≡ 64 }
    ensures max_semaphores { MAX_SEMAPHORES ≡ 64 }
    ensures max_cells { MAX_CELLS ≡ 64 }
    ensures max_start { MAX_START ≡ 1000000 }
    ensures max_programs { MAX_PROGRAMS ≡ 256 }
    ensures max_instructions { MAX_INSTRUCTIONS ≡ 4096 }
    ensures max_io_length { MAX_IO_LENGTH ≡ 1000000 }
    ensures max_fetch { MAX_FETCH ≡ 1000 }
    ensures max_evictions { MAX_EVICTIONS ≡ 4096 }
    ensures max_turns { MAX_TURNS ≡ 65536 }
    ensures max_slice { MAX_SLICE ≡ 1000000 }
    ensures max_patience { MAX_PATIENCE ≡ 1000 }
    ensures last_page { LAST_PAGE ≡ 15 }
    ensures registers { REGISTERS ≡ 8 }
{}
