use sa_base::{PackageName, ProcNo, RulesName};

/// The order of turns that a run is asked for.
#[derive(Clone, Copy)]
pub enum ScheduleWord {
    /// `rr`: each processor in turn.
    RoundRobin,
    /// `seed:N`: by the generator of this seed.
    Seed(u64),
    /// `given`: by the workload's turn lines.
    Given,
    /// `hold:P:N`: the processor, 0 to 15, is held from this event on, 1 to 1,000,000.
    Hold(ProcNo, u64),
}

/// The schedule that an exploration is asked for.
#[derive(Clone, Copy)]
pub enum GiveWord {
    /// `alldone`: the one to all threads done.
    AllDone,
    /// `stuck`: the one to a stuck end.
    Stuck,
    /// `endless`: the one to a state from which no order of turns ever ends.
    Endless,
}

/// What the program is asked to do.
#[derive(Clone, Copy)]
pub enum Command {
    /// Runs the workload of standard input with this user level, for at most that many events, 1 to 1,000,000.
    Run {
        schedule: ScheduleWord,
        budget: u64,
        user_level: PackageName,
    },
    /// Runs the workload of standard input with a host thread for each processor, for at most that many events, 1 to
    /// 1,000,000, in bursts of at most that many instructions, 1 to 64.
    Threads {
        budget: u64,
        burst: u16,
    },
    /// Runs the workload that is made of the number, for at most that many events, 1 to 1,000,000.
    Load {
        number: u64,
        budget: u64,
    },
    /// Writes the workload of standard input with this slice, 1 to 1,000,000.
    Migrate {
        slice: u32,
    },
    /// Runs the workload of standard input on virtual processors, for at most that many events, 1 to 1,000,000.
    Vp {
        schedule: ScheduleWord,
        budget: u64,
    },
    /// Judges the trace text of standard input beside the workload text that comes before it, by these rules.
    Check {
        rules: RulesName,
    },
    /// Debugs the workload of standard input by the script that follows it, for at most that many events, 1 to 1,000,000.
    Debug {
        budget: u64,
    },
    /// Goes through every order of turns of the workload of standard input with this user level, and keeps at most that many
    /// states, 1 to 10,000,000. Where a schedule is asked for, the answer is the workload with that schedule as its turn lines.
    Explore {
        states: u32,
        user_level: PackageName,
        give: Option<GiveWord>,
    },
    /// Runs the workload of standard input, step by step as the replies that follow it say, for at most that many events, 1 to
    /// 1,000,000.
    Kernel {
        schedule: ScheduleWord,
        budget: u64,
    },
}
