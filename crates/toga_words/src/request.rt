// What the program is asked for.
use sa_base::PackageName;
use sa_command::{GiveWord, ScheduleWord};

/// What the program is asked for. A file is named by its path, and standard input is `-`.
#[derive(Drop)]
pub enum Request<'a> {
    /// Runs a source, for at most that many events, 1 to 1,000,000, and says how it ended. Where files are named it writes the trace, a
    /// page and a picture too.
    Run {
        source: &'a str,
        schedule: ScheduleWord,
        package: PackageName,
        budget: u64,
        trace: Option<&'a str>,
        page: Option<&'a str>,
        picture: Option<&'a str>,
    },
    /// Goes through every order of turns of a source, and keeps at most that many states, 1 to 10,000,000.
    Explore {
        source: &'a str,
        package: PackageName,
        states: u32,
        give: Option<GiveWord>,
        output: Option<&'a str>,
    },
    /// Judges a trace of a source.
    Check {
        source: &'a str,
        trace: &'a str,
        package: PackageName,
    },
    /// Runs a source on virtual processors too, for at most that many events, 1 to 1,000,000.
    Vp {
        source: &'a str,
        schedule: ScheduleWord,
        budget: u64,
        trace: Option<&'a str>,
    },
    /// Writes a source as a workload text.
    Compile {
        source: &'a str,
        output: Option<&'a str>,
    },
    /// Writes a source or a workload text as a source.
    Show {
        source: &'a str,
        output: Option<&'a str>,
    },
    /// Draws a trace, from the one event to the other where they are named, so wide in pixels, 200 to 1,000,000.
    Picture {
        trace: &'a str,
        from: Option<u64>,
        to: Option<u64>,
        width: u64,
        output: Option<&'a str>,
    },
    /// Writes a page of a source and its trace.
    Page {
        source: &'a str,
        trace: &'a str,
        package: PackageName,
        output: Option<&'a str>,
    },
    /// Writes a trace as trace events.
    Events {
        trace: &'a str,
        output: Option<&'a str>,
    },
    /// Says what these words mean, or which words there are.
    Explain {
        words: Vec<&'a str>,
    },
}
