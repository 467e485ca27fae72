//! `sa`: reads a workload from standard input, runs it, and writes its trace to standard output.
#![tactic(auto)]

mod ticker;

use crate::ticker::Ticker;
use sa_cli::{Status, run_program};
use sa_io::{StdSink, StdSource};
use std::env;
use std::io::{self, IsTerminal};
use std::process::ExitCode;

fn main(rt: HostRuntime) -> ExitCode {
    let args = env::args(&rt);
    let mut source = StdSource::new(rt.reader());
    let mut sink = StdSink::new(io::writer(&rt));
    let mut ticker = Ticker::new(&rt, rt.stderr().is_terminal());
    let outcome = run_program(&rt, rt.alloc(), args, &mut source, &mut sink, &mut ticker);
    // Where standard error takes nothing, the exit status still tells.
    let _ = report(&rt, outcome.status);
    ExitCode::from(outcome.status.code())
}

// Says on standard error why the command was not done.
fn report(rt: &impl Eprint, status: Status) -> io::Result<()> {
    match status {
        Status::Usage => eprintln!(rt; "usage: sa COMMAND [OPTION VALUE]..."),
        Status::BadWorkload(bad) => eprintln!(rt; "bad workload: {bad}"),
        Status::BadTrace(bad) => eprintln!(rt; "bad trace: {bad}"),
        Status::BadScript(bad) => eprintln!(rt; "bad script: {bad}"),
        Status::BadReply(bad) => eprintln!(rt; "bad reply: {bad}"),
        Status::ReadFault => eprintln!(rt; "read fault"),
        Status::WriteFault => eprintln!(rt; "write fault"),
        Status::OutOfMemory => eprintln!(rt; "out of memory"),
        Status::AllDone | Status::Stuck | Status::Budget | Status::Migrated => Ok(()),
        Status::Checked | Status::Broken(..) | Status::Quit | Status::Explored(_) => Ok(()),
    }
}
