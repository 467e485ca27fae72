//! `sa_picture`: reads a trace text from standard input, and writes a picture of it to standard output, as one SVG file, or its trace
//! events; or reads a workload and its trace, and writes a page that shows them event by event, as one HTML file.
#![tactic(auto)]

mod paged;
mod request;
mod status;
mod top;

use sa_io::{StdSink, StdSource};
use status::Status;
use std::process::ExitCode;
use std::{env, io};
use top::draw_program;

fn main(rt: HostRuntime) -> ExitCode {
    let args = env::args(&rt);
    let mut source = StdSource::new(rt.reader());
    let mut sink = StdSink::new(io::writer(&rt));
    let status = draw_program(rt.alloc(), args, &mut source, &mut sink);
    // Where standard error takes nothing, the exit status still tells.
    let _ = report(&rt, status);
    ExitCode::from(status.code())
}

/// Says on standard error why nothing was drawn.
fn report(rt: &impl Eprint, status: Status) -> io::Result<()> {
    match status {
        Status::Usage => {
            eprintln!(rt;
                "usage: sa_picture [--form svg] [--from EVENT] [--to EVENT] [--width PIXELS], sa_picture --form events, or sa_picture --form page [--package fast|prio|any]"
            )
        }
        Status::BadWorkload(bad) => eprintln!(rt; "bad workload: {bad}"),
        Status::BadTrace(bad) => eprintln!(rt; "bad trace: {bad}"),
        Status::TooMuch => {
            eprintln!(rt;
                "too much to draw: at most 16 processors and 16 spaces; a picture has at most 10000 events and 40000 lines (for a part of more: --from, --to; for all of it: --form page, at most 100000 events); trace events have at most 512 threads of a space"
            )
        }
        Status::ReadFault => eprintln!(rt; "read fault"),
        Status::WriteFault => eprintln!(rt; "write fault"),
        Status::OutOfMemory => eprintln!(rt; "out of memory"),
        Status::Drawn => Ok(()),
    }
}
