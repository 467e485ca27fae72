// A run of the smallest user level on the same core.
use sa_abstract::OneThread;
use sa_base::{End, Item};
use sa_run::run;
use sa_sched::Kind;
use sa_trace::{LineBuffer, print_lines};
use sa_workload::read;
use std::alloc::AllocError;
use std::process::Abort;
use std::test::Fail;

// Two spaces with two cells and one, on one processor.
const LOOKS: &str =
    "workload 1\nprocessors 1\nfetch 10\nspaces 2\nspace 0 0 0 2 1\nprogram 1\nend\nspace 0 0 0 1 1\nprogram 1\nend\nclose\n";

// The last lines of the history, all of processor 0: the first space offers its processor, and the second one looks.
const OFFERED: &str =
    "4 0 idle\n4 0 want 0 0\n4 0 aim 0 1\n4 0 line 0\n5 0 stop 0 - 0\n5 0 move 0 1\n5 0 up 1 1\n5 0 told add 0\n6 0 idle\n";

// The last of these items, as many as the text has lines, are printed so.
fn ends_with(rt: &impl Abort, items: &[Item], count: usize, text: &str) {
    assert!(rt; items.len() >= count);
    let mut lines = LineBuffer::new();
    let _printed = print_lines(&items[items.len() - count..], &mut lines);
    assert!(rt; lines.as_slice() == text.as_bytes());
}

// The first space looks twice, offers its processor, and the second one looks once; the run goes on until then.
#[test]
fn another_user_level_runs(rt: HostRuntime) -> Result<(), Fail> {
    let workload = read(rt.alloc(), LOOKS.as_bytes())?;
    let Ok(ended) = run::<OneThread>(rt.alloc(), workload, Kind::RoundRobin, 100) else {
        return Err(Fail::from(AllocError));
    };
    assert!(rt; ended.end == End::AllDone && ended.events == 6);
    ends_with(&rt, ended.trace.items(), 9, OFFERED);
    Ok(())
}
