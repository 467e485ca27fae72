// The lines of a schedule.
ghost use Rattle.std.specs.Prelude.{◌≡◌, ◌++◌, OnOk};
ghost use Rattle.std.specs.List.{flat_map};
ghost use Rattle.sa_explore_run.specs.Text.{given_line, turns_from, given_text};

use crate::line::push_line;
use sa_base::ProcNo;
use std::alloc::AllocError;

/// Appends a line for each of the schedule's runs of turns of one processor.
pub(crate) fn push_given(out: &mut Vec<u8>, schedule: &[ProcNo]) -> Result<(), AllocError>
    ensures { OnOk result (out.new.items ≡ out.old.items ++ given_text schedule.now) }
{
    match schedule {
        [] => Ok(()),
        [first, rest @ ..] => push_runs(out, *first, rest),
    }
}

// The same of a turn of the processor and those after it.
fn push_runs(out: &mut Vec<u8>, first: ProcNo, rest: &[ProcNo]) -> Result<(), AllocError>
    ensures { OnOk result (out.new.items ≡ out.old.items ++ flat_map given_line (turns_from first 1 rest.now)) }
{
    let mut proc = first;
    let mut turns = 1;
    for next in rest {
        if *next == proc {
            turns += 1;
        } else {
            push_run(out, proc, turns)?;
            proc = *next;
            turns = 1;
        }
    }
    push_run(out, proc, turns)
}

// Appends the line of that many turns of the processor.
fn push_run(out: &mut Vec<u8>, proc: ProcNo, turns: u64) -> Result<(), AllocError>
    ensures { OnOk result (out.new.items ≡ out.old.items ++ given_line (record { proc = proc; turns = turns })) }
{
    push_line(out, b"given", &[u64::from(proc.0), turns])
}
