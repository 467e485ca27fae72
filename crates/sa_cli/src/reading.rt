// Workloads of the source.
ghost use Rattle.std.specs.Prelude.{◌+◌, ◌≤◌, IfOk, IfErr};
ghost use Rattle.sa_workload.specs.Text.{IsText};
ghost use Rattle.sa_workload.specs.Bad.{BadAt, BadAt1};
ghost use Rattle.sa_io.specs.Input.{LosesAtMost};
ghost use Rattle.sa_cli.specs.Input.{GaveText, GaveSliced};
ghost use Rattle.sa_cli.specs.Refusals.{NothingRead};

use crate::outcome::Status;
use sa_input::{WORKLOAD_LIMIT, refusal_of_long, workload_of};
use sa_instr::MAX_SLICE;
use sa_io::{Source, read_input};
use sa_spaces::Workload;
use sa_workload::{print, read_one};
use std::alloc::Global;

/// The workload of the source.
pub(crate) fn read_workload<S: Source>(alloc: Global, source: &mut S) -> Result<Workload, Status>
    ensures ok { IfOk result (GaveText IsText (S.left source.old) (S.left source.new)) }
    ensures err { IfErr result
        (NothingRead BadAt (S.left source.old) (S.faults source.old) (S.faults source.new)) }
    ensures lost { LosesAtMost (WORKLOAD_LIMIT + 1) (S.left source.old) (S.left source.new) }
    ensures counted { S.faults source.old ≤ S.faults source.new }
{
    let input = read_input(alloc, WORKLOAD_LIMIT, source)?;
    let workload = workload_of(alloc, &input)?;
    Ok(workload)
}

/// The text of the source's workload, which is a text of version 1, with this slice, at most 1,000,000.
pub(crate) fn migrated_text<S: Source>(
    alloc: Global,
    slice: u32,
    source: &mut S,
) -> Result<Vec<u8>, Status>
    requires { slice ≤ MAX_SLICE }
    ensures ok { IfOk result
        (λ text. GaveSliced slice (S.left source.old) (S.left source.new) text.items) }
    ensures err { IfErr result
        (NothingRead BadAt1 (S.left source.old) (S.faults source.old) (S.faults source.new)) }
    ensures lost { LosesAtMost (WORKLOAD_LIMIT + 1) (S.left source.old) (S.left source.new) }
    ensures counted { S.faults source.old ≤ S.faults source.new }
{
    let input = read_input(alloc, WORKLOAD_LIMIT, source)?;
    if input.len() > WORKLOAD_LIMIT {
        return Err(Status::BadWorkload(refusal_of_long(WORKLOAD_LIMIT, &input)));
    }
    let workload = read_one(alloc, &input)?;
    let sliced = workload.with_slice(slice).unwrap();
    let text = print(alloc, &sliced)?;
    Ok(text)
}
