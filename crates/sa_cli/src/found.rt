// What an input of two texts is found to be: a workload text up to its first line that is `close`, and directly after it
// a trace text.
ghost use Rattle.std.specs.Prelude.{◌+◌, ◌≤◌, IfOk, IsErrOf};
ghost use Rattle.sa_io.specs.Faults.{HasRisen};
ghost use Rattle.sa_io.specs.Input.{LosesAtMost};
ghost use Rattle.sa_input.specs.declared.limits.TheConstants.{TRACE_LIMIT};
ghost use Rattle.sa_cli.specs.Texts.{IsFound, GaveFound};

use sa_base::{Bad, RulesName, Unread};
use sa_check::{Verdict, check};
use sa_input::{TRACE_LIMIT, parts_of, refusal_of_long};
use sa_io::{ReadError, Source, read_input};
use std::alloc::{AllocError, Global};

/// What an input of two texts is found to be.
#[derive(Clone, Copy)]
pub enum Found {
    /// A workload and a trace, with this verdict.
    Judged(Verdict),
    /// Its first part is no workload text.
    BadWorkload(Bad),
    /// It is too long, or the rest is no trace text.
    BadTrace(Bad),
}

/// What the input of the source is found to be by these rules.
pub(crate) fn read_found<S: Source>(
    alloc: Global,
    rules: RulesName,
    source: &mut S,
) -> Result<Found, ReadError>
    ensures found { IfOk result (GaveFound rules (S.left source.old) (S.left source.new)) }
    ensures fault { IsErrOf result ReadError.Fault
        → HasRisen (S.faults source.old) (S.faults source.new) }
    ensures lost { LosesAtMost (TRACE_LIMIT + 1) (S.left source.old) (S.left source.new) }
    ensures counted { S.faults source.old ≤ S.faults source.new }
{
    let input = read_input(alloc, TRACE_LIMIT, source)?;
    let found = found_in(alloc, rules, &input)?;
    Ok(found)
}

// What the input is found to be.
fn found_in(alloc: Global, rules: RulesName, input: &[u8]) -> Result<Found, AllocError>
    ensures { IfOk result (IsFound rules input.now) }
{
    if input.len() > TRACE_LIMIT {
        return Ok(Found::BadTrace(refusal_of_long(TRACE_LIMIT, input)));
    }
    let (workload, second) = match parts_of(alloc, input) {
        Ok(parts) => parts,
        Err(Unread::Bad(bad)) => return Ok(Found::BadWorkload(bad)),
        Err(Unread::OutOfMemory) => return Err(AllocError),
    };
    match check(alloc, rules, &workload, second) {
        Ok(verdict) => Ok(Found::Judged(verdict)),
        Err(Unread::Bad(bad)) => Ok(Found::BadTrace(bad)),
        Err(Unread::OutOfMemory) => Err(AllocError),
    }
}
