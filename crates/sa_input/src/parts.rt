// The two texts of an input: a workload text up to its first line that is `close`, and directly after it another text.
ghost use Rattle.std.specs.Prelude.{◌≡◌, ◌≤◌, length, IfOk, IfErr};
ghost use Rattle.sa_workload.specs.Text.{IsText};
ghost use Rattle.sa_workload.specs.Bad.{BadAt};
ghost use Rattle.sa_workload.specs.Answer.{IfBad};
ghost use Rattle.sa_workload.specs.Texts.{workload_part, second_part};
ghost use Rattle.sa_input.specs.Refusals.{IsInputRefused};

use crate::limits::WORKLOAD_LIMIT;
use crate::refusal::refusal_of_long;
use sa_base::Unread;
use sa_spaces::Workload;
use sa_workload::{read, two_texts};
use std::alloc::Global;

/// The workload of the first text, and the second text.
pub fn parts_of(alloc: Global, input: &[u8]) -> Result<(Workload, &[u8]), Unread>
    ensures short { IfOk result (λ parts. length (workload_part input.now) ≤ WORKLOAD_LIMIT) }
    ensures workload { IfOk result (λ parts. IsText (workload_part input.now) parts.0) }
    ensures second { IfOk result (λ parts. parts.1.now ≡ second_part input.now) }
    ensures err { IfErr result
        (λ unread. IfBad unread (IsInputRefused BadAt (workload_part input.now))) }
{
    let (first, second) = two_texts(input);
    let workload = workload_of(alloc, first)?;
    Ok((workload, second))
}

/// The workload of a text.
pub fn workload_of(alloc: Global, text: &[u8]) -> Result<Workload, Unread>
    ensures ok { IfOk result (λ w. (length text.now ≤ WORKLOAD_LIMIT) × IsText text.now w) }
    ensures err { IfErr result (λ unread. IfBad unread (IsInputRefused BadAt text.now)) }
{
    if text.len() > WORKLOAD_LIMIT {
        return Err(Unread::Bad(refusal_of_long(WORKLOAD_LIMIT, text)));
    }
    read(alloc, text)
}
