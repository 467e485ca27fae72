// Reading a text.
ghost use Rattle.std.specs.Prelude.{◌≡◌, IfOk, IfErr, Ok};
ghost use Rattle.toga_read.specs.Reading.{Refuses, lines_read, read};

use crate::plain::read_plain;
use crate::source::{Source, source_of};
use crate::unread::Unread;
use std::alloc::Global;
use toga_draft::read_draft;

/// The source that the text is.
///
/// A text that begins with `workload` is a workload text: it is refused exactly as `sa_workload::read` refuses it. Any other is `Wrong`
/// with the first error of its form in the order of its lines, else with the first of its names, else that its workload text is too long.
#[tactic(auto, unfolding(crate::specs::Reading::read))]
pub fn read_source(alloc: Global, text: &[u8]) -> Result<Source, Unread>
    ensures ok { IfOk result (λ source. read text.now ≡ Ok source) }
    ensures err { IfErr result (λ unread. Refuses unread (read text.now)) }
{
    if text.starts_with(b"workload") {
        read_plain(alloc, text)
    } else {
        read_lines(alloc, text)
    }
}

// The source that the lines of the text say.
#[tactic(auto, unfolding(crate::specs::Reading::lines_read))]
fn read_lines(alloc: Global, text: &[u8]) -> Result<Source, Unread>
    ensures ok { IfOk result (λ source. lines_read text.now ≡ Ok source) }
    ensures err { IfErr result (λ unread. Refuses unread (lines_read text.now)) }
{
    let draft = read_draft(alloc, text)?;
    Ok(source_of(alloc, &draft)?)
}
