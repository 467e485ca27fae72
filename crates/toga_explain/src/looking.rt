// What the table says of a word.
ghost use Rattle.std.specs.Prelude.{◌≡◌, ◌++◌, OnOk};
ghost use Rattle.toga_explain.specs.Explain.{line_by, lines_in, source_lines, trace_lines, other_lines, lines_of};

use crate::topic::{CAUSES, ENDS, INSTRUCTIONS, RECORDS, RULES, SOURCE, STATUSES, Topic};
use std::alloc::AllocError;

/// Appends a line for each topic of a word.
#[tactic(auto, unfolding(crate::specs::Explain::lines_of))]
pub(crate) fn push_lines(out: &mut Vec<u8>, word: &[u8]) -> Result<(), AllocError>
    ensures { OnOk result (out.new.items ≡ out.old.items ++ lines_of word.now) }
{
    push_source(out, word)?;
    push_trace(out, word)?;
    push_others(out, word)
}

// Appends what is said of a word of a source.
#[tactic(auto, unfolding(crate::specs::Explain::source_lines))]
fn push_source(out: &mut Vec<u8>, word: &[u8]) -> Result<(), AllocError>
    ensures { OnOk result (out.new.items ≡ out.old.items ++ source_lines word.now) }
{
    push_found(out, &SOURCE, word)?;
    push_found(out, &INSTRUCTIONS, word)
}

// Appends what is said of a word of a trace.
#[tactic(auto, unfolding(crate::specs::Explain::trace_lines))]
fn push_trace(out: &mut Vec<u8>, word: &[u8]) -> Result<(), AllocError>
    ensures { OnOk result (out.new.items ≡ out.old.items ++ trace_lines word.now) }
{
    push_found(out, &RECORDS, word)?;
    push_found(out, &RULES, word)
}

// Appends what is said of any other word.
#[tactic(auto, unfolding(crate::specs::Explain::other_lines))]
fn push_others(out: &mut Vec<u8>, word: &[u8]) -> Result<(), AllocError>
    ensures { OnOk result (out.new.items ≡ out.old.items ++ other_lines word.now) }
{
    push_found(out, &CAUSES, word)?;
    push_found(out, &ENDS, word)?;
    push_found(out, &STATUSES, word)
}

// Appends a line for each of these topics that has the word.
fn push_found(out: &mut Vec<u8>, topics: &[Topic], word: &[u8]) -> Result<(), AllocError>
    ensures { OnOk result (out.new.items ≡ out.old.items ++ lines_in topics.now word.now) }
{
    for topic in topics {
        push_topic(out, *topic, word)?;
    }
    Ok(())
}

// Appends what is said of the word if it is that of the topic.
fn push_topic(out: &mut Vec<u8>, topic: Topic, word: &[u8]) -> Result<(), AllocError>
    ensures { OnOk result (out.new.items ≡ out.old.items ++ line_by word.now topic) }
{
    if topic.word() != word {
        return Ok(());
    }
    out.extend_from_slice(topic.text())?;
    out.extend_from_slice(b"\n")
}
