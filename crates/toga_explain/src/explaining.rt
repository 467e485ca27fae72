// What is said of words, and the list of all.
ghost use Rattle.std.specs.Prelude.{◌≡◌, ◌++◌, map, drop, IfOk, OnOk};
ghost use Rattle.std.specs.Option.{option_map};
ghost use Rattle.toga_explain.specs.Explain.{words_in, group, source_list, trace_list, other_list, list_text, spaced, joined, unless_empty, explained, lines_of};

use crate::looking::push_lines;
use crate::topic::{CAUSES, ENDS, INSTRUCTIONS, RECORDS, RULES, SOURCE, STATUSES, Topic};
use std::alloc::{AllocError, Global};

/// What is said of the words, which are one with a space between them: a line for each topic of the table; without words the
/// list of all. `None` exactly if it is unknown. The only error is want of memory.
pub fn explain(alloc: Global, words: &[&str]) -> Result<Option<Vec<u8>>, AllocError>
    ensures { IfOk result (λ text. option_map (λ v. v.items) text ≡ explained (map (λ w. w.now) words.now)) }
{
    if words.len() == 0 {
        return Ok(Some(list(alloc)?));
    }
    said_of(alloc, words)
}

// What is said of some words.
fn said_of(alloc: Global, words: &[&str]) -> Result<Option<Vec<u8>>, AllocError>
    ensures { IfOk result (λ text. option_map (λ v. v.items) text ≡ unless_empty (lines_of (joined (map (λ w. w.now) words.now)))) }
{
    let mut spaced = Vec::new(alloc);
    push_spaced(&mut spaced, words)?;
    let mut out = Vec::new(alloc);
    push_lines(&mut out, without_first(&spaced))?;
    if out.len() == 0 {
        return Ok(None);
    }
    Ok(Some(out))
}

// The bytes after the first.
fn without_first(bytes: &[u8]) -> &[u8]
    ensures { result.now ≡ drop 1 bytes.now }
{
    match bytes {
        [] => &[],
        [_, rest @ ..] => rest,
    }
}

// Appends each word after a space.
fn push_spaced(out: &mut Vec<u8>, words: &[&str]) -> Result<(), AllocError>
    ensures { OnOk result (out.new.items ≡ out.old.items ++ spaced (map (λ w. w.now) words.now)) }
{
    for word in words {
        out.extend_from_slice(b" ")?;
        out.extend_from_slice(word.as_bytes())?;
    }
    Ok(())
}

// The list of all words.
#[tactic(auto, unfolding(crate::specs::Explain::list_text))]
fn list(alloc: Global) -> Result<Vec<u8>, AllocError>
    ensures { IfOk result (λ text. text.items ≡ list_text) }
{
    let mut out = Vec::new(alloc);
    push_source_list(&mut out)?;
    push_trace_list(&mut out)?;
    push_other_list(&mut out)?;
    Ok(out)
}

// Appends the words of a source.
#[tactic(auto, unfolding(crate::specs::Explain::source_list))]
fn push_source_list(out: &mut Vec<u8>) -> Result<(), AllocError>
    ensures { OnOk result (out.new.items ≡ out.old.items ++ source_list) }
{
    push_group(out, b"The source:\n", &SOURCE)?;
    push_group(out, b"\nInstructions:\n", &INSTRUCTIONS)
}

// Appends the words of a trace.
#[tactic(auto, unfolding(crate::specs::Explain::trace_list))]
fn push_trace_list(out: &mut Vec<u8>) -> Result<(), AllocError>
    ensures { OnOk result (out.new.items ≡ out.old.items ++ trace_list) }
{
    push_group(out, b"\nRecords of a trace:\n", &RECORDS)?;
    push_group(out, b"\nRules of a legal run:\n", &RULES)
}

// Appends all other words.
#[tactic(auto, unfolding(crate::specs::Explain::other_list))]
fn push_other_list(out: &mut Vec<u8>) -> Result<(), AllocError>
    ensures { OnOk result (out.new.items ≡ out.old.items ++ other_list) }
{
    push_group(
        out,
        b"\nWhy a workload text or a trace is refused:\n",
        &CAUSES,
    )?;
    push_group(out, b"\nEnds:\n", &ENDS)?;
    push_group(out, b"\nExit statuses:\n", &STATUSES)
}

// Appends a title, and the words of the topics in a line.
#[tactic(auto, unfolding(crate::specs::Explain::group))]
fn push_group(out: &mut Vec<u8>, title: &[u8], topics: &[Topic]) -> Result<(), AllocError>
    ensures { OnOk result (out.new.items ≡ out.old.items ++ group title.now topics.now) }
{
    out.extend_from_slice(title)?;
    push_words(out, topics)?;
    out.extend_from_slice(b"\n")
}

// Appends the word of each topic after two spaces.
fn push_words(out: &mut Vec<u8>, topics: &[Topic]) -> Result<(), AllocError>
    ensures { OnOk result (out.new.items ≡ out.old.items ++ words_in topics.now) }
{
    for topic in topics {
        out.extend_from_slice(b"  ")?;
        out.extend_from_slice(topic.word())?;
    }
    Ok(())
}
