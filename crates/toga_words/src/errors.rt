// The text of a refusal, in the form of clap's own errors.
ghost use Rattle.std.specs.Prelude.{◌≡◌, ◌++◌, IfOk, OnOk};
ghost use Rattle.toga_words.specs.Asked.{objected};
ghost use Rattle.toga_words.specs.Texts.{name_of, named_text, quoted, range_text, refusal_text, sentence_of, taken_text, value_text};

use crate::refusal::{Refusal, Setting};
use std::alloc::{AllocError, Global};

/// The text of a refusal.
#[tactic(auto, unfolding(crate::specs::Texts::refusal_text))]
pub(crate) fn text_of(alloc: Global, refusal: Refusal) -> Result<Vec<u8>, AllocError>
    ensures { IfOk result (λ text. text.items ≡ refusal_text (objected refusal.entry)) }
{
    let mut out = Vec::from_slice(alloc, b"error: ")?;
    push_sentence(&mut out, refusal)?;
    out.extend_from_slice(b"\n\nFor more information, try '--help'.\n")?;
    Ok(out)
}

// Appends the sentence of a refusal.
fn push_sentence(out: &mut Vec<u8>, refusal: Refusal) -> Result<(), AllocError>
    ensures { OnOk result (out.new.items ≡ out.old.items ++ sentence_of (objected refusal.entry)) }
{
    match refusal {
        Refusal::Value(setting, value) => push_value(out, setting, value.as_bytes()),
        Refusal::SameInput => out.extend_from_slice(b"standard input is named twice"),
        Refusal::Backward => {
            out.extend_from_slice(
                b"the first event comes after the last one: '--from <EVENT>' is above '--to <EVENT>'",
            )
        }
    }
}

// Appends that the option does not take the value.
fn push_value(out: &mut Vec<u8>, setting: Setting, value: &[u8]) -> Result<(), AllocError>
    ensures { OnOk result (out.new.items ≡ out.old.items ++ value_text setting value.now) }
{
    push_named(out, setting, value)?;
    push_taken(out, setting, value)
}

// Appends the value, and the name of the option.
fn push_named(out: &mut Vec<u8>, setting: Setting, value: &[u8]) -> Result<(), AllocError>
    ensures { OnOk result (out.new.items ≡ out.old.items ++ named_text setting value.now) }
{
    out.extend_from_slice(b"invalid value ")?;
    push_quoted(out, value)?;
    out.extend_from_slice(b" for ")?;
    push_quoted(out, name_of(setting))
}

// Appends a word in quotes.
fn push_quoted(out: &mut Vec<u8>, word: &[u8]) -> Result<(), AllocError>
    ensures { OnOk result (out.new.items ≡ out.old.items ++ quoted word.now) }
{
    out.extend_from_slice(b"'")?;
    out.extend_from_slice(word)?;
    out.extend_from_slice(b"'")
}

// Appends what the option takes.
fn push_taken(out: &mut Vec<u8>, setting: Setting, value: &[u8]) -> Result<(), AllocError>
    ensures { OnOk result (out.new.items ≡ out.old.items ++ taken_text setting value.now) }
{
    match setting {
        Setting::Schedule => {
            out.extend_from_slice(b"\n  [possible values: given, rr, seed:N, hold:P:N]")
        }
        Setting::Package => out.extend_from_slice(b"\n  [possible values: fast, prio]"),
        Setting::Give => out.extend_from_slice(b"\n  [possible values: alldone, stuck, endless]"),
        Setting::Budget => push_range(out, value, b"1..=1000000"),
        Setting::States => push_range(out, value, b"1..=10000000"),
        Setting::From | Setting::To => push_range(out, value, b"0..=18446744073709551615"),
        Setting::Width => push_range(out, value, b"200..=1000000"),
    }
}

// Appends that the value is not in this range.
fn push_range(out: &mut Vec<u8>, value: &[u8], range: &[u8]) -> Result<(), AllocError>
    ensures { OnOk result (out.new.items ≡ out.old.items ++ range_text value.now range.now) }
{
    out.extend_from_slice(b": ")?;
    out.extend_from_slice(value)?;
    out.extend_from_slice(b" is not in ")?;
    out.extend_from_slice(range)
}

// The name of an option, with that of its value.
fn name_of(setting: Setting) -> &'static [u8]
    ensures { result.now ≡ name_of setting }
{
    match setting {
        Setting::Schedule => b"--schedule <ORDER>",
        Setting::Package => b"--package <PACKAGE>",
        Setting::Budget => b"--budget <EVENTS>",
        Setting::States => b"--states <STATES>",
        Setting::Give => b"--give <END>",
        Setting::From => b"--from <EVENT>",
        Setting::To => b"--to <EVENT>",
        Setting::Width => b"--width <PIXELS>",
    }
}
