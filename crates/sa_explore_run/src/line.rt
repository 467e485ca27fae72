// A word and the numbers after it.
ghost use Rattle.std.specs.Prelude.{◌≡◌, ◌++◌, OnOk};
ghost use Rattle.std.specs.List.{flat_map};
ghost use Rattle.sa_explore_run.specs.Text.{number_text, words, line};

use sa_text::print_number;
use std::alloc::AllocError;

/// Appends the word and these numbers.
pub(crate) fn push_words(out: &mut Vec<u8>, word: &[u8], numbers: &[u64]) -> Result<(), AllocError>
    ensures { OnOk result (out.new.items ≡ out.old.items ++ words word.now numbers.now) }
{
    out.extend_from_slice(word)?;
    push_numbers(out, numbers)
}

/// Appends a line of the word and these numbers.
pub(crate) fn push_line(out: &mut Vec<u8>, word: &[u8], numbers: &[u64]) -> Result<(), AllocError>
    ensures { OnOk result (out.new.items ≡ out.old.items ++ line word.now numbers.now) }
{
    push_words(out, word, numbers)?;
    out.extend_from_slice(b"\n")
}

// Appends each number after a space.
fn push_numbers(out: &mut Vec<u8>, numbers: &[u64]) -> Result<(), AllocError>
    ensures { OnOk result (out.new.items ≡ out.old.items ++ flat_map number_text numbers.now) }
{
    for n in numbers {
        out.extend_from_slice(b" ")?;
        print_number(*n, out)?;
    }
    Ok(())
}
