// Why a workload text or a trace is refused.
ghost use Rattle.std.specs.Prelude.{◌≡◌};
ghost use Rattle.toga_explain.specs.Tables.{cause_word, cause_said, cause_of, cause_text};

use sa_base::Cause;

// Every cause.
const CAUSES: [Cause; 9] = [
    Cause::NotAscii,
    Cause::BadWord,
    Cause::BadNumber,
    Cause::OutOfRange,
    Cause::Twice,
    Cause::NoSuchName,
    Cause::BadTarget,
    Cause::TooMany,
    Cause::Missing,
];

/// Why a text is refused for the cause of this number, from 1 to 9: sentences, without a line feed; no bytes for another number.
pub fn cause_text(why: u8) -> &'static [u8]
    ensures { result.now ≡ cause_text why }
{
    match cause_of(why) {
        Some(cause) => cause_said(cause),
        None => b"",
    }
}

// The cause of a number.
#[tactic(auto, unfolding(crate::specs::Tables::cause_of))]
fn cause_of(why: u8) -> Option<Cause>
    ensures { result ≡ cause_of why }
{
    CAUSES.iter().copied().find(|cause| cause.number() == why)
}

/// The words of a cause.
#[tactic(auto, unfolding(crate::specs::Tables::cause_word))]
pub(crate) fn cause_word(cause: Cause) -> &'static [u8]
    ensures { result.now ≡ cause_word cause }
{
    match cause {
        Cause::NotAscii => b"why 1",
        Cause::BadWord => b"why 2",
        Cause::BadNumber => b"why 3",
        Cause::OutOfRange => b"why 4",
        Cause::Twice => b"why 5",
        Cause::NoSuchName => b"why 6",
        Cause::BadTarget => b"why 7",
        Cause::TooMany => b"why 8",
        Cause::Missing => b"why 9",
    }
}

/// Why a text is refused for a cause.
#[tactic(auto, unfolding(crate::specs::Tables::cause_said))]
pub(crate) fn cause_said(cause: Cause) -> &'static [u8]
    ensures { result.now ≡ cause_said cause }
{
    match cause {
        Cause::NotAscii =>
            b"A byte that is no printed ASCII character, such as a tab or the carriage return of another system.",
        Cause::BadWord =>
            b"A word that does not belong there, a register that is none of r0 to r7, or one word too many. Comments and blank lines are for sources alone.",
        Cause::BadNumber => b"A word where a number belongs, or a number above 2^64 - 1.",
        Cause::OutOfRange =>
            b"A number out of its range, or a line that comes before the one above it. In a trace also a second processor in one event, and a last line with wrong numbers.",
        Cause::Twice => b"An `absent` or `evict` line that is the same as the one above it.",
        Cause::NoSuchName => b"A mutex, semaphore, cell, program or space that is not declared.",
        Cause::BadTarget => b"A jump to a place that the program does not have.",
        Cause::TooMany => b"One line too many, or the text is too long.",
        Cause::Missing =>
            b"A line or a word is missing, the line has no line feed at its end, or a program does not end with `end`.",
    }
}
