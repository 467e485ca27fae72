// The words of sentences.
ghost use Rattle.std.specs.Prelude.{◌≡◌};
ghost use Rattle.toga_diagnostic.specs.Tables.{about_before, about_after, kind_word, where_words, stage_words, what_words};

use crate::cause::{About, Kind, Stage, What};

/// What comes before the word of an error that its word tells alone.
#[tactic(auto, unfolding(crate::specs::Tables::about_before))]
pub(crate) fn about_before(about: About) -> &'static [u8]
    ensures { result.now ≡ about_before about }
{
    match about {
        About::Plain => b"",
        About::AfterLabel => b"",
        About::LabelOutside => b"",
        About::BadLabel => b"",
        About::LabelAlone => b"label ",
        About::Outside => b"",
        About::SettingLate => b"",
        About::DeclarationLate => b"",
        About::AfterTurns => b"",
        About::TurnsEarly => b"",
        About::NoRegister => b"",
        About::NoName => b"",
        About::NoAt => b"",
        About::NoInstruction => b"program ",
    }
}

/// What comes after that word.
#[tactic(auto, unfolding(crate::specs::Tables::about_after))]
pub(crate) fn about_after(about: About) -> &'static [u8]
    ensures { result.now ≡ about_after about }
{
    match about {
        About::Plain =>
            b" begins a plain workload text: expected it as the first word of the first line",
        About::AfterLabel => b" after a label: expected an instruction",
        About::LabelOutside => b" is a label outside of a program: expected `program` before it",
        About::BadLabel =>
            b" is no label: a name is a letter or _, then up to 31 letters, digits or _, and no register",
        About::LabelAlone => b" has no instruction: expected one after it",
        About::Outside => b" stands outside of a program: expected `program` before it",
        About::SettingLate => b" comes too late: expected it before the first space and program",
        About::DeclarationLate =>
            b" comes too late: expected it before the first program of its space",
        About::AfterTurns => b" comes too late: expected `turns` alone after `turns`",
        About::TurnsEarly => b" comes too early: expected a program before it",
        About::NoRegister => b" is no register: expected r0 to r7",
        About::NoName =>
            b" is no name: a name is a letter or _, then up to 31 letters, digits or _, and no register",
        About::NoAt => b" is not the word that belongs here: expected `at`",
        About::NoInstruction => b" has no instruction: expected at least `end`",
    }
}

/// The word of a kind.
#[tactic(auto, unfolding(crate::specs::Tables::kind_word))]
pub(crate) fn kind_word(kind: Kind) -> &'static [u8]
    ensures { result.now ≡ kind_word kind }
{
    match kind {
        Kind::Space => b"space",
        Kind::Mutex => b"mutex",
        Kind::Semaphore => b"semaphore",
        Kind::Cell => b"cell",
        Kind::Program => b"program",
        Kind::Label => b"label",
        Kind::Instruction => b"instruction",
        Kind::Eviction => b"eviction",
    }
}

/// Where there may be so many of the kind.
#[tactic(auto, unfolding(crate::specs::Tables::where_words))]
pub(crate) fn where_words(kind: Kind) -> &'static [u8]
    ensures { result.now ≡ where_words kind }
{
    match kind {
        Kind::Space => b"",
        Kind::Mutex => b" in a space",
        Kind::Semaphore => b" in a space",
        Kind::Cell => b" in a space",
        Kind::Program => b" in a space",
        Kind::Label => b" in a program",
        Kind::Instruction => b" in a program",
        Kind::Eviction => b"",
    }
}

/// Which words may begin the next line.
#[tactic(auto, unfolding(crate::specs::Tables::stage_words))]
pub(crate) fn stage_words(stage: Stage) -> &'static [u8]
    ensures { result.now ≡ stage_words stage }
{
    match stage {
        Stage::Top => b"`processors`, `fetch`, `slice`, `space`, a declaration or `program`",
        Stage::Declaring => b"a declaration or `program`",
        Stage::InProgram => b"an instruction, a label, `program`, `space` or `turns`",
        Stage::AfterTurns => b"`turns`",
    }
}

/// What a number is.
#[tactic(auto, unfolding(crate::specs::Tables::what_words))]
pub(crate) fn what_words(what: What) -> &'static [u8]
    ensures { result.now ≡ what_words what }
{
    match what {
        What::Processors => b"a number of processors",
        What::Events => b"a number of events",
        What::Priority => b"a priority",
        What::Patience => b"a patience",
        What::Count => b"a count",
        What::Page => b"a page",
        What::Event => b"an event",
        What::Processor => b"a processor",
        What::Number => b"a number",
    }
}
