// The sentence of an error.
ghost use Rattle.std.specs.Prelude.{◌≡◌, ◌++◌, ◌<◌, OnOk};
ghost use Rattle.toga_diagnostic.specs.Sentence.{about_text, again_text, bad_byte_text, declared_text, event_again_text, few_text, hex_digit, kind_text, last_place_text, limit_text, limited_text, many_text, missing_text, named_again_text, names_text, next_text, no_label_text, no_name_text, no_number_text, no_operand_text, no_place_text, numbered_text, operands_text, other_text, page_again_text, part_text, places_text, turn_text, twice_text, unknown_text, wanted_text};
ghost use Rattle.toga_diagnostic.specs.Tables.{kind_word, stage_words};

use crate::cause::{About, Kind, Limit, Missing, Next, Part, Stage, Twice, Wanted};
use crate::listed::{push_around, push_between, push_counted, push_cut, push_listed};
use crate::tables::{about_after, about_before, kind_word, stage_words, what_words, where_words};
use std::alloc::AllocError;
use toga_source::Name;

/// Appends the sentence of an error that its word tells alone.
pub(crate) fn push_about(out: &mut Vec<u8>, about: About, word: &[u8]) -> Result<(), AllocError>
    ensures { OnOk result (out.new.items ≡ out.old.items ++ about_text about word.now) }
{
    push_around(out, about_before(about), word, about_after(about))
}

// Appends a kind between other words.
fn push_kind(out: &mut Vec<u8>, before: &[u8], kind: Kind, after: &[u8]) -> Result<(), AllocError>
    ensures { OnOk result (out.new.items ≡ out.old.items ++ kind_text before.now kind after.now) }
{
    push_between(out, before, kind_word(kind), after)
}

// Appends what a number is, and its limits.
#[tactic(auto, unfolding(crate::specs::Sentence::limit_text))]
fn push_limit(out: &mut Vec<u8>, limit: Limit) -> Result<(), AllocError>
    ensures { OnOk result (out.new.items ≡ out.old.items ++ limit_text limit) }
{
    out.extend_from_slice(what_words(limit.what))?;
    push_counted(out, b", ", limit.low, b" to ")?;
    push_counted(out, b"", limit.high, b"")
}

/// Appends the sentence of a word in place of which something else is wanted.
#[tactic(auto, unfolding(crate::specs::Sentence::wanted_text))]
pub(crate) fn push_wanted(out: &mut Vec<u8>, wanted: Wanted, word: &[u8]) -> Result<(), AllocError>
    ensures { OnOk result (out.new.items ≡ out.old.items ++ wanted_text wanted word.now) }
{
    match wanted {
        Wanted::First(stage) => push_unknown(out, stage, word),
        Wanted::Number(limit) => push_limited(out, limit, word, b" is no number: expected "),
        Wanted::Within(limit) => push_limited(out, limit, word, b" is out of range: expected "),
        Wanted::Operand(kind) => push_no_operand(out, kind, word),
        Wanted::Turn(last) => push_turn(
            out,
            word,
            b" is no turn: expected a processor, 0 to ",
            last,
            b", or as in `0*5` a processor and how many turns",
        ),
        Wanted::Turns(left) => push_turn(
            out,
            word,
            b" makes more than 65536 turns: expected at most ",
            left,
            b" more",
        ),
    }
}

// Appends that a first word is unknown.
fn push_unknown(out: &mut Vec<u8>, stage: Stage, word: &[u8]) -> Result<(), AllocError>
    ensures { OnOk result (out.new.items ≡ out.old.items ++ unknown_text stage word.now) }
{
    push_around(out, b"unknown word ", word, b": expected ")?;
    push_stage(out, stage)
}

// Appends which words may begin the next line.
fn push_stage(out: &mut Vec<u8>, stage: Stage) -> Result<(), AllocError>
    ensures { OnOk result (out.new.items ≡ out.old.items ++ stage_words stage) }
{
    out.extend_from_slice(stage_words(stage))
}

// Appends that a word is not what it has to be, and the limits of that.
fn push_limited(
    out: &mut Vec<u8>,
    limit: Limit,
    word: &[u8],
    after: &[u8],
) -> Result<(), AllocError>
    ensures { OnOk result (out.new.items ≡ out.old.items ++ limited_text limit word.now after.now) }
{
    push_around(out, b"", word, after)?;
    push_limit(out, limit)
}

// Appends that a word is no name and no number.
fn push_no_operand(out: &mut Vec<u8>, kind: Kind, word: &[u8]) -> Result<(), AllocError>
    ensures { OnOk result (out.new.items ≡ out.old.items ++ no_operand_text kind word.now) }
{
    push_around(out, b"", word, b" is no name and no number: expected a ")?;
    push_kind_word(out, kind)
}

// Appends the word of a kind.
fn push_kind_word(out: &mut Vec<u8>, kind: Kind) -> Result<(), AllocError>
    ensures { OnOk result (out.new.items ≡ out.old.items ++ kind_word kind) }
{
    out.extend_from_slice(kind_word(kind))
}

// Appends that a word is no turn, or makes too many.
fn push_turn(
    out: &mut Vec<u8>,
    word: &[u8],
    after: &[u8],
    n: u64,
    last: &[u8],
) -> Result<(), AllocError>
    ensures { OnOk result (out.new.items ≡ out.old.items ++ turn_text word.now after.now n last.now) }
{
    push_around(out, b"", word, after)?;
    push_counted(out, b"", n, last)
}

/// Appends the sentence of what is there already.
#[tactic(auto, unfolding(crate::specs::Sentence::twice_text))]
pub(crate) fn push_twice(out: &mut Vec<u8>, twice: Twice, word: &[u8]) -> Result<(), AllocError>
    ensures { OnOk result (out.new.items ≡ out.old.items ++ twice_text twice word.now) }
{
    match twice {
        Twice::Label(line) => push_again(out, b"label ", word, line, b" has it"),
        Twice::Setting(line) => push_again(out, b"", word, line, b" has it"),
        Twice::Name(line, kind) => push_named_again(out, word, line, kind),
        Twice::Page(page) => push_page_again(out, page),
        Twice::Event(page, event) => push_event_again(out, page, event),
    }
}

// Appends that a line has it already.
fn push_again(
    out: &mut Vec<u8>,
    before: &[u8],
    word: &[u8],
    line: u64,
    after: &[u8],
) -> Result<(), AllocError>
    ensures { OnOk result (out.new.items ≡ out.old.items ++ again_text before.now word.now line after.now) }
{
    push_around(out, before, word, b" a second time: line ")?;
    push_counted(out, b"", line, after)
}

// Appends that a line has something of the kind and the name.
fn push_named_again(out: &mut Vec<u8>, word: &[u8], line: u64, kind: Kind) -> Result<(), AllocError>
    ensures { OnOk result (out.new.items ≡ out.old.items ++ named_again_text word.now line kind) }
{
    push_again(out, b"", word, line, b" has a ")?;
    push_kind(out, b"", kind, b" of that name")
}

// Appends that a page is absent already.
#[tactic(auto, unfolding(crate::specs::Sentence::page_again_text))]
fn push_page_again(out: &mut Vec<u8>, page: u64) -> Result<(), AllocError>
    ensures { OnOk result (out.new.items ≡ out.old.items ++ page_again_text page) }
{
    push_counted(out, b"page ", page, b" a second time: it is absent already")
}

// Appends that a page goes away at the event already.
fn push_event_again(out: &mut Vec<u8>, page: u64, event: u64) -> Result<(), AllocError>
    ensures { OnOk result (out.new.items ≡ out.old.items ++ event_again_text page event) }
{
    push_counted(
        out,
        b"page ",
        page,
        b" a second time: it goes away at event ",
    )?;
    push_counted(out, b"", event, b" already")
}

/// Appends the sentence of a word that names nothing.
#[tactic(auto, unfolding(crate::specs::Sentence::missing_text))]
pub(crate) fn push_missing(
    out: &mut Vec<u8>,
    missing: &Missing,
    word: &[u8],
) -> Result<(), AllocError>
    ensures { OnOk result (out.new.items ≡ out.old.items ++ missing_text missing.now word.now) }
{
    match missing {
        Missing::Name(kind, space, names) => {
            push_no_name(out, *kind, word, space.bytes(), names.names())
        }
        Missing::Other(is, kind, names) => push_other(out, *is, *kind, word, names.names()),
        Missing::Number(kind, n, space, count) => {
            push_no_number(out, *kind, *n, space.bytes(), *count)
        }
        Missing::Label(program, labels, count) => {
            push_no_label(out, word, program.bytes(), labels.names(), *count)
        }
        Missing::Place(n, program, count) => push_no_place(out, *n, program.bytes(), *count),
    }
}

// Appends that a space has no such name of a kind.
fn push_no_name(
    out: &mut Vec<u8>,
    kind: Kind,
    word: &[u8],
    space: &[u8],
    names: &[Name],
) -> Result<(), AllocError>
    ensures { OnOk result (out.new.items ≡ out.old.items ++ no_name_text kind word.now space.now names.now) }
{
    push_kind(out, b"no ", kind, b" ")?;
    push_around(out, b"", word, b" in space ")?;
    push_around(out, b"", space, b": expected ")?;
    push_names(out, kind, names)
}

// Appends that a name is of another kind.
fn push_other(
    out: &mut Vec<u8>,
    is: Kind,
    kind: Kind,
    word: &[u8],
    names: &[Name],
) -> Result<(), AllocError>
    ensures { OnOk result (out.new.items ≡ out.old.items ++ other_text is kind word.now names.now) }
{
    push_around(out, b"", word, b" is a ")?;
    push_kind(out, b"", is, b" and no ")?;
    push_kind(out, b"", kind, b": expected ")?;
    push_names(out, kind, names)
}

// Appends that a space has no such number of a kind.
fn push_no_number(
    out: &mut Vec<u8>,
    kind: Kind,
    n: u64,
    space: &[u8],
    count: u64,
) -> Result<(), AllocError>
    ensures { OnOk result (out.new.items ≡ out.old.items ++ no_number_text kind n space.now count) }
{
    push_kind(out, b"no ", kind, b" ")?;
    push_counted(out, b"", n, b" in space ")?;
    push_around(out, b"", space, b": expected ")?;
    push_numbers(out, kind, count)
}

// Appends that a program has no such label.
fn push_no_label(
    out: &mut Vec<u8>,
    word: &[u8],
    program: &[u8],
    labels: &[Name],
    count: u64,
) -> Result<(), AllocError>
    ensures { OnOk result (out.new.items ≡ out.old.items ++ no_label_text word.now program.now labels.now count) }
{
    push_around(out, b"no label ", word, b" in program ")?;
    push_around(out, b"", program, b": expected ")?;
    push_labels(out, labels, count)
}

// Appends that a program has no such place.
fn push_no_place(out: &mut Vec<u8>, n: u64, program: &[u8], count: u64) -> Result<(), AllocError>
    ensures { OnOk result (out.new.items ≡ out.old.items ++ no_place_text n program.now count) }
{
    push_counted(out, b"no place ", n, b" in program ")?;
    push_around(out, b"", program, b": expected 0 to ")?;
    push_last_place(out, count)
}

// Appends the last of so many places.
fn push_last_place(out: &mut Vec<u8>, count: u64) -> Result<(), AllocError>
    ensures { OnOk result (out.new.items ≡ out.old.items ++ last_place_text count) }
{
    push_counted(out, b"", count.saturating_sub(1), b", or a label")
}

// Appends the names of a kind, or that one is to be declared.
#[tactic(auto, unfolding(crate::specs::Sentence::names_text))]
fn push_names(out: &mut Vec<u8>, kind: Kind, names: &[Name]) -> Result<(), AllocError>
    ensures { OnOk result (out.new.items ≡ out.old.items ++ names_text kind names.now) }
{
    if names.len() == 0 {
        return push_declared(out, kind);
    }
    push_listed(out, names)
}

// Appends the numbers of a kind, or that one is to be declared.
#[tactic(auto, unfolding(crate::specs::Sentence::numbered_text))]
fn push_numbers(out: &mut Vec<u8>, kind: Kind, count: u64) -> Result<(), AllocError>
    ensures { OnOk result (out.new.items ≡ out.old.items ++ numbered_text kind count) }
{
    if count == 0 {
        return push_declared(out, kind);
    }
    push_counted(out, b"0 to ", count - 1, b"")
}

// Appends that something of a kind is to be declared.
fn push_declared(out: &mut Vec<u8>, kind: Kind) -> Result<(), AllocError>
    ensures { OnOk result (out.new.items ≡ out.old.items ++ declared_text kind) }
{
    push_kind(out, b"a ", kind, b" that is declared")
}

// Appends the labels of a program, or its places where it has no labels.
#[tactic(auto, unfolding(crate::specs::Sentence::places_text))]
fn push_labels(out: &mut Vec<u8>, labels: &[Name], count: u64) -> Result<(), AllocError>
    ensures { OnOk result (out.new.items ≡ out.old.items ++ places_text labels.now count) }
{
    if labels.len() > 0 {
        return push_listed(out, labels);
    }
    push_counted(
        out,
        b"a place, 0 to ",
        count.saturating_sub(1),
        b", as it has no labels",
    )
}

/// Appends the sentence of a part of a source that is not as it has to be.
#[tactic(auto, unfolding(crate::specs::Sentence::part_text))]
pub(crate) fn push_part(out: &mut Vec<u8>, part: &Part, word: &[u8]) -> Result<(), AllocError>
    ensures { OnOk result (out.new.items ≡ out.old.items ++ part_text part.now word.now) }
{
    match part {
        Part::TooLong => {
            out.extend_from_slice(b"the source is too long: expected at most 4194304 bytes")
        }
        Part::BadByte(byte) => push_bad_byte(out, *byte),
        Part::OneMore(kind, most) => {
            push_kind(out, b"one ", *kind, b" too many: expected at most ")?;
            push_counted(out, b"", *most, where_words(*kind))
        }
        Part::NoEnd(program) => {
            push_around(out, b"", word, b" is the last instruction of program ")?;
            push_around(out, b"", program.bytes(), b": expected `end` after it")
        }
        Part::NoProgram(space) => {
            push_around(
                out,
                b"space ",
                space.bytes(),
                b" has no program: expected `program` in it",
            )
        }
        Part::Empty => out.extend_from_slice(b"the source has no program: expected `program`"),
        Part::Size(bytes) => {
            push_counted(
                out,
                b"the workload text has ",
                *bytes,
                b" bytes: expected at most 1048576",
            )
        }
    }
}

// Appends the sentence of a byte that is not printed.
fn push_bad_byte(out: &mut Vec<u8>, byte: u8) -> Result<(), AllocError>
    ensures { OnOk result (out.new.items ≡ out.old.items ++ bad_byte_text byte) }
{
    let digits = [hex_digit(byte / 16), hex_digit(byte % 16)];
    push_between(
        out,
        b"the byte 0x",
        &digits,
        b" is no printed ASCII character: expected such alone outside of comments",
    )
}

// The hexadecimal digit of a number below 16.
fn hex_digit(n: u8) -> u8
    requires { n < 16 }
    ensures { result ≡ hex_digit n }
{
    if n < 10 { b'0' + n } else { b'A' + (n - 10) }
}

/// Appends the sentence of a line of this first word that has too few words.
pub(crate) fn push_few(out: &mut Vec<u8>, next: Next, first: &[u8]) -> Result<(), AllocError>
    ensures { OnOk result (out.new.items ≡ out.old.items ++ few_text next first.now) }
{
    push_around(out, b"", first, b" has too few words: expected ")?;
    push_next(out, next)
}

// Appends what is missing at the end of a line.
#[tactic(auto, unfolding(crate::specs::Sentence::next_text))]
fn push_next(out: &mut Vec<u8>, next: Next) -> Result<(), AllocError>
    ensures { OnOk result (out.new.items ≡ out.old.items ++ next_text next) }
{
    match next {
        Next::Name => out.extend_from_slice(b"a name"),
        Next::Number(what) => out.extend_from_slice(what_words(what)),
        Next::AnyPage => out.extend_from_slice(b"a page, 0 to 15"),
        Next::AnyEvent => out.extend_from_slice(b"an event, 1 to 1000000"),
        Next::At => out.extend_from_slice(b"`at`"),
        Next::Register => out.extend_from_slice(b"a register"),
        Next::Of(kind) => push_kind(out, b"a ", kind, b""),
        Next::Turn => {
            out.extend_from_slice(b"a processor, or as in `0*5` a processor and how many turns")
        }
    }
}

/// Appends the sentence of a line that has more words than so many after its first one: the word, and the words before it.
pub(crate) fn push_many(
    out: &mut Vec<u8>,
    most: usize,
    word: &[u8],
    first: &[u8],
    second: &[u8],
    third: &[u8],
) -> Result<(), AllocError>
    ensures { OnOk result (out.new.items ≡ out.old.items ++ many_text most word.now first.now second.now third.now) }
{
    push_around(
        out,
        b"",
        word,
        b" is one word too many: expected the end of the line after `",
    )?;
    push_cut(out, first)?;
    push_operands(out, most, second, third)?;
    out.extend_from_slice(b"`")
}

// Appends the operands of a line that has up to two.
#[tactic(auto, unfolding(crate::specs::Sentence::operands_text))]
fn push_operands(
    out: &mut Vec<u8>,
    most: usize,
    second: &[u8],
    third: &[u8],
) -> Result<(), AllocError>
    ensures { OnOk result (out.new.items ≡ out.old.items ++ operands_text most second.now third.now) }
{
    if most == 0 || most > 2 {
        return Ok(());
    }
    out.extend_from_slice(b" ")?;
    push_cut(out, second)?;
    if most == 1 {
        return Ok(());
    }
    out.extend_from_slice(b" ")?;
    push_cut(out, third)
}
