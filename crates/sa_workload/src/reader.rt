// The reader: one line after another.
ghost use Rattle.std.specs.Prelude.{◌≡◌, ℕ, ◌≤◌, MatchResult, IfOk, IfErr, Ok, Err, true};
ghost use Rattle.std.specs.Option.{is_some};
ghost use Rattle.sa_spaces.specs.Workload.{WorkloadView};
ghost use Rattle.sa_text.specs.Line.{IsWithin, text_of_line};
ghost use Rattle.sa_workload.specs.Answer.{IfBad};
ghost use Rattle.sa_workload.specs.Bad.{BadAt, BadAt1};
ghost use Rattle.sa_workload.specs.Text.{IsText, IsText1};
ghost use Rattle.sa_workload.specs.Position.{IsReached};
ghost use Rattle.sa_workload.specs.Fields.{and_then, index_of, line_numbers, numbered};
ghost use Rattle.sa_workload.specs.Next.{fields_of, last_numbers, next_by};
ghost use Rattle.sa_workload.specs.Steps.{expected};
ghost use Rattle.sa_text.specs.Pieces.{is_printed};
ghost use Rattle.sa_workload.specs.Reading.{line_in, read_of, IsReading};
ghost use Rattle.sa_workload.specs.Stage.{position_of, Gives};

use crate::cause::Refusal;
use crate::field::Numbers;
use crate::numbers::{read_end, read_numbers};
use crate::stage::Reader;
use sa_base::{Bad, Cause, Unread};
use sa_spaces::Workload;
use sa_text::{Line, Lines, Pieces, is_printed};
use std::alloc::Global;

// The greatest version of a workload text.
const VERSIONS: u16 = 3;

/// The workload of which these bytes are the text.
///
/// `Bad` exactly where they are the text of none, with the first line that no text has in its place, and
/// the first cause that applies to it.
pub fn read(alloc: Global, bytes: &[u8]) -> Result<Workload, Unread>
    ensures ok { IfOk result (IsText bytes.now) }
    ensures bad { IfErr result (λ unread. IfBad unread (λ bad. BadAt bytes.now bad.line bad.why)) }

    // A text is read, and what is bad is refused, unless memory runs out.
    ensures text { (w : WorkloadView) → IsText bytes.now w → MatchResult result (λ read. read
        ≡ w) (λ unread. unread ≡ Unread.OutOfMemory) }
    ensures refused { (k why : ℕ) → BadAt bytes.now k why
        → MatchResult result (λ _. ⊥) (λ unread. IfBad unread (λ bad. (bad.line ≡ k) × (bad.why
        ≡ why))) }
{
    read_versions(alloc, VERSIONS, bytes)
}

/// The workload of which these bytes are the text of version 1.
///
/// `Bad` exactly where they are none, likewise.
pub fn read_one(alloc: Global, bytes: &[u8]) -> Result<Workload, Unread>
    ensures ok { IfOk result (IsText1 bytes.now) }
    ensures bad { IfErr result (λ unread. IfBad unread (λ bad. BadAt1 bytes.now bad.line bad.why)) }

    // A text is read, and what is bad is refused, unless memory runs out.
    ensures text { (w : WorkloadView) → IsText1 bytes.now w → MatchResult result (λ read. read
        ≡ w) (λ unread. unread ≡ Unread.OutOfMemory) }
    ensures refused { (k why : ℕ) → BadAt1 bytes.now k why
        → MatchResult result (λ _. ⊥) (λ unread. IfBad unread (λ bad. (bad.line ≡ k) × (bad.why
        ≡ why))) }
{
    read_versions(alloc, 1, bytes)
}

// The workload of a text of one of that many versions.
fn read_versions(alloc: Global, versions: u16, bytes: &[u8]) -> Result<Workload, Unread>
    requires { versions ≤ 3 }
    ensures { IsReading (read_of versions bytes.now) result }
{
    let mut lines = Lines::new(bytes);
    let mut reader = Reader::new(alloc);
    while let Some(line) = lines.next() {
        let number = line.number;
        if let Err(refusal) = read_line(&mut reader, alloc, versions, bytes, line) {
            reader.discard();
            return Err(refusal.at(number));
        }
    }
    match reader.finish() {
        Some(workload) => Ok(workload),
        None => Err(Unread::Bad(Bad::new(lines.number(), Cause::Missing))),
    }
}

// Goes on after this line.
fn read_line(
    reader: &mut Reader,
    alloc: Global,
    versions: u16,
    bytes: &[u8],
    line: Line,
) -> Result<(), Refusal>
    requires few { versions ≤ 3 }
    requires reached { IsReached versions (position_of reader.old) }
    requires within { IsWithin bytes.now line }
    ensures { Gives (line_in versions (position_of reader.old) (text_of_line bytes.now line)) (position_of reader.new) result }
{
    if !is_printed(&bytes[line.start..line.end]) {
        return Err(Refusal::Because(Cause::NotAscii));
    }
    if !line.ended {
        return Err(Refusal::Because(Cause::Missing));
    }
    let mut words = Pieces::new(bytes, line);
    let Some(word) = words.next() else {
        return Err(Refusal::Because(Cause::BadWord));
    };
    read_words(reader, alloc, versions, word, &mut words)
}

// Goes on after a line of this first word and these words after it.
fn read_words(
    reader: &mut Reader,
    alloc: Global,
    versions: u16,
    word: &[u8],
    words: &mut Pieces,
) -> Result<(), Refusal>
    requires few { versions ≤ 3 }
    requires reached { IsReached versions (position_of reader.old) }
    ensures { Gives (next_by versions (position_of reader.old) word.now words.old) (position_of reader.new) result }
{
    if !reader.expects(word) {
        return Err(Refusal::Because(Cause::BadWord));
    }
    if reader.is_full(word) {
        return Err(Refusal::Because(Cause::TooMany));
    }
    let numbers = numbers_behind(reader, versions, word, words)?;
    reader.step(alloc, versions, word, numbers.as_slice())
}

// The numbers after this first word, which end the line.
fn numbers_behind(
    reader: &Reader,
    versions: u16,
    word: &[u8],
    words: &mut Pieces,
) -> Result<Numbers, Cause>
    requires { is_some (index_of word.now (expected (position_of reader.now))) ≡ true }
    ensures { and_then (numbered result) (λ numbers. Ok numbers.items)
        ≡ line_numbers (fields_of versions (position_of reader.now) word.now) (last_numbers (position_of reader.now) word.now) words.old }
{
    let fields = reader.fields(versions, word);
    let numbers = read_numbers(fields.as_slice(), words)?;
    reader.in_order(word, numbers.as_slice())?;
    read_end(words)?;
    Ok(numbers)
}
