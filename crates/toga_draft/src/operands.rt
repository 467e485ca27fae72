// The words after the first one of a line.
ghost use Rattle.std.specs.Prelude.{◌≡◌, ◌≤◌, ◌<◌, ◌==◌, ◌++◌, length, position, replicate, IfOk, OnOk};
ghost use Rattle.toga_draft.specs.Reading.{Gives, Leaves};
ghost use Rattle.toga_draft.specs.Words.{count_words, some_words, too_few};
ghost use Rattle.toga_draft.specs.Operands.{add_turn, both, name_in, named_in, next_of, nth_operand, number_in, operand_in, register_of, turn_of};

use crate::draft::{NumberDraft, OperandDraft};
use crate::unread::Unread;
use crate::word::LineWord;
use sa_base::{FIRST_THREAD_PAGE, ProcNo};
use sa_instr::{LAST_PAGE, MAX_IO_LENGTH, MAX_TURNS, Operand, OperandKind, Reg};
use sa_text::read_number;
use std::alloc::{AllocError, Global};
use toga_diagnostic::{About, Cause, Fault, Kind, Limit, Next, Wanted, What};
use toga_lines::is_name;

/// Any number.
pub(crate) const ANY: Limit = Limit {
    what: What::Number,
    low: 0,
    high: u64::MAX,
};

/// How many events an I/O takes.
pub(crate) const LENGTH: Limit = Limit {
    what: What::Events,
    low: 1,
    high: MAX_IO_LENGTH as u64,
};

/// A page of the threads' own.
pub(crate) const THREAD_PAGE: Limit = Limit {
    what: What::Page,
    low: FIRST_THREAD_PAGE as u64,
    high: LAST_PAGE as u64,
};

/// Checks how many operands a line has.
#[tactic(auto, unfolding(crate::specs::Words::count_words))]
pub(crate) fn count_words(
    line: u64,
    word: &LineWord,
    operands: &[LineWord],
    least: usize,
    most: usize,
    next: Next,
) -> Result<(), Unread>
    ensures exact { Gives (λ _. tt) result (count_words line word.now operands.now least most next) }
    ensures counted { OnOk result ((least ≤ length operands.now) × (length operands.now ≤ most)) }
{
    if operands.len() > most {
        return Err(operands[most].fault(line, Cause::TooMany(most)));
    }
    if operands.len() < least {
        return Err(too_few(line, operands.last().unwrap_or(word), next));
    }
    Ok(())
}

/// Checks that a line has an operand.
#[tactic(auto, unfolding(crate::specs::Words::some_words))]
pub(crate) fn some_words(
    line: u64,
    word: &LineWord,
    operands: &[LineWord],
    next: Next,
) -> Result<(), Unread>
    ensures { Gives (λ _. tt) result (some_words line word.now operands.now next) }
{
    if operands.is_empty() {
        return Err(too_few(line, word, next));
    }
    Ok(())
}

// The error behind the last word of a line.
fn too_few(line: u64, last: &LineWord, next: Next) -> Unread
    ensures { result ≡ Unread.Wrong (too_few line last.now next) }
{
    Unread::Wrong(Fault {
        line,
        column: last.column + last.text.len(),
        width: 1,
        cause: Cause::TooFew(next),
    })
}

/// The number of a word, within a limit.
#[tactic(auto, unfolding(crate::specs::Operands::number_in))]
pub(crate) fn number_in(line: u64, word: &LineWord, limit: Limit) -> Result<u64, Unread>
    ensures exact { Gives (λ n. n) result (number_in line word.now limit) }
    ensures within { IfOk result (λ n. (limit.low ≤ n) × (n ≤ limit.high)) }
{
    let Some(n) = read_number(word.text) else {
        return Err(word.fault(line, Cause::Wanted(Wanted::Number(limit))));
    };
    if n < limit.low || limit.high < n {
        return Err(word.fault(line, Cause::Wanted(Wanted::Within(limit))));
    }
    Ok(n)
}

/// Checks that a word is a name.
#[tactic(auto, unfolding(crate::specs::Operands::name_in))]
pub(crate) fn name_in(line: u64, word: &LineWord) -> Result<(), Unread>
    ensures { Gives (λ _. tt) result (name_in line word.now) }
{
    if !is_name(word.text) {
        return Err(word.about(line, About::NoName));
    }
    Ok(())
}

/// What a word of an operand of this kind is called where it is missing.
pub(crate) fn next_of(kind: OperandKind) -> Next
    ensures { result ≡ next_of kind }
{
    match kind {
        OperandKind::Register => Next::Register,
        OperandKind::Value => Next::Number(What::Number),
        OperandKind::Length => Next::Number(What::Events),
        OperandKind::Page => Next::Number(What::Page),
        OperandKind::Place => Next::Of(Kind::Label),
        OperandKind::Cell => Next::Of(Kind::Cell),
        OperandKind::Program => Next::Of(Kind::Program),
        OperandKind::Mutex => Next::Of(Kind::Mutex),
        OperandKind::Semaphore => Next::Of(Kind::Semaphore),
    }
}

/// The operand of this number, from 0, where an instruction with operands of these kinds has one there.
#[tactic(auto, unfolding(crate::specs::Operands::nth_operand))]
pub(crate) fn nth_operand(
    alloc: Global,
    line: u64,
    operands: &[LineWord],
    kinds: &[OperandKind],
    number: usize,
) -> Result<OperandDraft, Unread>
    requires { length kinds.now ≤ length operands.now }
    ensures { Gives (λ operand. operand) result (nth_operand line operands.now kinds.now number) }
{
    match kinds.get(number) {
        Some(kind) => operand_in(alloc, line, &operands[number], *kind),
        None => Ok(OperandDraft::None),
    }
}

// The word as an operand of this kind.
#[tactic(auto, unfolding(crate::specs::Operands::operand_in))]
fn operand_in(
    alloc: Global,
    line: u64,
    word: &LineWord,
    kind: OperandKind,
) -> Result<OperandDraft, Unread>
    ensures { Gives (λ operand. operand) result (operand_in line word.now kind) }
{
    match kind {
        OperandKind::Register => match register_of(word.text) {
            Some(register) => Ok(OperandDraft::Known(Operand::Register(register))),
            None => Err(word.about(line, About::NoRegister)),
        },
        OperandKind::Value => {
            let n = number_in(line, word, ANY)?;
            Ok(OperandDraft::Known(Operand::Value(n)))
        }
        OperandKind::Length => {
            let n = number_in(line, word, LENGTH)?;
            Ok(OperandDraft::Known(Operand::Length(n as u32)))
        }
        OperandKind::Page => {
            let n = number_in(line, word, THREAD_PAGE)?;
            Ok(OperandDraft::Known(Operand::Page(n as u16)))
        }
        OperandKind::Place => named_in(alloc, line, word, Kind::Label),
        OperandKind::Cell => named_in(alloc, line, word, Kind::Cell),
        OperandKind::Program => named_in(alloc, line, word, Kind::Program),
        OperandKind::Mutex => named_in(alloc, line, word, Kind::Mutex),
        OperandKind::Semaphore => named_in(alloc, line, word, Kind::Semaphore),
    }
}

// The register of a word.
fn register_of(word: &[u8]) -> Option<Reg>
    ensures { result ≡ register_of word.now }
{
    toga_lines::register_of(word)
}

// The word as a name or a number of something of this kind.
#[tactic(auto, unfolding(crate::specs::Operands::named_in))]
fn named_in(alloc: Global, line: u64, word: &LineWord, kind: Kind) -> Result<OperandDraft, Unread>
    ensures { Gives (λ operand. operand) result (named_in line word.now kind) }
{
    if is_name(word.text) {
        return Ok(OperandDraft::Named(kind, word.kept(alloc)?));
    }
    match read_number(word.text) {
        Some(number) => Ok(OperandDraft::Numbered(
            kind,
            NumberDraft {
                number,
                column: word.column,
                width: word.text.len(),
            },
        )),
        None => Err(word.fault(line, Cause::Wanted(Wanted::Operand(kind)))),
    }
}

/// Adds the turns of a word. The last processor has this number.
#[tactic(auto, unfolding(crate::specs::Operands::add_turn))]
pub(crate) fn add_turn(
    line: u64,
    last: u64,
    word: &LineWord,
    turns: &mut Vec<ProcNo>,
) -> Result<(), Unread>
    requires { last < 16 }
    ensures { Leaves turns.new.items result (add_turn line last word.now turns.old.items) }
{
    let Some((processor, times)) = turn_of(word.text) else {
        return Err(word.fault(line, Cause::Wanted(Wanted::Turn(last))));
    };
    if processor > last {
        let limit = Limit {
            what: What::Processor,
            low: 0,
            high: last,
        };
        return Err(word.fault(line, Cause::Wanted(Wanted::Within(limit))));
    }
    if times < 1 || times > MAX_TURNS as u64 {
        let limit = Limit {
            what: What::Number,
            low: 1,
            high: MAX_TURNS as u64,
        };
        return Err(word.fault(line, Cause::Wanted(Wanted::Within(limit))));
    }
    let left = (MAX_TURNS as u64).saturating_sub(turns.len() as u64);
    if times > left {
        return Err(word.fault(line, Cause::Wanted(Wanted::Turns(left))));
    }
    push_turns(turns, ProcNo(processor as u16), times)?;
    Ok(())
}

// Appends so many turns of a processor.
fn push_turns(turns: &mut Vec<ProcNo>, processor: ProcNo, times: u64) -> Result<(), AllocError>
    ensures { OnOk result (turns.new.items ≡ turns.old.items ++ replicate times processor) }
{
    for _ in 0..times {
        turns.push(processor)?;
    }
    Ok(())
}

// The processor of a turn, and how many turns it has.
#[tactic(auto, unfolding(crate::specs::Operands::turn_of))]
fn turn_of(word: &[u8]) -> Option<(u64, u64)>
    ensures { result ≡ turn_of word.now }
{
    match star_of(word) {
        Some(star) => both(read_number(&word[..star]), read_number(&word[star + 1..])),
        None => both(read_number(word), Some(1)),
    }
}

// The number of the first `*` of a word, from 0.
fn star_of(word: &[u8]) -> Option<usize>
    ensures { result ≡ position (λ b. b == 42) word.now }
{
    word.iter().position(|b| *b == b'*')
}

// The two numbers, where there are both.
fn both(processor: Option<u64>, times: Option<u64>) -> Option<(u64, u64)>
    ensures { result ≡ both processor times }
{
    match processor {
        Some(processor) => match times {
            Some(times) => Some((processor, times)),
            None => None,
        },
        None => None,
    }
}
