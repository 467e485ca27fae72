// The lines that say something of a space, before its first program.
ghost use Rattle.std.specs.Prelude.{◌≡◌, ◌<◌, ◌==◌, OnOk};
ghost use Rattle.std.specs.List.{list_any};
ghost use Rattle.sa_instr.specs.declared.limits.TheConstants.{MAX_EVICTIONS};
ghost use Rattle.toga_draft.specs.Reading.{Gives, Leaves, in_turn};
ghost use Rattle.toga_draft.specs.Declarations.{add_cell, add_eviction, add_mutex, add_names, add_page, add_pages, add_semaphore, after_evict, at_in, at_most, declare, is_evicted, name_line, new_eviction, new_name, program_line, set_once, start_in, taken};

use crate::draft::{EvictDraft, NameDraft, ProgramDraft, Setting, SpaceDraft};
use crate::first::Declaration;
use crate::operands::{count_words, name_in, number_in, some_words};
use crate::unread::Unread;
use crate::word::LineWord;
use sa_base::MAX_EVENTS;
use sa_instr::{
    LAST_PAGE, MAX_CELLS, MAX_EVICTIONS, MAX_MUTEXES, MAX_PATIENCE, MAX_PRIORITY, MAX_SEMAPHORES,
    MAX_START,
};
use std::alloc::Global;
use toga_diagnostic::{About, Cause, Kind, Limit, Next, Part, Twice, What};

/// A priority of a space.
pub(crate) const PRIORITY: Limit = Limit {
    what: What::Priority,
    low: 0,
    high: MAX_PRIORITY as u64,
};

/// A patience.
pub(crate) const PATIENCE: Limit = Limit {
    what: What::Patience,
    low: 1,
    high: MAX_PATIENCE as u64,
};

/// What a semaphore starts with.
pub(crate) const COUNT: Limit = Limit {
    what: What::Count,
    low: 0,
    high: MAX_START as u64,
};

/// A page of a space.
pub(crate) const PAGE: Limit = Limit {
    what: What::Page,
    low: 0,
    high: LAST_PAGE as u64,
};

/// An event of an eviction.
pub(crate) const EVENT: Limit = Limit {
    what: What::Event,
    low: 1,
    high: MAX_EVENTS,
};

/// Reads a declaration of a space. There are so many evictions in all before it.
#[tactic(auto, unfolding(crate::specs::Declarations::declare, crate::specs::Declarations::add_names))]
pub(crate) fn declare(
    alloc: Global,
    line: u64,
    word: &LineWord,
    operands: &[LineWord],
    evictions: usize,
    declaration: Declaration,
    space: &mut SpaceDraft,
) -> Result<(), Unread>
    ensures { Leaves space.new result (declare line word.now operands.now evictions declaration space.old) }
{
    match declaration {
        Declaration::Priority => set_once(line, word, operands, PRIORITY, &mut space.priority)?,
        Declaration::Patience => set_once(line, word, operands, PATIENCE, &mut space.patience)?,
        Declaration::Mutexes => {
            some_words(line, word, operands, Next::Name)?;
            add_mutexes(alloc, line, operands, space)?;
        }
        Declaration::Cells => {
            some_words(line, word, operands, Next::Name)?;
            add_cells(alloc, line, operands, space)?;
        }
        Declaration::Semaphore => add_semaphore(alloc, line, word, operands, space)?,
        Declaration::Absent => add_pages(line, word, operands, &mut space.absent)?,
        Declaration::Evict => {
            add_eviction(line, word, operands, evictions, &mut space.evictions)?;
        }
    }
    Ok(())
}

/// Sets a number that is set once.
#[tactic(auto, unfolding(crate::specs::Declarations::set_once))]
pub(crate) fn set_once(
    line: u64,
    word: &LineWord,
    operands: &[LineWord],
    limit: Limit,
    setting: &mut Option<Setting>,
) -> Result<(), Unread>
    ensures { Leaves setting.new result (set_once line word.now operands.now limit setting.old) }
{
    if let Some(earlier) = *setting {
        return Err(word.fault(line, Cause::Twice(Twice::Setting(earlier.line))));
    }
    count_words(line, word, operands, 1, 1, Next::Number(limit.what))?;
    let value = number_in(line, &operands[0], limit)?;
    *setting = Some(Setting { value, line });
    Ok(())
}

/// Checks that there is room for one more of a kind.
#[tactic(auto, unfolding(crate::specs::Declarations::at_most))]
pub(crate) fn at_most(
    line: u64,
    word: &LineWord,
    kind: Kind,
    most: usize,
    count: usize,
) -> Result<(), Unread>
    ensures exact { Gives (λ _. tt) result (at_most line word.now kind most count) }
    ensures room { OnOk result (count < most) }
{
    if count < most {
        return Ok(());
    }
    Err(word.fault(line, Cause::Part(Part::OneMore(kind, most as u64))))
}

// The line of the first of these with the name, if there is one.
fn name_line(names: &[NameDraft], name: &[u8]) -> Option<u64>
    ensures { result ≡ name_line names.now name.now }
{
    names
        .iter()
        .find(|n| n.name.bytes() == name)
        .map(|n| n.line)
}

// The line of the first of the programs with the name, if there is one.
fn program_line(programs: &[ProgramDraft], name: &[u8]) -> Option<u64>
    ensures { result ≡ program_line programs.now name.now }
{
    programs
        .iter()
        .find(|p| p.name.text.bytes() == name)
        .map(|p| p.line)
}

// What has the name in a space already, if anything has.
#[tactic(auto, unfolding(crate::specs::Declarations::taken))]
fn taken(space: &SpaceDraft, name: &[u8]) -> Option<Twice>
    ensures { result ≡ taken space.now name.now }
{
    if let Some(line) = name_line(&space.mutexes, name) {
        return Some(Twice::Name(line, Kind::Mutex));
    }
    if let Some(line) = name_line(&space.semaphores, name) {
        return Some(Twice::Name(line, Kind::Semaphore));
    }
    if let Some(line) = name_line(&space.cells, name) {
        return Some(Twice::Name(line, Kind::Cell));
    }
    match program_line(&space.programs, name) {
        Some(line) => Some(Twice::Name(line, Kind::Program)),
        None => None,
    }
}

/// Checks that a word is a name that nothing in the space has.
#[tactic(auto, unfolding(crate::specs::Declarations::new_name))]
pub(crate) fn new_name(line: u64, word: &LineWord, space: &SpaceDraft) -> Result<(), Unread>
    ensures { Gives (λ _. tt) result (new_name line word.now space.now) }
{
    name_in(line, word)?;
    match taken(space, word.text) {
        Some(twice) => Err(word.fault(line, Cause::Twice(twice))),
        None => Ok(()),
    }
}

// Declares a mutex.
#[tactic(auto, unfolding(crate::specs::Declarations::add_mutex))]
fn add_mutex(
    alloc: Global,
    line: u64,
    word: &LineWord,
    space: &mut SpaceDraft,
) -> Result<(), Unread>
    ensures { Leaves space.new result (add_mutex line word.now space.old) }
{
    at_most(
        line,
        word,
        Kind::Mutex,
        MAX_MUTEXES as usize,
        space.mutexes.len(),
    )?;
    new_name(line, word, space)?;
    let name = word.name(alloc)?;
    space.mutexes.push(NameDraft { name, line })?;
    Ok(())
}

// Declares mutexes.
fn add_mutexes(
    alloc: Global,
    line: u64,
    words: &[LineWord],
    space: &mut SpaceDraft,
) -> Result<(), Unread>
    ensures { Leaves space.new result (in_turn (add_mutex line) words.now space.old) }
{
    for word in words {
        add_mutex(alloc, line, word, space)?;
    }
    Ok(())
}

// Declares a cell.
#[tactic(auto, unfolding(crate::specs::Declarations::add_cell))]
fn add_cell(alloc: Global, line: u64, word: &LineWord, space: &mut SpaceDraft) -> Result<(), Unread>
    ensures { Leaves space.new result (add_cell line word.now space.old) }
{
    at_most(
        line,
        word,
        Kind::Cell,
        MAX_CELLS as usize,
        space.cells.len(),
    )?;
    new_name(line, word, space)?;
    let name = word.name(alloc)?;
    space.cells.push(NameDraft { name, line })?;
    Ok(())
}

// Declares cells.
fn add_cells(
    alloc: Global,
    line: u64,
    words: &[LineWord],
    space: &mut SpaceDraft,
) -> Result<(), Unread>
    ensures { Leaves space.new result (in_turn (add_cell line) words.now space.old) }
{
    for word in words {
        add_cell(alloc, line, word, space)?;
    }
    Ok(())
}

// Declares a semaphore.
#[tactic(auto, unfolding(crate::specs::Declarations::add_semaphore))]
fn add_semaphore(
    alloc: Global,
    line: u64,
    word: &LineWord,
    operands: &[LineWord],
    space: &mut SpaceDraft,
) -> Result<(), Unread>
    ensures { Leaves space.new result (add_semaphore line word.now operands.now space.old) }
{
    at_most(
        line,
        word,
        Kind::Semaphore,
        MAX_SEMAPHORES,
        space.semaphores.len(),
    )?;
    count_words(line, word, operands, 1, 2, Next::Name)?;
    new_name(line, &operands[0], space)?;
    let start = start_in(line, operands)?;
    let name = operands[0].name(alloc)?;
    space.semaphores.push(NameDraft { name, line })?;
    space.starts.push(start)?;
    Ok(())
}

// What a semaphore starts with.
#[tactic(auto, unfolding(crate::specs::Declarations::start_in))]
fn start_in(line: u64, operands: &[LineWord]) -> Result<u32, Unread>
    ensures { Gives (λ n. n) result (start_in line operands.now) }
{
    if operands.len() > 1 {
        let start = number_in(line, &operands[1], COUNT)?;
        return Ok(start as u32);
    }
    Ok(0)
}

// Declares pages that are absent at the opening.
#[tactic(auto, unfolding(crate::specs::Declarations::add_pages))]
fn add_pages(
    line: u64,
    word: &LineWord,
    operands: &[LineWord],
    absent: &mut Vec<u16>,
) -> Result<(), Unread>
    ensures { Leaves absent.new.items result (add_pages line word.now operands.now absent.old.items) }
{
    some_words(line, word, operands, Next::AnyPage)?;
    add_each_page(line, operands, absent)?;
    Ok(())
}

fn add_each_page(line: u64, words: &[LineWord], absent: &mut Vec<u16>) -> Result<(), Unread>
    ensures { Leaves absent.new.items result (in_turn (add_page line) words.now absent.old.items) }
{
    for word in words {
        add_page(line, word, absent)?;
    }
    Ok(())
}

// Declares a page that is absent at the opening.
#[tactic(auto, unfolding(crate::specs::Declarations::add_page))]
fn add_page(line: u64, word: &LineWord, absent: &mut Vec<u16>) -> Result<(), Unread>
    ensures { Leaves absent.new.items result (add_page line word.now absent.old.items) }
{
    let page = number_in(line, word, PAGE)? as u16;
    if is_absent(absent.as_slice(), page) {
        return Err(word.fault(line, Cause::Twice(Twice::Page(u64::from(page)))));
    }
    absent.push(page)?;
    Ok(())
}

// Whether the page is absent already.
fn is_absent(absent: &[u16], page: u16) -> bool
    ensures { result ≡ list_any (λ p. p == page) absent.now }
{
    absent.iter().any(|p| *p == page)
}

// Declares an eviction, after so many in all.
#[tactic(auto, unfolding(crate::specs::Declarations::add_eviction))]
fn add_eviction(
    line: u64,
    word: &LineWord,
    operands: &[LineWord],
    count: usize,
    evictions: &mut Vec<EvictDraft>,
) -> Result<(), Unread>
    ensures exact { Leaves evictions.new.items result (add_eviction line word.now operands.now count evictions.old.items) }
    ensures room { OnOk result (count < MAX_EVICTIONS) }
{
    count_words(line, word, operands, 3, 3, after_evict(operands.len()))?;
    let page = number_in(line, &operands[0], PAGE)? as u16;
    at_in(line, &operands[1])?;
    let event = number_in(line, &operands[2], EVENT)?;
    new_eviction(line, &operands[2], page, event, evictions.as_slice())?;
    at_most(line, word, Kind::Eviction, MAX_EVICTIONS, count)?;
    evictions.push(EvictDraft { page, event })?;
    Ok(())
}

// What should follow so many operands of an eviction.
fn after_evict(operands: usize) -> Next
    ensures { result ≡ after_evict operands }
{
    match operands {
        0 => Next::AnyPage,
        1 => Next::At,
        _ => Next::AnyEvent,
    }
}

// Checks that a word is `at`.
#[tactic(auto, unfolding(crate::specs::Declarations::at_in))]
fn at_in(line: u64, word: &LineWord) -> Result<(), Unread>
    ensures { Gives (λ _. tt) result (at_in line word.now) }
{
    if word.text == b"at".as_slice() {
        return Ok(());
    }
    Err(word.about(line, About::NoAt))
}

// Checks that the page does not go away at the event already.
#[tactic(auto, unfolding(crate::specs::Declarations::new_eviction))]
fn new_eviction(
    line: u64,
    word: &LineWord,
    page: u16,
    event: u64,
    evictions: &[EvictDraft],
) -> Result<(), Unread>
    ensures { Gives (λ _. tt) result (new_eviction line word.now page event evictions.now) }
{
    if is_evicted(page, event, evictions) {
        return Err(word.fault(line, Cause::Twice(Twice::Event(u64::from(page), event))));
    }
    Ok(())
}

// Whether the page goes away at the event already.
fn is_evicted(page: u16, event: u64, evictions: &[EvictDraft]) -> bool
    ensures { result ≡ is_evicted page event evictions.now }
{
    evictions.iter().any(|e| e.page == page && e.event == event)
}
