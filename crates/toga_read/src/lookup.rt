// Names and numbers that are looked up.
ghost use Rattle.std.specs.Prelude.{◌≡◌, ◌<◌, ◌^◌, IfOk, IfErr, Ok, length};
ghost use Rattle.toga_draft.specs.Reading.{Fails};
ghost use Rattle.toga_draft.specs.Whole.{IsProgramDraft, IsSpaceDraft};
ghost use Rattle.toga_read.specs.Lookup.{count_of, draft_names, draft_number, is_label, is_named, kind_count, kind_named, kind_names, label_names, label_place, named_number, no_label, no_name, no_number, number_fault, number_named, other_kind, own_names, place_named, program_number, said_number, thing_number, word_fault};

use std::alloc::{AllocError, Global};
use toga_diagnostic::{Cause, Fault, Kind, Missing, NameList};
use toga_draft::{LabelDraft, NameDraft, NumberDraft, ProgramDraft, SpaceDraft, Unread, Word};
use toga_source::Name;

/// A copy of a name. Fails only where memory runs out.
pub(crate) fn copied(alloc: Global, name: &Name) -> Result<Name, AllocError>
    ensures { IfOk result (λ copy. copy ≡ name.now) }
{
    Ok(Name::new(Vec::from_slice(alloc, name.bytes())?))
}

/// The names of mutexes, semaphores or cells. Fails only where memory runs out.
pub(crate) fn draft_names(alloc: Global, drafts: &[NameDraft]) -> Result<Vec<Name>, AllocError>
    ensures { IfOk result (λ names. names.items ≡ draft_names drafts.now) }
{
    let mut names = Vec::new(alloc);
    for draft in drafts {
        names.push(copied(alloc, &draft.name)?)?;
    }
    Ok(names)
}

// The names of programs.
fn own_names(alloc: Global, programs: &[ProgramDraft]) -> Result<Vec<Name>, AllocError>
    ensures { IfOk result (λ names. names.items ≡ own_names programs.now) }
{
    let mut names = Vec::new(alloc);
    for program in programs {
        names.push(copied(alloc, &program.name.text)?)?;
    }
    Ok(names)
}

// The names of labels.
fn label_names(alloc: Global, labels: &[LabelDraft]) -> Result<Vec<Name>, AllocError>
    ensures { IfOk result (λ names. names.items ≡ label_names labels.now) }
{
    let mut names = Vec::new(alloc);
    for label in labels {
        names.push(copied(alloc, &label.name.text)?)?;
    }
    Ok(names)
}

// The names of this kind.
fn kind_names(alloc: Global, kind: Kind, space: &SpaceDraft) -> Result<Vec<Name>, AllocError>
    ensures { IfOk result (λ names. names.items ≡ kind_names kind space.now) }
{
    match kind {
        Kind::Mutex => draft_names(alloc, &space.mutexes),
        Kind::Semaphore => draft_names(alloc, &space.semaphores),
        Kind::Cell => draft_names(alloc, &space.cells),
        _ => own_names(alloc, &space.programs),
    }
}

// The number of the name among these.
fn draft_number(name: &[u8], drafts: &[NameDraft]) -> Option<usize>
    ensures { result ≡ draft_number name.now drafts.now }
{
    drafts.iter().position(|d| d.name.bytes() == name)
}

// The number of the program of the name.
fn program_number(name: &[u8], programs: &[ProgramDraft]) -> Option<usize>
    ensures { result ≡ program_number name.now programs.now }
{
    programs.iter().position(|p| p.name.text.bytes() == name)
}

// The number of what has the name and is of this kind.
fn number_named(kind: Kind, space: &SpaceDraft, name: &[u8]) -> Option<usize>
    ensures { result ≡ number_named kind space.now name.now }
{
    match kind {
        Kind::Mutex => draft_number(name, &space.mutexes),
        Kind::Semaphore => draft_number(name, &space.semaphores),
        Kind::Cell => draft_number(name, &space.cells),
        _ => program_number(name, &space.programs),
    }
}

// Whether something of this kind has the name.
fn is_named(kind: Kind, space: &SpaceDraft, name: &[u8]) -> bool
    ensures { result ≡ is_named kind space.now name.now }
{
    number_named(kind, space, name).is_some()
}

// The kind of what has the name, if anything.
#[tactic(auto, unfolding(crate::specs::Lookup::kind_named))]
fn kind_named(space: &SpaceDraft, name: &[u8]) -> Option<Kind>
    ensures { result ≡ kind_named space.now name.now }
{
    if is_named(Kind::Mutex, space, name) {
        Some(Kind::Mutex)
    } else if is_named(Kind::Semaphore, space, name) {
        Some(Kind::Semaphore)
    } else if is_named(Kind::Cell, space, name) {
        Some(Kind::Cell)
    } else if is_named(Kind::Program, space, name) {
        Some(Kind::Program)
    } else {
        None
    }
}

// The fault of a word, and of a number, of this line.

fn word_fault(line: u64, word: &Word, missing: Missing) -> Fault
    ensures { result ≡ word_fault line word.now missing }
{
    Fault {
        line,
        column: word.column,
        width: word.text.bytes().len(),
        cause: Cause::Missing(missing),
    }
}

fn number_fault(line: u64, number: NumberDraft, missing: Missing) -> Fault
    ensures { result ≡ number_fault line number missing }
{
    Fault {
        line,
        column: number.column,
        width: number.width,
        cause: Cause::Missing(missing),
    }
}

// That nothing of this kind has the name that the word is.
#[tactic(auto, unfolding(crate::specs::Lookup::no_name))]
fn no_name(
    alloc: Global,
    space: &SpaceDraft,
    kind: Kind,
    word: &Word,
) -> Result<Missing, AllocError>
    ensures { IfOk result (λ missing. missing ≡ no_name space.now kind word.now) }
{
    let names = NameList::new(kind_names(alloc, kind, space)?);
    match kind_named(space, word.text.bytes()) {
        Some(other) => Ok(Missing::Other(other, kind, names)),
        None => Ok(Missing::Name(kind, copied(alloc, &space.name)?, names)),
    }
}

// The number of the thing of this kind that a word of a line names.
#[tactic(auto, unfolding(crate::specs::Lookup::thing_number))]
fn thing_number(
    alloc: Global,
    space: &SpaceDraft,
    line: u64,
    kind: Kind,
    word: &Word,
) -> Result<u16, Unread>
    requires { IsSpaceDraft space.now }
    ensures ok { IfOk result (λ n. thing_number space.now line kind word.now ≡ Ok n) }
    ensures err { IfErr result (λ e. Fails e (thing_number space.now line kind word.now)) }
{
    if let Some(number) = number_named(kind, space, word.text.bytes()) {
        return Ok(number as u16);
    }
    let missing = no_name(alloc, space, kind, word)?;
    Err(Unread::Wrong(word_fault(line, word, missing)))
}

// Whether the label has the name.
fn is_label(label: &LabelDraft, name: &[u8]) -> bool
    ensures { result ≡ is_label name.now label.now }
{
    label.name.text.bytes() == name
}

// The place of the label of the name, if there is one.
fn place_named(name: &[u8], labels: &[LabelDraft]) -> Option<u16>
    ensures { result ≡ place_named name.now labels.now }
{
    for label in labels {
        if is_label(label, name) {
            return Some(label.place);
        }
    }
    None
}

// That no label of the program has the name.
fn no_label(alloc: Global, program: &ProgramDraft) -> Result<Missing, AllocError>
    ensures { IfOk result (λ missing. missing ≡ no_label program.now) }
{
    let name = copied(alloc, &program.name.text)?;
    let labels = NameList::new(label_names(alloc, &program.labels)?);
    Ok(Missing::Label(name, labels, program.instrs.len() as u64))
}

// The place that a word of a line names.
#[tactic(auto, unfolding(crate::specs::Lookup::label_place))]
fn label_place(alloc: Global, program: &ProgramDraft, line: u64, word: &Word) -> Result<u16, Unread>
    ensures ok { IfOk result (λ n. label_place program.now line word.now ≡ Ok n) }
    ensures err { IfErr result (λ e. Fails e (label_place program.now line word.now)) }
{
    if let Some(place) = place_named(word.text.bytes(), &program.labels) {
        return Ok(place);
    }
    let missing = no_label(alloc, program)?;
    Err(Unread::Wrong(word_fault(line, word, missing)))
}

/// What a name in this line stands for: a place, or a number of this kind.
#[tactic(auto, unfolding(crate::specs::Lookup::named_number))]
pub(crate) fn named_number(
    alloc: Global,
    space: &SpaceDraft,
    program: &ProgramDraft,
    line: u64,
    kind: Kind,
    word: &Word,
) -> Result<u16, Unread>
    requires { IsSpaceDraft space.now }
    ensures ok { IfOk result (λ n. named_number space.now program.now line kind word.now ≡ Ok n) }
    ensures err { IfErr result (λ e. Fails e (named_number space.now program.now line kind word.now)) }
{
    match kind {
        Kind::Label => label_place(alloc, program, line, word),
        _ => thing_number(alloc, space, line, kind, word),
    }
}

// How many things of this kind there are.
fn kind_count(kind: Kind, space: &SpaceDraft) -> usize
    ensures { result ≡ kind_count kind space.now }
{
    match kind {
        Kind::Mutex => space.mutexes.len(),
        Kind::Semaphore => space.semaphores.len(),
        Kind::Cell => space.cells.len(),
        _ => space.programs.len(),
    }
}

// How many places, or things of this kind, there are.
fn count_of(space: &SpaceDraft, program: &ProgramDraft, kind: Kind) -> usize
    ensures { result ≡ count_of space.now program.now kind }
{
    match kind {
        Kind::Label => program.instrs.len(),
        _ => kind_count(kind, space),
    }
}

// That no place, or nothing of this kind, has the number.
fn no_number(
    alloc: Global,
    space: &SpaceDraft,
    program: &ProgramDraft,
    kind: Kind,
    n: u64,
) -> Result<Missing, AllocError>
    ensures { IfOk result (λ missing. missing ≡ no_number space.now program.now kind n) }
{
    match kind {
        Kind::Label => {
            let name = copied(alloc, &program.name.text)?;
            Ok(Missing::Place(n, name, program.instrs.len() as u64))
        }
        _ => {
            let name = copied(alloc, &space.name)?;
            Ok(Missing::Number(kind, n, name, kind_count(kind, space) as u64))
        }
    }
}

/// The number in this line, if there is a place, or something of this kind, that has it.
#[tactic(auto, unfolding(crate::specs::Lookup::said_number))]
pub(crate) fn said_number(
    alloc: Global,
    space: &SpaceDraft,
    program: &ProgramDraft,
    line: u64,
    kind: Kind,
    number: NumberDraft,
) -> Result<u16, Unread>
    requires space { IsSpaceDraft space.now }
    requires program { IsProgramDraft program.now }
    ensures ok { IfOk result (λ n. said_number space.now program.now line kind number ≡ Ok n) }
    ensures err { IfErr result (λ e. Fails e (said_number space.now program.now line kind number)) }
{
    if number.number < count_of(space, program, kind) as u64 {
        return Ok(number.number as u16);
    }
    let missing = no_number(alloc, space, program, kind, number.number)?;
    Err(Unread::Wrong(number_fault(line, number, missing)))
}
