// What the first word of a line says that the line is, and where such a line may stand.
ghost use Rattle.std.specs.Prelude.{◌≡◌};
ghost use Rattle.sa_instr.specs.Operation.{operation_of};
ghost use Rattle.toga_draft.specs.First.{declaration_misplaced, declaration_of, first_of, instr_misplaced, misplaced, opening_misplaced, other_of, setting_misplaced, setting_of, turns_misplaced};

use sa_instr::Operation;
use toga_diagnostic::{About, Cause, Stage};

/// A number of the machine, which is set once.
#[derive(Clone, Copy)]
pub(crate) enum SettingWord {
    Processors,
    Fetch,
    Slice,
}

/// A declaration of a space.
#[derive(Clone, Copy)]
pub(crate) enum Declaration {
    Priority,
    Patience,
    Mutexes,
    Cells,
    Semaphore,
    Absent,
    Evict,
}

/// What a line is.
#[derive(Clone, Copy)]
pub(crate) enum First {
    Setting(SettingWord),
    Declaration(Declaration),
    Space,
    Program,
    Turns,
    Workload,
    Instr(Operation),
    Unknown,
}

/// What a line is that begins with the word.
#[tactic(auto, unfolding(crate::specs::First::first_of))]
pub(crate) fn first_of(word: &[u8]) -> First
    ensures { result ≡ first_of word.now }
{
    if let Some(setting) = setting_of(word) {
        return First::Setting(setting);
    }
    if let Some(declaration) = declaration_of(word) {
        return First::Declaration(declaration);
    }
    if let Some(first) = other_of(word) {
        return first;
    }
    match operation_of(word) {
        Some(operation) => First::Instr(operation),
        None => First::Unknown,
    }
}

// The operation of the word, if it is one's.
fn operation_of(word: &[u8]) -> Option<Operation>
    ensures { result ≡ operation_of word.now }
{
    Operation::of_word(word)
}

// The setting of the word, if it is one's.
#[tactic(auto, unfolding(crate::specs::First::setting_of))]
fn setting_of(word: &[u8]) -> Option<SettingWord>
    ensures { result ≡ setting_of word.now }
{
    if word == b"processors".as_slice() {
        return Some(SettingWord::Processors);
    }
    if word == b"fetch".as_slice() {
        return Some(SettingWord::Fetch);
    }
    if word == b"slice".as_slice() {
        return Some(SettingWord::Slice);
    }
    None
}

// The declaration of the word, if it is one's.
#[tactic(auto, unfolding(crate::specs::First::declaration_of))]
fn declaration_of(word: &[u8]) -> Option<Declaration>
    ensures { result ≡ declaration_of word.now }
{
    if word == b"priority".as_slice() {
        return Some(Declaration::Priority);
    }
    if word == b"patience".as_slice() {
        return Some(Declaration::Patience);
    }
    if word == b"mutex".as_slice() {
        return Some(Declaration::Mutexes);
    }
    if word == b"cell".as_slice() {
        return Some(Declaration::Cells);
    }
    if word == b"semaphore".as_slice() {
        return Some(Declaration::Semaphore);
    }
    if word == b"absent".as_slice() {
        return Some(Declaration::Absent);
    }
    if word == b"evict".as_slice() {
        return Some(Declaration::Evict);
    }
    None
}

// What else begins with the word, if anything does.
#[tactic(auto, unfolding(crate::specs::First::other_of))]
fn other_of(word: &[u8]) -> Option<First>
    ensures { result ≡ other_of word.now }
{
    if word == b"space".as_slice() {
        return Some(First::Space);
    }
    if word == b"program".as_slice() {
        return Some(First::Program);
    }
    if word == b"turns".as_slice() {
        return Some(First::Turns);
    }
    if word == b"workload".as_slice() {
        return Some(First::Workload);
    }
    None
}

/// Why such a line may not stand there, if it may not.
pub(crate) fn misplaced(first: First, stage: Stage) -> Option<Cause>
    ensures { result ≡ misplaced first stage }
{
    let about = match first {
        First::Setting(_) => setting_misplaced(stage),
        First::Declaration(_) => declaration_misplaced(stage),
        First::Space => opening_misplaced(stage),
        First::Program => opening_misplaced(stage),
        First::Turns => turns_misplaced(stage),
        First::Instr(_) => instr_misplaced(stage),
        First::Workload | First::Unknown => None,
    };
    match about {
        Some(about) => Some(Cause::About(about)),
        None => None,
    }
}

// Why a setting may not stand there, if it may not.
fn setting_misplaced(stage: Stage) -> Option<About>
    ensures { result ≡ setting_misplaced stage }
{
    match stage {
        Stage::Top => None,
        Stage::AfterTurns => Some(About::AfterTurns),
        _ => Some(About::SettingLate),
    }
}

// The same for a declaration of a space.
fn declaration_misplaced(stage: Stage) -> Option<About>
    ensures { result ≡ declaration_misplaced stage }
{
    match stage {
        Stage::InProgram => Some(About::DeclarationLate),
        Stage::AfterTurns => Some(About::AfterTurns),
        _ => None,
    }
}

// The same for the line that begins a space or a program.
fn opening_misplaced(stage: Stage) -> Option<About>
    ensures { result ≡ opening_misplaced stage }
{
    match stage {
        Stage::AfterTurns => Some(About::AfterTurns),
        _ => None,
    }
}

// The same for turns.
fn turns_misplaced(stage: Stage) -> Option<About>
    ensures { result ≡ turns_misplaced stage }
{
    match stage {
        Stage::Top | Stage::Declaring => Some(About::TurnsEarly),
        _ => None,
    }
}

// The same for an instruction.
fn instr_misplaced(stage: Stage) -> Option<About>
    ensures { result ≡ instr_misplaced stage }
{
    match stage {
        Stage::InProgram => None,
        Stage::AfterTurns => Some(About::AfterTurns),
        _ => Some(About::Outside),
    }
}
