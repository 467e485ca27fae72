// The table of lines: which words may begin the next line, and what follows them.
ghost use Rattle.std.specs.Prelude.{◌≡◌, ◌==◌, ◌-◌, true, [], ◌∷◌, ℕ, if◌then◌else◌, map, MatchResult, None, Some, codes};
ghost use Rattle.std.specs.List.{list_all};
ghost use Rattle.std.specs.Option.{is_some, option_map};
ghost use Rattle.std.specs.Str.{bytes_eq};
ghost use Rattle.sa_base.specs.Cause.{cause_number};
ghost use Rattle.sa_spaces.specs.Space.{SpaceView};
ghost use Rattle.sa_workload.specs.Bad.{declared, fields_by, instr_words, operand_field, within};
ghost use Rattle.sa_workload.specs.Fields.{index_of, order_cause};
ghost use Rattle.sa_workload.specs.Steps.{expected};
ghost use Rattle.sa_workload.specs.Next.{draft_numbers, evict_numbers, fields_of, is_full, is_last_impatient, last_numbers, last_of, space_fields};
ghost use Rattle.sa_workload.specs.Stage.{field_of, machine_of, draft_of, machine_position, machine_word, position_of, IsAsLong};

use crate::field::{Field, Fields, Numbers, list, one};
use crate::stage::{MachineLine, Reader, SpaceDraft, Stage};
use sa_base::{Cause, FIRST_THREAD_PAGE, MAX_EVENTS, MAX_PROCESSORS, MAX_SPACES};
use sa_instr::{
    LAST_PAGE, MAX_CELLS, MAX_EVICTIONS, MAX_FETCH, MAX_INSTRUCTIONS, MAX_IO_LENGTH, MAX_MUTEXES,
    MAX_PATIENCE, MAX_PRIORITY, MAX_PROGRAMS, MAX_SEMAPHORES, MAX_SLICE, MAX_START, MAX_TURNS,
    OperandKind, Operation,
};
use sa_spaces::{Evict, SpaceDef};
use std::cmp::Ordering;

impl MachineLine {
    // The word that the line begins with.
    fn word(self) -> &'static [u8]
        ensures { result.now ≡ machine_word self }
    {
        match self {
            MachineLine::Version => b"workload",
            MachineLine::Processors => b"processors",
            MachineLine::Fetch => b"fetch",
            MachineLine::Slice => b"slice",
            MachineLine::Spaces => b"spaces",
        }
    }
}

impl Reader {
    /// Whether the word may begin the next line.
    pub fn expects(&self, word: &[u8]) -> bool
        ensures { result ≡ is_some (index_of word.now (expected (position_of self.now))) }
    {
        match self.stage {
            Stage::Machine(line) => word == line.word(),
            Stage::Space => is(word, b"space"),
            Stage::Sem => is(word, b"sem"),
            Stage::Absent => is_either(word, b"absent", b"program"),
            Stage::Program => is(word, b"program"),
            Stage::Instr => Operation::of_word(word).is_some(),
            Stage::Evict => is_either(word, b"evict", b"turn") || is(word, b"close"),
            Stage::Turn => is_either(word, b"turn", b"close"),
            Stage::Closed => false,
        }
    }

    /// Whether there are as many lines of the word as there may be.
    pub fn is_full(&self, word: &[u8]) -> bool
        ensures { result ≡ is_full (position_of self.now) word.now }
    {
        match self.stage {
            Stage::Evict => is(word, b"evict") && self.evictions.len() >= MAX_EVICTIONS,
            Stage::Turn => is(word, b"turn") && self.turns.len() >= MAX_TURNS,
            _ => false,
        }
    }

    /// What follows this word in the next line.
    pub fn fields(&self, versions: u16, word: &[u8]) -> Fields
        requires { is_some (index_of word.now (expected (position_of self.now))) ≡ true }
        ensures { map field_of result.items
            ≡ fields_of versions (position_of self.now) word.now }
    {
        match self.stage {
            Stage::Machine(line) => one(self.machine_field(versions, line)),
            Stage::Space => self.space_fields(),
            Stage::Sem => one(Field::Within(0, MAX_START as u64)),
            Stage::Absent if is(word, b"absent") => one(Field::Within(0, LAST_PAGE as u64)),
            Stage::Absent | Stage::Program => one(Field::Within(1, MAX_INSTRUCTIONS as u64)),
            Stage::Instr => operand_fields(&self.draft, self.len, word),
            Stage::Evict if is(word, b"evict") => self.evict_fields(),
            Stage::Evict | Stage::Turn => self.turn_fields(word),
            Stage::Closed => Fields::new(),
        }
    }

    // The number of a line before those of the spaces. A slice may be 0 in version 3 alone.
    fn machine_field(&self, versions: u16, line: MachineLine) -> Field
        ensures { field_of result ∷ []
            ≡ fields_of versions (machine_position line self.now.header) (machine_word line) }
    {
        match line {
            MachineLine::Version => Field::Within(1, u64::from(versions)),
            MachineLine::Processors => Field::Within(1, MAX_PROCESSORS as u64),
            MachineLine::Fetch => Field::Within(1, MAX_FETCH as u64),
            MachineLine::Slice => {
                let least = if self.header.version == 3 { 0 } else { 1 };
                Field::Within(least, MAX_SLICE as u64)
            }
            MachineLine::Spaces => Field::Within(1, MAX_SPACES as u64),
        }
    }

    // What follows `space`: in version 3 the patience too.
    fn space_fields(&self) -> Fields
        ensures { map field_of result.items
            ≡ space_fields (machine_of self.now.header) self.now.spaces.items }
    {
        let mut fields: Fields = list(&[
            Field::Within(0, MAX_PRIORITY as u64),
            Field::Within(0, MAX_MUTEXES as u64),
            Field::Within(0, MAX_SEMAPHORES as u64),
            Field::Within(0, MAX_CELLS as u64),
            Field::Within(1, MAX_PROGRAMS as u64),
        ]);
        if self.header.version == 3 {
            let least = if self.needs_patience() { 2 } else { 1 };
            fields.push(Field::Within(least, MAX_PATIENCE as u64));
        }
        fields
    }

    // Whether the next space is the last, and each before it has patience 1.
    fn needs_patience(&self) -> bool
        ensures { result ≡ is_last_impatient (machine_of self.now.header) self.now.spaces.items }
    {
        self.spaces.len() + 1 >= usize::from(self.header.count) && are_impatient(&self.spaces)
    }

    // What follows `evict`.
    fn evict_fields(&self) -> Fields
        ensures { map field_of result.items
            ≡ within 1 MAX_EVENTS ∷ declared self.now.header.count ∷ within 0 LAST_PAGE ∷ [] }
    {
        list(&[
            Field::Within(1, MAX_EVENTS),
            Field::Below(self.header.count, Cause::NoSuchName),
            Field::Within(0, LAST_PAGE as u64),
        ])
    }

    // What follows `turn`; `close` has nothing.
    fn turn_fields(&self, word: &[u8]) -> Fields
        ensures { map field_of result.items
            ≡ (if bytes_eq word.now (codes "turn") then within 0 (self.now.header.processors - 1) ∷ [] else []) }
    {
        if is(word, b"turn") {
            one(Field::Within(0, u64::from(self.header.processors.saturating_sub(1))))
        } else {
            Fields::new()
        }
    }

    /// Whether the numbers may follow those of the last line of the word.
    pub fn in_order(&self, word: &[u8], numbers: &[u64]) -> Result<(), Cause>
        requires { IsAsLong numbers.now (last_numbers (position_of self.now) word.now) }
        ensures { let order = order_cause (last_numbers (position_of self.now) word.now) numbers.now in
            MatchResult result (λ _. order ≡ None) (λ cause. order ≡ Some (cause_number cause)) }
    {
        let Some(last) = self.last_numbers(word) else {
            return Ok(());
        };
        match numbers.cmp(&last.as_slice()) {
            Ordering::Equal => Err(Cause::Twice),
            Ordering::Less => Err(Cause::OutOfRange),
            Ordering::Greater => Ok(()),
        }
    }

    // The numbers of the last line, where a line of the word has to come after them.
    fn last_numbers(&self, word: &[u8]) -> Option<Numbers>
        ensures { option_map (λ numbers. numbers.items) result ≡ last_numbers (position_of self.now) word.now }
    {
        match self.stage {
            Stage::Absent if is(word, b"absent") => page_numbers(&self.draft.absent),
            Stage::Evict if is(word, b"evict") => evict_numbers(&self.evictions),
            _ => None,
        }
    }
}

/// Whether the word is this one.
pub(crate) fn is(word: &[u8], this: &[u8]) -> bool
    ensures { result ≡ bytes_eq word.now this.now }
{
    word == this
}

// Whether the word is one of the two.
fn is_either(word: &[u8], one: &[u8], other: &[u8]) -> bool
    ensures { result ≡ is_some (index_of word.now (one.now ∷ other.now ∷ [])) }
{
    word == one || word == other
}

// The number of the last of these pages, where there is one.
fn page_numbers(pages: &[u16]) -> Option<Numbers>
    ensures { option_map (λ numbers. numbers.items) result ≡ option_map (λ page. page ∷ []) (last_of pages.now) }
{
    let Some(page) = pages.last() else {
        return None;
    };
    Some(one(u64::from(*page)))
}

// The numbers of the last of these evictions, where there is one.
fn evict_numbers(evictions: &[Evict]) -> Option<Numbers>
    ensures { option_map (λ numbers. numbers.items) result ≡ option_map evict_numbers (last_of evictions.now) }
{
    let Some(last) = evictions.last() else {
        return None;
    };
    let numbers = [last.event, u64::from(last.space.0), u64::from(last.page)];
    Some(list(&numbers))
}

/// Whether each of the spaces has patience 1.
pub(crate) fn are_impatient(spaces: &[SpaceDef]) -> bool
    ensures { result ≡ list_all (λ (s : SpaceView). s.patience == 1) spaces.now }
{
    for space in spaces {
        if space.patience() != 1 {
            return false;
        }
    }
    true
}

// What follows the word of an instruction, in a program of this length of the space.
fn operand_fields(draft: &SpaceDraft, len: u16, word: &[u8]) -> Fields
    requires { is_some (index_of word.now instr_words) ≡ true }
    ensures { (versions : ℕ) → map field_of result.items
        ≡ fields_by versions (draft_numbers (draft_of draft.now) len) word.now }
{
    let mut fields = Fields::new();
    if let Some(operation) = Operation::of_word(word) {
        for kind in operation.form().operands {
            fields.push(operand_field(draft, len, *kind));
        }
    }
    fields
}

// An operand of this kind, in a program of this length of the space.
fn operand_field(draft: &SpaceDraft, len: u16, kind: OperandKind) -> Field
    ensures { field_of result ≡ operand_field (draft_numbers (draft_of draft.now) len) kind }
{
    match kind {
        OperandKind::Register => Field::Register,
        OperandKind::Value => Field::Within(0, u64::MAX),
        OperandKind::Place => Field::Below(len, Cause::BadTarget),
        OperandKind::Cell => Field::Below(draft.cells, Cause::NoSuchName),
        OperandKind::Program => Field::Below(draft.program_count, Cause::NoSuchName),
        OperandKind::Mutex => Field::Below(draft.mutexes, Cause::NoSuchName),
        OperandKind::Semaphore => Field::Below(draft.sem_count, Cause::NoSuchName),
        OperandKind::Length => Field::Within(1, MAX_IO_LENGTH as u64),
        OperandKind::Page => Field::Within(FIRST_THREAD_PAGE as u64, LAST_PAGE as u64),
    }
}
