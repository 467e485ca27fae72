// The lines of a source, one after another.
ghost use Rattle.std.specs.Prelude.{◌≡◌, ◌≤◌, ◌<◌, IfOk};
ghost use Rattle.sa_instr.specs.declared.limits.TheConstants.{MAX_EVICTIONS};
ghost use Rattle.sa_text.specs.Line.{IsWithin, lines_of};
ghost use Rattle.toga_diagnostic.specs.Text.{is_label};
ghost use Rattle.toga_draft.specs.Lines.{declare_in, draft_of, empty, end_of_lines, end_program, end_space, is_beyond, new_program, new_space, no_program, one_more, opened, read_after_label, read_by, read_declaration, read_first, read_instr, read_label, read_line, read_line_of, read_program, read_setting, read_space, read_turns, read_words, space_line, too_long, unless_space};
ghost use Rattle.toga_draft.specs.Operands.{add_turn};
ghost use Rattle.toga_draft.specs.Reader.{IsReady, state_of};
ghost use Rattle.toga_draft.specs.Reading.{Gives, Leaves, in_turn};
ghost use Rattle.toga_draft.specs.State.{start};
ghost use Rattle.toga_draft.specs.Whole.{IsDraft};

use crate::declarations::{at_most, declare, new_name, set_once};
use crate::draft::{Draft, ProgramDraft, Setting, SpaceDraft};
use crate::first::{Declaration, First, SettingWord, first_of, misplaced};
use crate::operands::{add_turn, count_words, name_in, some_words};
use crate::programs::{add_instr, add_label, whole_program};
use crate::unread::Unread;
use crate::word::{LineWord, Word, words_in};
use sa_base::{MAX_PROCESSORS, MAX_SPACES, ProcNo};
use sa_instr::{MAX_FETCH, MAX_PROGRAMS, MAX_SLICE, Operation};
use sa_text::{Line, Lines};
use std::alloc::{AllocError, Global};
use std::mem;
use toga_diagnostic::{About, Cause, Fault, Kind, Limit, Next, Part, Stage, Twice, Wanted, What};
use toga_lines::content_of;
use toga_source::Name;

/// The bytes of a source at most.
pub const MAX_SOURCE: usize = 4_194_304;

/// A number of processors.
pub(crate) const PROCESSORS: Limit = Limit {
    what: What::Processors,
    low: 1,
    high: MAX_PROCESSORS as u64,
};

/// How many events a fetch takes.
pub(crate) const FETCH: Limit = Limit {
    what: What::Events,
    low: 1,
    high: MAX_FETCH as u64,
};

/// A slice.
pub(crate) const SLICE: Limit = Limit {
    what: What::Events,
    low: 0,
    high: MAX_SLICE as u64,
};

/// The draft of a source, whose lines are read one after another up to the first error of form.
pub fn read_draft(alloc: Global, text: &[u8]) -> Result<Draft, Unread>
    ensures exact { Gives (λ draft. draft) result (draft_of text.now) }
    ensures whole { IfOk result IsDraft }
{
    read_all(alloc, text)
}

// The same, without what holds of each draft.
#[tactic(auto, unfolding(crate::specs::Lines::draft_of))]
fn read_all(alloc: Global, text: &[u8]) -> Result<Draft, Unread>
    ensures { Gives (λ draft. draft) result (draft_of text.now) }
{
    let reader = read_lines(alloc, text)?;
    reader.finish()
}

// A reader after all lines of a source.
fn read_lines(alloc: Global, text: &[u8]) -> Result<Reader, Unread>
    ensures { Gives state_of result (in_turn (read_line_of text.now) (lines_of text.now) start) }
{
    let mut reader = Reader::new(alloc)?;
    let mut lines = Lines::new(text);
    while let Some(line) = lines.next() {
        reader.read_line_of(text, line)?;
    }
    Ok(reader)
}

// What has been read, and where lines may stand.
#[derive(Drop)]
struct Reader {
    alloc: Global,
    stage: Stage,
    processors: Option<Setting>,
    fetch: Option<Setting>,
    slice: Option<Setting>,
    // the spaces that have ended
    spaces: Vec<SpaceDraft>,
    // the space and the program that are read
    space: SpaceDraft,
    program: ProgramDraft,
    // how many evictions there are in all
    evictions: usize,
    turns: Vec<ProcNo>,
    // the number of the last line
    last: u64,
}

impl Reader {
    // Before the first line.
    fn new(alloc: Global) -> Result<Reader, AllocError>
        ensures { IfOk result (λ reader. state_of reader ≡ start) }
    {
        Ok(Reader {
            alloc,
            stage: Stage::Top,
            processors: None,
            fetch: None,
            slice: None,
            spaces: Vec::new(alloc),
            space: SpaceDraft::new(alloc, Name::new(Vec::from_slice(alloc, b"main")?), 0),
            program: ProgramDraft::none(alloc),
            evictions: 0,
            turns: Vec::new(alloc),
            last: 1,
        })
    }

    // Reads a line of the text.
    #[tactic(auto, unfolding(crate::specs::Lines::read_line_of))]
    fn read_line_of(&mut self, text: &[u8], line: Line) -> Result<(), Unread>
        requires ready { IsReady (state_of self.old) }
        requires within { IsWithin text.now line }
        ensures { Leaves (state_of self.new) result (read_line_of text.now line (state_of self.old)) }
    {
        if is_beyond(&line) {
            return Err(too_long(&line));
        }
        self.last = line.number;
        self.read_line(line.number, content_of(&text[line.start..line.end]))
    }

    // Reads a line.
    #[tactic(auto, unfolding(crate::specs::Lines::read_line))]
    fn read_line(&mut self, line: u64, content: &[u8]) -> Result<(), Unread>
        requires { IsReady (state_of self.old) }
        ensures { Leaves (state_of self.new) result (read_line line content.now (state_of self.old)) }
    {
        let words = words_in(self.alloc, line, content)?;
        self.read_words(line, words.as_slice())
    }

    // Reads the words of a line.
    #[tactic(auto, unfolding(crate::specs::Lines::read_words))]
    fn read_words(&mut self, line: u64, words: &[LineWord]) -> Result<(), Unread>
        requires { IsReady (state_of self.old) }
        ensures { Leaves (state_of self.new) result (read_words line words.now (state_of self.old)) }
    {
        match words {
            [] => Ok(()),
            [word, operands @ ..] => {
                if is_label(word.text) {
                    self.read_label(line, word)?;
                    return self.read_after_label(line, operands);
                }
                self.read_first(line, word, operands, first_of(word.text))
            }
        }
    }

    // Reads a label.
    #[tactic(auto, unfolding(crate::specs::Lines::read_label))]
    fn read_label(&mut self, line: u64, word: &LineWord) -> Result<(), Unread>
        requires { IsReady (state_of self.old) }
        ensures { Leaves (state_of self.new) result (read_label line word.now (state_of self.old)) }
    {
        match self.stage {
            Stage::InProgram => {
                add_label(self.alloc, line, word, &mut self.program)?;
                Ok(())
            }
            Stage::AfterTurns => Err(word.about(line, About::AfterTurns)),
            _ => Err(word.about(line, About::LabelOutside)),
        }
    }

    // Reads the words after a label.
    #[tactic(auto, unfolding(crate::specs::Lines::read_after_label))]
    fn read_after_label(&mut self, line: u64, words: &[LineWord]) -> Result<(), Unread>
        ensures { Leaves (state_of self.new) result (read_after_label line words.now (state_of self.old)) }
    {
        match words {
            [] => Ok(()),
            [word, operands @ ..] => match first_of(word.text) {
                First::Instr(operation) => self.read_instr(line, operation, word, operands),
                _ => Err(word.about(line, About::AfterLabel)),
            },
        }
    }

    // Reads a line whose first word may stand there.
    #[tactic(auto, unfolding(crate::specs::Lines::read_first))]
    fn read_first(
        &mut self,
        line: u64,
        word: &LineWord,
        operands: &[LineWord],
        first: First,
    ) -> Result<(), Unread>
        requires { IsReady (state_of self.old) }
        ensures { Leaves (state_of self.new) result (read_first line word.now operands.now first (state_of self.old)) }
    {
        match misplaced(first, self.stage) {
            Some(cause) => Err(word.fault(line, cause)),
            None => self.read_by(line, word, operands, first),
        }
    }

    // Reads a line by what its first word says that it is.
    #[tactic(auto, unfolding(crate::specs::Lines::read_by))]
    fn read_by(
        &mut self,
        line: u64,
        word: &LineWord,
        operands: &[LineWord],
        first: First,
    ) -> Result<(), Unread>
        requires { IsReady (state_of self.old) }
        ensures { Leaves (state_of self.new) result (read_by line word.now operands.now first (state_of self.old)) }
    {
        match first {
            First::Setting(setting) => self.read_setting(line, word, operands, setting),
            First::Declaration(declaration) => {
                self.read_declaration(line, word, operands, declaration)
            }
            First::Space => self.read_space(line, word, operands),
            First::Program => self.read_program(line, word, operands),
            First::Turns => self.read_turns(line, word, operands),
            First::Instr(operation) => self.read_instr(line, operation, word, operands),
            First::Workload => Err(word.about(line, About::Plain)),
            First::Unknown => {
                let wanted = Wanted::First(self.stage);
                Err(word.fault(line, Cause::Wanted(wanted)))
            }
        }
    }

    // Reads a number of the machine.
    #[tactic(auto, unfolding(crate::specs::Lines::read_setting))]
    fn read_setting(
        &mut self,
        line: u64,
        word: &LineWord,
        operands: &[LineWord],
        setting: SettingWord,
    ) -> Result<(), Unread>
        ensures { Leaves (state_of self.new) result (read_setting line word.now operands.now setting (state_of self.old)) }
    {
        match setting {
            SettingWord::Processors => {
                set_once(line, word, operands, PROCESSORS, &mut self.processors)?;
            }
            SettingWord::Fetch => set_once(line, word, operands, FETCH, &mut self.fetch)?,
            SettingWord::Slice => set_once(line, word, operands, SLICE, &mut self.slice)?,
        }
        Ok(())
    }

    // Reads the line that begins a space.
    #[tactic(auto, unfolding(crate::specs::Lines::read_space))]
    fn read_space(
        &mut self,
        line: u64,
        word: &LineWord,
        operands: &[LineWord],
    ) -> Result<(), Unread>
        ensures { Leaves (state_of self.new) result (read_space line word.now operands.now (state_of self.old)) }
    {
        self.end_program()?;
        self.end_space()?;
        let name = new_space(self.alloc, line, word, operands, self.spaces.as_slice())?;
        self.stage = Stage::Declaring;
        self.space = SpaceDraft::new(self.alloc, name.text, line);
        Ok(())
    }

    // Reads a declaration of a space.
    #[tactic(auto, unfolding(crate::specs::Lines::read_declaration))]
    fn read_declaration(
        &mut self,
        line: u64,
        word: &LineWord,
        operands: &[LineWord],
        declaration: Declaration,
    ) -> Result<(), Unread>
        requires { IsReady (state_of self.old) }
        ensures { Leaves (state_of self.new) result (read_declaration line word.now operands.now declaration (state_of self.old)) }
    {
        self.open(line);
        self.declare_in(line, word, operands, declaration)
    }

    // Reads a declaration of the space that has begun.
    #[tactic(auto, unfolding(crate::specs::Lines::declare_in))]
    fn declare_in(
        &mut self,
        line: u64,
        word: &LineWord,
        operands: &[LineWord],
        declaration: Declaration,
    ) -> Result<(), Unread>
        requires { IsReady (state_of self.old) }
        ensures { Leaves (state_of self.new) result (declare_in line word.now operands.now declaration (state_of self.old)) }
    {
        let count = self.evictions;
        let space = &mut self.space;
        declare(self.alloc, line, word, operands, count, declaration, space)?;
        self.evictions = one_more(declaration, count);
        Ok(())
    }

    // Begins the unnamed space, unless a space has begun.
    #[tactic(auto, unfolding(crate::specs::Lines::opened))]
    fn open(&mut self, line: u64)
        ensures { state_of self.new ≡ opened line (state_of self.old) }
    {
        if let Stage::Top = self.stage {
            self.stage = Stage::Declaring;
            self.space.line = line;
        }
    }

    // Reads the line that begins a program.
    #[tactic(auto, unfolding(crate::specs::Lines::read_program))]
    fn read_program(
        &mut self,
        line: u64,
        word: &LineWord,
        operands: &[LineWord],
    ) -> Result<(), Unread>
        ensures { Leaves (state_of self.new) result (read_program line word.now operands.now (state_of self.old)) }
    {
        self.end_program()?;
        self.open(line);
        let name = new_program(self.alloc, line, word, operands, &self.space)?;
        self.stage = Stage::InProgram;
        self.program = ProgramDraft::new(self.alloc, name, line);
        Ok(())
    }

    // Reads an instruction.
    #[tactic(auto, unfolding(crate::specs::Lines::read_instr))]
    fn read_instr(
        &mut self,
        line: u64,
        operation: Operation,
        word: &LineWord,
        operands: &[LineWord],
    ) -> Result<(), Unread>
        ensures { Leaves (state_of self.new) result (read_instr line operation word.now operands.now (state_of self.old)) }
    {
        add_instr(
            self.alloc,
            line,
            operation,
            word,
            operands,
            &mut self.program,
        )?;
        Ok(())
    }

    // Reads a line of turns.
    #[tactic(auto, unfolding(crate::specs::Lines::read_turns))]
    fn read_turns(
        &mut self,
        line: u64,
        word: &LineWord,
        operands: &[LineWord],
    ) -> Result<(), Unread>
        requires { IsReady (state_of self.old) }
        ensures { Leaves (state_of self.new) result (read_turns line word.now operands.now (state_of self.old)) }
    {
        let last = Setting::value_or(self.processors, 2).saturating_sub(1);
        self.end_program()?;
        some_words(line, word, operands, Next::Turn)?;
        add_turns(line, last, operands, &mut self.turns)?;
        self.stage = Stage::AfterTurns;
        Ok(())
    }

    // Ends the program that is read, if one is.
    #[tactic(auto, unfolding(crate::specs::Lines::end_program))]
    fn end_program(&mut self) -> Result<(), Unread>
        ensures { Leaves (state_of self.new) result (end_program (state_of self.old)) }
    {
        if let Stage::InProgram = self.stage {
            whole_program(self.alloc, &self.program)?;
            let ended = mem::replace(&mut self.program, ProgramDraft::none(self.alloc));
            self.space.programs.push(ended)?;
        }
        Ok(())
    }

    // Ends the space that is read, if anything of it was read.
    #[tactic(auto, unfolding(crate::specs::Lines::end_space))]
    fn end_space(&mut self) -> Result<(), Unread>
        ensures { Leaves (state_of self.new) result (end_space (state_of self.old)) }
    {
        match self.stage {
            Stage::Top => Ok(()),
            Stage::Declaring => Err(no_program(self.alloc, &self.space)?),
            _ => {
                let next = SpaceDraft::new(self.alloc, Name::new(Vec::new(self.alloc)), 0);
                let ended = mem::replace(&mut self.space, next);
                self.spaces.push(ended)?;
                Ok(())
            }
        }
    }

    // The draft, after all lines.
    #[tactic(auto, unfolding(crate::specs::Lines::end_of_lines))]
    fn finish(mut self) -> Result<Draft, Unread>
        ensures { Gives (λ draft. draft) result (end_of_lines (state_of self)) }
    {
        self.end_program()?;
        if let Stage::Top = self.stage {
            return Err(empty(self.last));
        }
        self.end_space()?;
        Ok(Draft {
            processors: self.processors,
            fetch: self.fetch,
            slice: self.slice,
            spaces: self.spaces,
            turns: self.turns,
            last: self.last,
        })
    }
}

// How many evictions there are after a declaration.
fn one_more(declaration: Declaration, evictions: usize) -> usize
    requires { evictions ≤ MAX_EVICTIONS }
    ensures { result ≡ one_more declaration evictions }
{
    match declaration {
        Declaration::Evict => evictions + 1,
        _ => evictions,
    }
}

// Whether a word ends with a colon.
fn is_label(word: &[u8]) -> bool
    ensures { result ≡ is_label word.now }
{
    word.len() > 0 && word[word.len() - 1] == b':'
}

// Whether a line goes beyond the bytes that a source has at most.
fn is_beyond(line: &Line) -> bool
    ensures { result ≡ is_beyond line.now }
{
    MAX_SOURCE < line.end || (line.ended && line.end == MAX_SOURCE)
}

// The error of the first byte that is too much.
fn too_long(line: &Line) -> Unread
    ensures { result ≡ Unread.Wrong (too_long line.now) }
{
    Unread::Wrong(Fault {
        line: line.number,
        column: (MAX_SOURCE + 1).saturating_sub(line.start),
        width: 1,
        cause: Cause::Part(Part::TooLong),
    })
}

// The error of a source without a program.
fn empty(last: u64) -> Unread
    ensures { result ≡ Unread.Wrong (empty last) }
{
    Unread::Wrong(Fault {
        line: last,
        column: 1,
        width: 1,
        cause: Cause::Part(Part::Empty),
    })
}

// The error of a space without a program.
fn no_program(alloc: Global, space: &SpaceDraft) -> Result<Unread, AllocError>
    ensures { IfOk result (λ e. e ≡ Unread.Wrong (no_program space.now)) }
{
    let name = Name::new(Vec::from_slice(alloc, space.name.bytes())?);
    Ok(Unread::Wrong(Fault {
        line: space.line,
        column: 1,
        width: 1,
        cause: Cause::Part(Part::NoProgram(name)),
    }))
}

// The name of a space that begins after these.
#[tactic(auto, unfolding(crate::specs::Lines::new_space))]
fn new_space(
    alloc: Global,
    line: u64,
    word: &LineWord,
    operands: &[LineWord],
    spaces: &[SpaceDraft],
) -> Result<Word, Unread>
    ensures { Gives (λ name. name) result (new_space line word.now operands.now spaces.now) }
{
    at_most(line, word, Kind::Space, MAX_SPACES, spaces.len())?;
    count_words(line, word, operands, 1, 1, Next::Name)?;
    let name = &operands[0];
    name_in(line, name)?;
    unless_space(line, name, space_line(spaces, name.text))?;
    Ok(name.kept(alloc)?)
}

// Checks that no line has a space of that name.
fn unless_space(line: u64, word: &LineWord, earlier: Option<u64>) -> Result<(), Unread>
    ensures { Gives (λ _. tt) result (unless_space line word.now earlier) }
{
    match earlier {
        Some(earlier) => { Err(word.fault(line, Cause::Twice(Twice::Name(earlier, Kind::Space)))) }
        None => Ok(()),
    }
}

// The line of the first space with the name, if there is one.
fn space_line(spaces: &[SpaceDraft], name: &[u8]) -> Option<u64>
    ensures { result ≡ space_line spaces.now name.now }
{
    spaces
        .iter()
        .find(|s| s.name.bytes() == name)
        .map(|s| s.line)
}

// The name of a program that begins in this space.
#[tactic(auto, unfolding(crate::specs::Lines::new_program))]
fn new_program(
    alloc: Global,
    line: u64,
    word: &LineWord,
    operands: &[LineWord],
    space: &SpaceDraft,
) -> Result<Word, Unread>
    ensures { Gives (λ name. name) result (new_program line word.now operands.now space.now) }
{
    at_most(
        line,
        word,
        Kind::Program,
        MAX_PROGRAMS,
        space.programs.len(),
    )?;
    count_words(line, word, operands, 1, 1, Next::Name)?;
    new_name(line, &operands[0], space)?;
    Ok(operands[0].kept(alloc)?)
}

// Adds the turns of words.
fn add_turns(
    line: u64,
    last: u64,
    words: &[LineWord],
    turns: &mut Vec<ProcNo>,
) -> Result<(), Unread>
    requires { last < 16 }
    ensures { Leaves turns.new.items result (in_turn (add_turn line last) words.now turns.old.items) }
{
    for word in words {
        add_turn(line, last, word, turns)?;
    }
    Ok(())
}
