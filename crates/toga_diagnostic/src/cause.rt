// What is wrong with a source, and where.
ghost use Rattle.std.specs.Prelude.{◌≡◌};

use std::marker::Model;
use toga_source::Name;

/// Names, in their order. Contracts see the list of them.
#[derive(Drop)]
pub struct NameList {
    names: Vec<Name>,
}

impl Model for NameList {
    ghost use Rattle.std.specs.Prelude.{List, ℕ};

    ghost Value = { List (List ℕ) };

    ghost view = { λ n. n.names.items };
}

impl NameList {
    /// The list of these names.
    pub fn new(names: Vec<Name>) -> NameList
        ensures { result ≡ names.items }
    {
        NameList { names }
    }

    /// The names.
    pub fn names(&self) -> &[Name]
        ensures { result.now ≡ self.now }
    {
        self.names.as_slice()
    }
}

/// A kind of what has a name, or of what there may be too many of.
#[derive(Clone, Copy)]
pub enum Kind {
    Space,
    Mutex,
    Semaphore,
    Cell,
    Program,
    Label,
    Instruction,
    Eviction,
}

/// What a number is.
#[derive(Clone, Copy)]
pub enum What {
    Processors,
    Events,
    Priority,
    Patience,
    Count,
    Page,
    Event,
    Processor,
    Number,
}

/// The least and the greatest that a number may be.
#[derive(Clone, Copy)]
pub struct Limit {
    pub what: What,
    pub low: u64,
    pub high: u64,
}

/// What is missing at the end of a line.
#[derive(Clone, Copy)]
pub enum Next {
    Name,
    Number(What),
    /// A page of a space, from 0 on.
    AnyPage,
    /// An event of an eviction.
    AnyEvent,
    At,
    Register,
    Of(Kind),
    Turn,
}

/// Which lines may come next.
#[derive(Clone, Copy)]
pub enum Stage {
    /// Before the first space and program.
    Top,
    /// Before the first program of a space.
    Declaring,
    /// In a program.
    InProgram,
    /// After turns.
    AfterTurns,
}

/// An error that its word tells alone.
#[derive(Clone, Copy)]
pub enum About {
    Plain,
    AfterLabel,
    LabelOutside,
    BadLabel,
    LabelAlone,
    Outside,
    SettingLate,
    DeclarationLate,
    AfterTurns,
    TurnsEarly,
    NoRegister,
    NoName,
    NoAt,
    NoInstruction,
}

/// What is wanted in place of a word.
#[derive(Clone, Copy)]
pub enum Wanted {
    /// Another first word.
    First(Stage),
    /// A number.
    Number(Limit),
    /// A number within the limit.
    Within(Limit),
    /// A name or a number of something of this kind.
    Operand(Kind),
    /// A turn of a processor up to this one.
    Turn(u64),
    /// As many turns at most.
    Turns(u64),
}

/// What is there already.
#[derive(Clone, Copy)]
pub enum Twice {
    /// The label, in the line of this number.
    Label(u64),
    /// The setting, in the line of this number.
    Setting(u64),
    /// Something of this kind and name, in the line of this number.
    Name(u64, Kind),
    /// The absent page.
    Page(u64),
    /// The page, at this event.
    Event(u64, u64),
}

/// A word that names nothing.
#[derive(Drop)]
pub enum Missing {
    /// Nothing of this kind in the space of this name has the name; these are the names of that kind.
    Name(Kind, Name, NameList),
    /// What has the name is of the first kind, and the second is wanted; these are its names.
    Other(Kind, Kind, NameList),
    /// There is nothing of this kind and number in the space of this name, but so many.
    Number(Kind, u64, Name, u64),
    /// The program of this name has no such label; these it has, and so many places.
    Label(Name, NameList, u64),
    /// There is no place of this number in the program of this name, but so many.
    Place(u64, Name, u64),
}

/// A part of a source that is not as it has to be.
#[derive(Drop)]
pub enum Part {
    TooLong,
    BadByte(u8),
    /// More than so many of the kind.
    OneMore(Kind, u64),
    /// The last instruction of the program of this name.
    NoEnd(Name),
    /// The space of this name.
    NoProgram(Name),
    Empty,
    /// The bytes of the workload text.
    Size(u64),
}

/// Why a source is refused.
#[derive(Drop)]
pub enum Cause {
    About(About),
    Wanted(Wanted),
    Twice(Twice),
    Missing(Missing),
    Part(Part),
    /// Too few words.
    TooFew(Next),
    /// More words after the first one than so many.
    TooMany(usize),
}

/// An error: its place, how many bytes it is about, and its cause.
#[derive(Drop)]
pub struct Fault {
    /// The number of the line, from 1.
    pub line: u64,
    /// The number of the first byte in its line, from 1.
    pub column: usize,
    /// How many bytes.
    pub width: usize,
    pub cause: Cause,
}
