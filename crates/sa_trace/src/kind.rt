// The kinds of records.
ghost use Rattle.std.specs.Prelude.{◌≡◌, ◌≤◌, ◌↔◌, length, IsTrue, IfSome, IfNone};
ghost use Rattle.sa_trace.specs.Kind.{form_of, IsNoWord};

use crate::field::Field;

/// How many kinds of records there are; their numbers begin at 1.
pub const RECORD_KINDS: usize = 23;

/// The most fields of a record.
pub const MAX_FIELDS: usize = 4;

/// The most bytes of a kind's word.
pub const MAX_WORD: usize = 14;

/// The kind of a record, named as the record is, or as the notice. There are 23, of which the four
/// notices are one, though each has its own word.
#[derive(Clone, Copy)]
pub enum Kind {
    Ins,
    Out,
    Run,
    Stop,
    Block,
    Unblock,
    Cont,
    Back,
    Ready,
    Take,
    Free,
    Up,
    ToldAdd,
    ToldPreempted,
    ToldBlocked,
    ToldUnblocked,
    Move,
    Want,
    Aim,
    Line,
    Fetch,
    Fetched,
    GiveBack,
    Idle,
    Spin,
    Tick,
}

/// Every kind, in the order of the numbers.
pub const KINDS: [Kind; 26] = [
    Kind::Ins,
    Kind::Out,
    Kind::Run,
    Kind::Stop,
    Kind::Block,
    Kind::Unblock,
    Kind::Cont,
    Kind::Back,
    Kind::Ready,
    Kind::Take,
    Kind::Free,
    Kind::Up,
    Kind::ToldAdd,
    Kind::ToldPreempted,
    Kind::ToldBlocked,
    Kind::ToldUnblocked,
    Kind::Move,
    Kind::Want,
    Kind::Aim,
    Kind::Line,
    Kind::Fetch,
    Kind::Fetched,
    Kind::GiveBack,
    Kind::Idle,
    Kind::Spin,
    Kind::Tick,
];

/// How the records of a kind are written.
#[derive(Clone, Copy)]
pub struct Form {
    /// The kind's number, from 1 to 23, in the order of the trace text's counts. The notices have
    /// one number.
    pub number: u8,
    /// The kind's word; of a notice two, with a space between them.
    pub word: &'static [u8],
    /// What the fields are, in order.
    pub fields: &'static [Field],
}

impl Kind {
    /// The kind whose word this is, or `None` where it is no kind's.
    pub fn of_word(word: &[u8]) -> Option<Kind>
        ensures found { IfSome result (λ kind. (form_of kind).word ≡ word.now) }
        ensures none { IfNone result (IsNoWord word.now) }
    {
        for kind in &KINDS {
            if kind.has_word(word) {
                return Some(*kind);
            }
        }
        None
    }

    // Whether the kind has this word.
    fn has_word(self, word: &[u8]) -> bool
        ensures { IsTrue result ↔ ((form_of self).word ≡ word.now) }
    {
        self.form().word == word
    }

    /// How the records of this kind are written.
    pub fn form(self) -> Form
        ensures number { result.number ≡ (form_of self).number }
        ensures word { result.word.now ≡ (form_of self).word }
        ensures fields { result.fields.now ≡ (form_of self).fields }
        ensures first { 1 ≤ result.number }
        ensures last { result.number ≤ RECORD_KINDS }
        ensures few { length result.fields.now ≤ MAX_FIELDS }
        ensures short { length result.word.now ≤ MAX_WORD }
    {
        let (number, word, fields) = self.written();
        Form {
            number,
            word,
            fields,
        }
    }

    // The number, the word and the fields of this kind.
    #[inline(always)]
    fn written(self) -> (u8, &'static [u8], &'static [Field])
        ensures { (result.0 ≡ (form_of self).number)
            × (result.1.now ≡ (form_of self).word)
            × (result.2.now ≡ (form_of self).fields) }
    {
        match self {
            Kind::Ins => (1, b"ins", &[Field::Space, Field::Thread, Field::Place]),
            Kind::Out => (2, b"out", &[Field::Space, Field::Thread, Field::Value]),
            Kind::Run => (3, b"run", &[Field::Space, Field::Thread]),
            Kind::Stop => (
                4,
                b"stop",
                &[Field::Space, Field::OptionalThread, Field::Activation],
            ),
            Kind::Block => (
                5,
                b"block",
                &[
                    Field::Space,
                    Field::OptionalThread,
                    Field::Activation,
                    Field::Io,
                ],
            ),
            Kind::Unblock => (
                6,
                b"unblock",
                &[Field::Space, Field::OptionalThread, Field::Activation],
            ),
            Kind::Cont => (7, b"cont", &[Field::Space, Field::OptionalThread]),
            Kind::Back => (8, b"back", &[Field::Space, Field::OptionalThread]),
            Kind::Ready => (9, b"ready", &[Field::Space, Field::Thread]),
            Kind::Take => (
                10,
                b"take",
                &[Field::Space, Field::Processor, Field::OptionalThread],
            ),
            Kind::Free => (
                11,
                b"free",
                &[Field::Space, Field::Processor, Field::OptionalThread],
            ),
            Kind::Up => (12, b"up", &[Field::Space, Field::Activation]),
            Kind::ToldAdd => (13, b"told add", &[Field::Processor]),
            Kind::ToldPreempted => (13, b"told preempted", &[Field::Activation]),
            Kind::ToldBlocked => (13, b"told blocked", &[Field::Activation]),
            Kind::ToldUnblocked => (13, b"told unblocked", &[Field::Activation]),
            Kind::Move => (14, b"move", &[Field::OptionalSpace, Field::OptionalSpace]),
            Kind::Want => (15, b"want", &[Field::Space, Field::Demand]),
            Kind::Aim => (16, b"aim", &[Field::Processor, Field::OptionalSpace]),
            Kind::Line => (17, b"line", &[Field::Processor]),
            Kind::Fetch => (18, b"fetch", &[Field::Space]),
            Kind::Fetched => (19, b"fetched", &[Field::Space]),
            Kind::GiveBack => (20, b"giveback", &[Field::Activation]),
            Kind::Idle => (21, b"idle", &[]),
            Kind::Spin => (22, b"spin", &[Field::Processor]),
            Kind::Tick => (23, b"tick", &[]),
        }
    }
}
