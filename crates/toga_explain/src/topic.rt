// What can be asked for: each topic has a word, and what is said of it.
ghost use Rattle.std.specs.Prelude.{◌≡◌};
ghost use Rattle.toga_explain.specs.Topic.{word_of, text_of};

use crate::cause::{cause_said, cause_word};
use crate::end::end_text;
use crate::instruction::operation_text;
use crate::record::record_text;
use crate::rule::rule_text;
use crate::source::{SourceWord, source_text, source_word};
use crate::status::{ExitStatus, status_text, status_word};
use sa_base::{Cause, End, RulesName};
use sa_check::word;
use sa_instr::Operation;
use sa_laws::Rule;
use sa_trace::{Kind, end_word};

/// What can be asked for.
#[derive(Clone, Copy)]
pub enum Topic {
    /// A word of a source.
    Source(SourceWord),
    /// An instruction.
    Instruction(Operation),
    /// A record of a trace, or a notice.
    Record(Kind),
    /// Notices.
    Told,
    /// A rule.
    Rule(RulesName, Rule),
    /// A cause of a refusal.
    Cause(Cause),
    /// An end of a run.
    End(End),
    /// A state from which no order of turns leads to an end.
    Endless,
    /// What is lost on virtual processors.
    Lost,
    /// An exit status.
    Status(ExitStatus),
}

// The words of a source.
pub(crate) const SOURCE: [Topic; 14] = [
    Topic::Source(SourceWord::Processors),
    Topic::Source(SourceWord::Fetch),
    Topic::Source(SourceWord::Slice),
    Topic::Source(SourceWord::Space),
    Topic::Source(SourceWord::Priority),
    Topic::Source(SourceWord::Patience),
    Topic::Source(SourceWord::Mutex),
    Topic::Source(SourceWord::Semaphore),
    Topic::Source(SourceWord::Cell),
    Topic::Source(SourceWord::Absent),
    Topic::Source(SourceWord::Evict),
    Topic::Source(SourceWord::Program),
    Topic::Source(SourceWord::Label),
    Topic::Source(SourceWord::Turns),
];

// The instructions.
pub(crate) const INSTRUCTIONS: [Topic; 17] = [
    Topic::Instruction(Operation::Compute),
    Topic::Instruction(Operation::Set),
    Topic::Instruction(Operation::Add),
    Topic::Instruction(Operation::Sub),
    Topic::Instruction(Operation::Jnz),
    Topic::Instruction(Operation::Load),
    Topic::Instruction(Operation::Store),
    Topic::Instruction(Operation::Out),
    Topic::Instruction(Operation::Fork),
    Topic::Instruction(Operation::Join),
    Topic::Instruction(Operation::Lock),
    Topic::Instruction(Operation::Unlock),
    Topic::Instruction(Operation::Wait),
    Topic::Instruction(Operation::Signal),
    Topic::Instruction(Operation::Io),
    Topic::Instruction(Operation::Touch),
    Topic::Instruction(Operation::End),
];

// The records of a trace.
pub(crate) const RECORDS: [Topic; 27] = [
    Topic::Record(Kind::Ins),
    Topic::Record(Kind::Out),
    Topic::Record(Kind::Run),
    Topic::Record(Kind::Stop),
    Topic::Record(Kind::Block),
    Topic::Record(Kind::Unblock),
    Topic::Record(Kind::Cont),
    Topic::Record(Kind::Back),
    Topic::Record(Kind::Ready),
    Topic::Record(Kind::Take),
    Topic::Record(Kind::Free),
    Topic::Record(Kind::Up),
    Topic::Told,
    Topic::Record(Kind::ToldAdd),
    Topic::Record(Kind::ToldPreempted),
    Topic::Record(Kind::ToldBlocked),
    Topic::Record(Kind::ToldUnblocked),
    Topic::Record(Kind::Move),
    Topic::Record(Kind::Want),
    Topic::Record(Kind::Aim),
    Topic::Record(Kind::Line),
    Topic::Record(Kind::Fetch),
    Topic::Record(Kind::Fetched),
    Topic::Record(Kind::GiveBack),
    Topic::Record(Kind::Idle),
    Topic::Record(Kind::Spin),
    Topic::Record(Kind::Tick),
];

// The rules.
pub(crate) const RULES: [Topic; 17] = [
    Topic::Rule(RulesName::FastThreads, Rule::Numbered),
    Topic::Rule(RulesName::FastThreads, Rule::Stepwise),
    Topic::Rule(RulesName::FastThreads, Rule::ToldOnce),
    Topic::Rule(RulesName::FastThreads, Rule::ToldInTime),
    Topic::Rule(RulesName::FastThreads, Rule::WhereOwned),
    Topic::Rule(RulesName::FastThreads, Rule::AllTold),
    Topic::Rule(RulesName::FastThreads, Rule::UpcallGiven),
    Topic::Rule(RulesName::FastThreads, Rule::InterruptNext),
    Topic::Rule(RulesName::FastThreads, Rule::LineCause),
    Topic::Rule(RulesName::FastThreads, Rule::WantCause),
    Topic::Rule(RulesName::FastThreads, Rule::SharesCovered),
    Topic::Rule(RulesName::FastThreads, Rule::DemandAnnounced),
    Topic::Rule(RulesName::Priorities, Rule::DemandAnnounced),
    Topic::Rule(RulesName::FastThreads, Rule::TurnsTaken),
    Topic::Rule(RulesName::FastThreads, Rule::LocksKept),
    Topic::Rule(RulesName::FastThreads, Rule::OrderKept),
    Topic::Rule(RulesName::FastThreads, Rule::EndTold),
];

// The causes of refusals.
pub(crate) const CAUSES: [Topic; 9] = [
    Topic::Cause(Cause::NotAscii),
    Topic::Cause(Cause::BadWord),
    Topic::Cause(Cause::BadNumber),
    Topic::Cause(Cause::OutOfRange),
    Topic::Cause(Cause::Twice),
    Topic::Cause(Cause::NoSuchName),
    Topic::Cause(Cause::BadTarget),
    Topic::Cause(Cause::TooMany),
    Topic::Cause(Cause::Missing),
];

// The ends.
pub(crate) const ENDS: [Topic; 5] = [
    Topic::End(End::AllDone),
    Topic::End(End::Stuck),
    Topic::End(End::Budget),
    Topic::Endless,
    Topic::Lost,
];

// The exit statuses.
pub(crate) const STATUSES: [Topic; 11] = [
    Topic::Status(ExitStatus::Done),
    Topic::Status(ExitStatus::BadWords),
    Topic::Status(ExitStatus::NoSource),
    Topic::Status(ExitStatus::Stuck),
    Topic::Status(ExitStatus::Open),
    Topic::Status(ExitStatus::NotRead),
    Topic::Status(ExitStatus::NotWritten),
    Topic::Status(ExitStatus::OutOfMemory),
    Topic::Status(ExitStatus::Illegal),
    Topic::Status(ExitStatus::NoTrace),
    Topic::Status(ExitStatus::TooMuch),
];

impl Topic {
    /// The word of a topic; of some two with a space between them.
    pub(crate) fn word(self) -> &'static [u8]
        ensures { result.now ≡ word_of self }
    {
        match self {
            Topic::Source(word) => source_word(word),
            Topic::Instruction(operation) => operation.form().word,
            Topic::Record(kind) => kind.form().word,
            Topic::Told => b"told",
            Topic::Rule(rules, rule) => word(rules, rule),
            Topic::Cause(cause) => cause_word(cause),
            Topic::End(end) => end_word(end),
            Topic::Endless => b"endless",
            Topic::Lost => b"lost",
            Topic::Status(status) => status_word(status),
        }
    }

    /// What is said of a topic: sentences, without a line feed.
    pub(crate) fn text(self) -> &'static [u8]
        ensures { result.now ≡ text_of self }
    {
        match self {
            Topic::Source(word) => source_text(word),
            Topic::Instruction(operation) => operation_text(operation),
            Topic::Record(kind) => record_text(kind),
            Topic::Told =>
                b"`told ..`: a notice that the upcall before it passes: that a processor was added, or that an activation was preempted, blocked or unblocked.",
            Topic::Rule(rules, rule) => rule_text(rules, rule),
            Topic::Cause(cause) => cause_said(cause),
            Topic::End(end) => end_text(end),
            Topic::Endless => b"No order of turns leads from there to an end.",
            Topic::Lost =>
                b"On virtual processors: at each event, as many ready threads of a space as it has blocked virtual processors could have run, had the kernel handed those processors back. Lost is the sum over all events.",
            Topic::Status(status) => status_text(status),
        }
    }
}
