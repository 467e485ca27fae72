// The exit statuses.
ghost use Rattle.std.specs.Prelude.{◌≡◌};
ghost use Rattle.toga_explain.specs.Tables.{status_word, status_text};

/// An exit status of the program.
#[derive(Clone, Copy)]
pub enum ExitStatus {
    /// 0.
    Done,
    /// 1.
    BadWords,
    /// 2.
    NoSource,
    /// 3.
    Stuck,
    /// 4.
    Open,
    /// 5.
    NotRead,
    /// 6.
    NotWritten,
    /// 7.
    OutOfMemory,
    /// 8.
    Illegal,
    /// 9.
    NoTrace,
    /// 10.
    TooMuch,
}

/// The words of a status.
#[tactic(auto, unfolding(crate::specs::Tables::status_word))]
pub(crate) fn status_word(status: ExitStatus) -> &'static [u8]
    ensures { result.now ≡ status_word status }
{
    match status {
        ExitStatus::Done => b"status 0",
        ExitStatus::BadWords => b"status 1",
        ExitStatus::NoSource => b"status 2",
        ExitStatus::Stuck => b"status 3",
        ExitStatus::Open => b"status 4",
        ExitStatus::NotRead => b"status 5",
        ExitStatus::NotWritten => b"status 6",
        ExitStatus::OutOfMemory => b"status 7",
        ExitStatus::Illegal => b"status 8",
        ExitStatus::NoTrace => b"status 9",
        ExitStatus::TooMuch => b"status 10",
    }
}

/// What a status means.
#[tactic(auto, unfolding(crate::specs::Tables::status_text))]
pub(crate) fn status_text(status: ExitStatus) -> &'static [u8]
    ensures { result.now ≡ status_text status }
{
    match status {
        ExitStatus::Done =>
            b"All is well: every thread is done, the trace is legal, no order of turns gets stuck or comes to where none leads to an end, or what was asked for was written.",
        ExitStatus::BadWords =>
            b"The words are not a command of togaslate, or `explain` does not know the word.",
        ExitStatus::NoSource => b"What was read is no source and no workload text.",
        ExitStatus::Stuck => b"The run is stuck; of `explore`: some order of turns gets stuck.",
        ExitStatus::Open =>
            b"The run was ended by the budget; of `explore`: nothing was found that gets stuck, but not every order of turns was looked at, or some order comes to where none leads to an end.",
        ExitStatus::NotRead => b"A file or standard input cannot be read.",
        ExitStatus::NotWritten => b"A file or standard output cannot be written.",
        ExitStatus::OutOfMemory => b"Memory ran out.",
        ExitStatus::Illegal => b"The trace is not legal.",
        ExitStatus::NoTrace => b"What was read is no trace text.",
        ExitStatus::TooMuch => b"There is too much to draw; nothing is written.",
    }
}
