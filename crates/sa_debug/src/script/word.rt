// The words with which lines begin.
ghost use Rattle.std.specs.Prelude.{◌≡◌, find};
ghost use Rattle.sa_debug.specs.script.Words.{word_text, has_text, word_in};

use sa_base::Cause;

/// The first word of a line.
#[derive(Clone, Copy)]
pub(crate) enum Word {
    Break,
    Clear,
    Halt,
    Go,
    Step,
    Run,
    Show,
    Quit,
}

/// All words with which a line may begin.
pub(crate) const WORDS: [Word; 8] = [
    Word::Break,
    Word::Clear,
    Word::Halt,
    Word::Go,
    Word::Step,
    Word::Run,
    Word::Show,
    Word::Quit,
];

impl Word {
    // The word's text.
    fn text(self) -> &'static [u8]
        ensures { result.now ≡ word_text self }
    {
        match self {
            Word::Break => b"break",
            Word::Clear => b"clear",
            Word::Halt => b"halt",
            Word::Go => b"go",
            Word::Step => b"step",
            Word::Run => b"run",
            Word::Show => b"show",
            Word::Quit => b"quit",
        }
    }
}

/// The word that the piece is.
pub(crate) fn read_word(piece: &[u8]) -> Result<Word, Cause>
    ensures { result ≡ word_in piece.now }
{
    word_of(piece).ok_or(Cause::BadWord)
}

// The word of this text.
fn word_of(piece: &[u8]) -> Option<Word>
    ensures { result ≡ find (has_text piece.now) WORDS }
{
    WORDS.iter().copied().find(|word| word.text() == piece)
}
