// The words with which replies begin.
ghost use Rattle.std.specs.Prelude.{◌≡◌, find};
ghost use Rattle.sa_replies.specs.Words.{word_text, has_text, word_in};

use sa_base::Cause;

/// The first word of a reply.
#[derive(Clone, Copy)]
pub(crate) enum Word {
    Ins,
    Run,
    Ready,
    Cont,
    Back,
    Take,
    Free,
    Spin,
    Idle,
    Want,
    GiveBack,
    Line,
}

/// All words with which a reply may begin.
pub(crate) const WORDS: [Word; 12] = [
    Word::Ins,
    Word::Run,
    Word::Ready,
    Word::Cont,
    Word::Back,
    Word::Take,
    Word::Free,
    Word::Spin,
    Word::Idle,
    Word::Want,
    Word::GiveBack,
    Word::Line,
];

impl Word {
    // The word's text.
    fn text(self) -> &'static [u8]
        ensures { result.now ≡ word_text self }
    {
        match self {
            Word::Ins => b"ins",
            Word::Run => b"run",
            Word::Ready => b"ready",
            Word::Cont => b"cont",
            Word::Back => b"back",
            Word::Take => b"take",
            Word::Free => b"free",
            Word::Spin => b"spin",
            Word::Idle => b"idle",
            Word::Want => b"want",
            Word::GiveBack => b"giveback",
            Word::Line => b"line",
        }
    }
}

/// The word that the piece is.
pub(crate) fn read_word(piece: &[u8]) -> Result<Word, Cause>
    ensures { result ≡ word_in piece.now }
{
    word_of(piece).ok_or(Cause::BadWord)
}

// The word of this text.
fn word_of(piece: &[u8]) -> Option<Word>
    ensures { result ≡ find (has_text piece.now) WORDS }
{
    WORDS.iter().copied().find(|word| word.text() == piece)
}
