// A set of ranks, in which the greatest and the least are found in constant time.
ghost use Rattle.std.specs.Prelude.{◌≡◌, ◌<◌, ℕ, false};
ghost use Rattle.sa_lists.specs.RankSet.{has, HasPut, IsGreatest, IsLeast};

use crate::ranks::MAX_RANKS;

// The ranks in a word, and the words of a set.
const WORD: u16 = 64;

const WORDS: usize = 4;

/// A set of ranks below `MAX_RANKS`.
#[derive(Clone, Copy)]
pub(crate) struct RankSet {
    words: [u64; WORDS],
}

impl RankSet {
    /// The empty set.
    pub(crate) fn new() -> RankSet
        ensures { (k : ℕ) → has result.words k ≡ false }
    {
        RankSet { words: [0; WORDS] }
    }

    /// Puts a rank into the set, or takes it out.
    pub(crate) fn put(&mut self, rank: u16, is_in: bool)
        requires { rank < MAX_RANKS }
        ensures { HasPut self.old.words rank is_in self.new.words }
    {
        let at = usize::from(rank / WORD);
        let bit = 1 << (rank % WORD);
        let word = self.words[at];
        self.words[at] = if is_in { word | bit } else { word & !bit };
    }

    /// The greatest rank: `None` exactly where there is none.
    pub(crate) fn greatest(&self) -> Option<u16>
        ensures { IsGreatest self.now.words result }
    {
        for at in (0..WORDS).rev() {
            let word = self.words[at];
            if word != 0 {
                return Some(at as u16 * WORD + (WORD - 1 - word.leading_zeros() as u16));
            }
        }
        None
    }

    /// The least rank: `None` exactly where there is none.
    pub(crate) fn least(&self) -> Option<u16>
        ensures { IsLeast self.now.words result }
    {
        for at in 0..WORDS {
            let word = self.words[at];
            if word != 0 {
                return Some(at as u16 * WORD + word.trailing_zeros() as u16);
            }
        }
        None
    }
}
