// What the words of a source mean.
ghost use Rattle.std.specs.Prelude.{◌≡◌};
ghost use Rattle.toga_explain.specs.Tables.{source_word, source_text};

/// A word with which a line of a source begins, or a label.
#[derive(Clone, Copy)]
pub enum SourceWord {
    /// `processors`.
    Processors,
    /// `fetch`.
    Fetch,
    /// `slice`.
    Slice,
    /// `space`.
    Space,
    /// `priority`.
    Priority,
    /// `patience`.
    Patience,
    /// `mutex`.
    Mutex,
    /// `semaphore`.
    Semaphore,
    /// `cell`.
    Cell,
    /// `absent`.
    Absent,
    /// `evict`.
    Evict,
    /// `program`.
    Program,
    /// A label.
    Label,
    /// `turns`.
    Turns,
}

/// The word.
#[tactic(auto, unfolding(crate::specs::Tables::source_word))]
pub(crate) fn source_word(word: SourceWord) -> &'static [u8]
    ensures { result.now ≡ source_word word }
{
    match word {
        SourceWord::Processors => b"processors",
        SourceWord::Fetch => b"fetch",
        SourceWord::Slice => b"slice",
        SourceWord::Space => b"space",
        SourceWord::Priority => b"priority",
        SourceWord::Patience => b"patience",
        SourceWord::Mutex => b"mutex",
        SourceWord::Semaphore => b"semaphore",
        SourceWord::Cell => b"cell",
        SourceWord::Absent => b"absent",
        SourceWord::Evict => b"evict",
        SourceWord::Program => b"program",
        SourceWord::Label => b"label",
        SourceWord::Turns => b"turns",
    }
}

/// What it means.
#[tactic(auto, unfolding(crate::specs::Tables::source_text))]
pub(crate) fn source_text(word: SourceWord) -> &'static [u8]
    ensures { result.now ≡ source_text word }
{
    match word {
        SourceWord::Processors =>
            b"`processors P`: how many processors the machine has, 1 to 16; without the line 2.",
        SourceWord::Fetch =>
            b"`fetch F`: how many events an absent page takes to come, 1 to 1000; without the line 10.",
        SourceWord::Slice =>
            b"`slice N`: after so many events the processors that cannot be shared evenly go on to the next space, 1 to 1000000; without the line, and with 0, never.",
        SourceWord::Space =>
            b"`space NAME`: an address space begins; all lines up to the next `space` or `turns` are its own. Without it there is one, of the name main.",
        SourceWord::Priority =>
            b"`priority R`: the priority of the space, 0 to 7, of which 7 is served first; without the line 0.",
        SourceWord::Patience =>
            b"`patience H`: how often a processor looks for a thread in vain before its space says that it can use one less, 1 to 1000; without the line 1.",
        SourceWord::Mutex => b"`mutex NAME..`: declares mutexes, free at first.",
        SourceWord::Semaphore =>
            b"`semaphore NAME N`: declares a semaphore that counts N at first, 0 to 1000000, or 0 if N is left out.",
        SourceWord::Cell =>
            b"`cell NAME..`: declares cells of 64 bits that all threads of the space share, 0 at first.",
        SourceWord::Absent =>
            b"`absent K..`: pages of the space, 0 to 15, that are not there at first. Upcalls need page 0, changes of ready lists page 1, and `touch` uses 2 to 15.",
        SourceWord::Evict => b"`evict K at E`: page K of the space goes away at event E.",
        SourceWord::Program =>
            b"`program NAME`: a program begins; its instructions follow, the last one `end`. Thread 0 of a space runs its first program.",
        SourceWord::Label => b"`NAME:` names the place of the next instruction, for `jnz`.",
        SourceWord::Turns =>
            b"`turns 0*10 1`: the schedule: ten turns of processor 0, then one of processor 1. After the last of them the turns go round.",
    }
}
