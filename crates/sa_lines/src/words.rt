// The words, and how they are made and closed.
ghost use Rattle.std.specs.Prelude.{◌≡◌, ◌+◌, ◌*◌, ◌<◌, ◌≤◌, [], IfOk, All, replicate, vec_capacity};
ghost use Rattle.atomic_table.specs.Seated.{TableId};
ghost use Rattle.sa_lines.specs.Words.{fresh_lane, line_word, credit_word};
ghost use Rattle.sa_lines.specs.declared.view.View.TheVariants.{Keeping};
ghost use Rattle.sa_lines.specs.Seen.{fresh_keeper, fresh_pollers, IsSettled};

use crate::keeper::Keeper;
use crate::poller::Poller;
use crate::view::{Apart, Rule, View};
use atomic_table::{Seat, Table};
use sa_base::{MAX_PROCESSORS, ProcNo};
use std::alloc::{AllocError, Global};
use std::marker::Model;

// Two words for each of the most processors.
const MAX_WORDS: usize = 2 * MAX_PROCESSORS as usize;

/// A line word and a credit word for each processor, which threads share. The line word is 0 for
/// low, and e + 1 says that the line was raised at event e. The credit word is 0 where nothing is
/// handed over. Contracts see the words as the name of their table.
#[derive(Drop)]
pub struct LineWords {
    pub(crate) table: Table<u8, View, u16, Rule, Global>,
}

impl Model for LineWords {
    ghost use Rattle.std.specs.Prelude.{◌≡◌};
    ghost use Rattle.atomic_table.specs.Seated.{TableId, table_id_coded};

    ghost Value = { TableId };

    ghost coded = { table_id_coded };

    ghost view = { λ w. w.table.shared.table_id };

    ghost invariant = { λ w. w.table.shared.table_id.slots ≡ 0 };
}

impl LineWords {
    /// The words for 1 to 16 processors, all lines low and nothing handed over, with their keeper
    /// and a poller for each processor, in order.
    pub fn new(
        alloc: Global,
        processors: u16,
    ) -> Result<(LineWords, Keeper, Vec<Poller>), AllocError>
        requires some { 1 ≤ processors }
        requires few { processors ≤ MAX_PROCESSORS }
        ensures keeper { IfOk result (λ made. made.1 ≡ fresh_keeper made.0 processors) }
        ensures pollers { IfOk result (λ made. made.2.items ≡ fresh_pollers made.0 processors) }
    {
        let zeros = [0; MAX_WORDS];
        let count = 2 * processors as usize;
        let mut pollers = Vec::with_capacity(alloc, processors as usize)?;
        let (table, mut seat) = Table::of_words(alloc, &zeros[..count], &processors)?;
        let words = LineWords { table };
        split_all(&words, &mut seat, processors, &mut pollers);
        Ok((words, Keeper::of(seat), pollers))
    }

    /// Ends the words. Each poller that was joined to the keeper has the keeper's account, and read
    /// nothing but 0 and events at which the keeper raised its line.
    pub fn close(self, keeper: Keeper)
        requires { keeper.table ≡ self }
        ensures { All IsSettled keeper.lanes }
    {
        let LineWords { table } = self;
        table.close_with(keeper.into_seat()).free();
    }
}

/// The index of a processor's line word.
pub(crate) fn line_word(p: ProcNo) -> usize
    ensures { result ≡ line_word p.0 }
{
    2 * p.0 as usize
}

/// The index of a processor's credit word.
pub(crate) fn credit_word(p: ProcNo) -> usize
    ensures { result ≡ credit_word p.0 }
{
    2 * p.0 as usize + 1
}

// Splits the pollers of all processors off the keeper. There is room for them.
fn split_all(
    words: &LineWords,
    seat: &mut Seat<u8, View>,
    processors: u16,
    pollers: &mut Vec<Poller>,
)
    requires own { seat.old.table_id ≡ words.now }
    requires size { words.now.words ≡ 2 * processors }
    requires fresh { seat.old.me ≡ (Keeping (replicate processors fresh_lane) 0, []) }
    requires none { pollers.old.items ≡ [] }
    requires room { processors ≤ vec_capacity pollers.old }
    ensures own { seat.new.table_id ≡ seat.old.table_id }
    ensures keeper { seat.new.me ≡ (Keeping (replicate processors fresh_lane) processors, []) }
    ensures pollers { pollers.new.items ≡ fresh_pollers words.now processors }
{
    for p in 0..processors {
        let poller = words.table.shared.split_seat::<Apart>(seat);
        pollers.push_reserved(Poller::of(ProcNo(p), poller));
    }
}
