// What the holders of the words know, the rule of the words, and the kinds of step on them.
ghost use Rattle.sa_lines.specs.Words.{Holds, first_view};
ghost use Rattle.sa_lines.specs.Steps.{Raises, Lowers, Polls, Grants, Takes, Clears, left_view, right_view, joined_view, spent_view};

use crate::credit::Account;
use atomic_table::{Join, Play, Split, TableRule};
use sa_base::ProcNo;
use std::collections::LinkedList;

/// What a poller knows. Contracts alone speak of it.
pub struct Polled {
    /// The values of its line word that it read, in order.
    pub read: LinkedList<u64>,
    pub account: Account,
}

/// What the keeper knows of one processor. Contracts alone speak of it.
pub struct Lane {
    /// What it stored in the line word: 0 for low, and e + 1 for raised at event e.
    pub line: u64,
    /// The events at which it raised the line, in order.
    pub raised: LinkedList<u64>,
    pub account: Account,
    /// The number in the credit word, from its grant until it is seen to be taken.
    pub handed: Option<u64>,
    /// What the processor's poller knew, once it was joined.
    pub joined: Option<Polled>,
}

/// What one holder of the words knows. Contracts alone speak of it.
pub enum View {
    /// The keeper, with a lane for each processor, and how many pollers were split off.
    Keeping(LinkedList<Lane>, u16),
    /// The poller of a processor.
    Polling(ProcNo, Polled),
    /// A poller that was joined.
    Spent,
}

/// The rule of the words.
pub struct Rule;

impl TableRule<u8, View, u16> for Rule {
    ghost holds = { λ _. Holds };

    ghost first = { first_view };
}

pub(crate) struct Raise;

impl Play<u8, View> for Raise {
    ghost then = { Raises };
}

pub(crate) struct Lower;

impl Play<u8, View> for Lower {
    ghost then = { Lowers };
}

pub(crate) struct Poll;

impl Play<u8, View> for Poll {
    ghost then = { Polls };
}

pub(crate) struct Grant;

impl Play<u8, View> for Grant {
    ghost then = { Grants };
}

pub(crate) struct Take;

impl Play<u8, View> for Take {
    ghost then = { Takes };
}

pub(crate) struct Clear;

impl Play<u8, View> for Clear {
    ghost then = { Clears };
}

pub(crate) struct Apart;

impl Split<View> for Apart {
    ghost left = { left_view };

    ghost right = { right_view };
}

pub(crate) struct Together;

impl Join<View> for Together {
    ghost both = { joined_view };

    ghost spent = { spent_view };
}
