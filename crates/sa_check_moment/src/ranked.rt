// The ready threads of all spaces by their ranks.
ghost use Rattle.std.specs.Prelude.{◌≡◌, [], ◌∷◌, ◌++◌, replicate, IfOk, OnOk};
ghost use Rattle.sa_check_moment.specs.Ranked.{row_at, stack_at, without, newest, opening_row, HasStack, IsBest};

use crate::row::RankedRow;
use sa_base::{SpaceNo, ThreadNo};
use std::alloc::{AllocError, Global};
use std::marker::Model;

/// Of each space its ready threads by their ranks. A space that is not there has none.
///
/// A call takes constant time, but that one that runs another thread than the newest of its rank looks for it among those
/// of the rank, and that a run of the last thread of the greatest rank looks for the next greatest.
#[derive(Drop)]
pub struct RankedReady {
    rows: Vec<RankedRow>,
}

impl Model for RankedReady {
    ghost use Rattle.std.specs.Prelude.{List};
    ghost use Rattle.sa_base.specs.declared.number.ThreadNo.{ThreadNo};

    ghost Value = { List (List (List ThreadNo)) };

    ghost view = { λ x. x.rows.items };
}

impl RankedReady {
    /// Before any record: thread 0 of each of this many spaces is ready, of rank 0. Fails only where memory runs out.
    pub fn new(alloc: Global, spaces: usize) -> Result<RankedReady, AllocError>
        ensures { IfOk result (λ x. x ≡ replicate spaces opening_row) }
    {
        let mut rows = Vec::new(alloc);
        for _ in 0..spaces {
            rows.push(RankedRow::new(alloc)?)?;
        }
        Ok(RankedReady { rows })
    }

    /// The thread of this rank is ready. Fails only where memory runs out.
    pub fn ready(&mut self, s: SpaceNo, t: ThreadNo, rank: u16) -> Result<(), AllocError>
        ensures { OnOk result (HasStack self.old s rank (stack_at self.old s rank ++ t ∷ []) self.new) }
    {
        if usize::from(s.0) >= self.rows.len() {
            return Ok(());
        }
        self.rows[usize::from(s.0)].ready(t, rank)
    }

    /// The thread of this rank is run: it is ready no more.
    pub fn run(&mut self, s: SpaceNo, t: ThreadNo, rank: u16)
        ensures { HasStack self.old s rank (without t (stack_at self.old s rank)) self.new }
    {
        if usize::from(s.0) < self.rows.len() {
            self.rows[usize::from(s.0)].run(t, rank);
        }
    }

    /// The greatest rank of a ready thread of the space; `None` where none is ready.
    pub fn best(&self, s: SpaceNo) -> Option<u16>
        ensures { IsBest (row_at self.now s) result }
    {
        self.rows.get(usize::from(s.0))?.best()
    }

    /// The newest of the ready threads of the space that have this rank.
    pub fn newest(&self, s: SpaceNo, rank: u16) -> Option<ThreadNo>
        ensures { result ≡ newest (stack_at self.now s rank) }
    {
        self.rows.get(usize::from(s.0))?.newest(rank)
    }
}
