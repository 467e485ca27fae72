// The ready threads of one space by their ranks.
ghost use Rattle.std.specs.Prelude.{◌≡◌, ℕ, ◌+◌, ◌^◌, ◌<◌, ◌≤◌, [], ◌∷◌, ◌++◌, length, IfOk, OnOk, OnErr, IsTrue, ◌↔◌};
ghost use Rattle.sa_check_moment.specs.Ranked.{row_stack, without, newest, is_newest, opening_row, HasPut, IsTop, IsBest};

use sa_base::ThreadNo;
use std::alloc::{AllocError, Global};
use std::marker::Model;

// The ready threads of one rank, in the order of their ready records.
#[derive(Drop)]
struct Stack {
    threads: Vec<ThreadNo>,
}

impl Model for Stack {
    ghost use Rattle.std.specs.Prelude.{List};
    ghost use Rattle.sa_base.specs.declared.number.ThreadNo.{ThreadNo};

    ghost Value = { List ThreadNo };

    ghost view = { λ x. x.threads.items };
}

/// The ready threads of one space by their ranks.
#[derive(Drop)]
pub(crate) struct RankedRow {
    alloc: Global,
    // of each rank
    stacks: Vec<Stack>,
    // one more than the greatest rank of a ready thread; 0 where none is ready
    top: usize,
}

impl Model for RankedRow {
    ghost use Rattle.std.specs.Prelude.{List};
    ghost use Rattle.sa_base.specs.declared.number.ThreadNo.{ThreadNo};
    ghost use Rattle.sa_check_moment.specs.Ranked.{IsTop};

    ghost Value = { List (List ThreadNo) };

    ghost view = { λ x. x.stacks.items };

    ghost invariant = { λ x. IsTop x.stacks.items x.top };
}

impl RankedRow {
    /// Before any record: thread 0 is ready, of rank 0. Fails only where memory runs out.
    pub(crate) fn new(alloc: Global) -> Result<RankedRow, AllocError>
        ensures { IfOk result (λ row. row ≡ opening_row) }
    {
        let mut first = Stack::new(alloc);
        first.push(ThreadNo(0))?;
        let mut stacks = Vec::new(alloc);
        stacks.push(first)?;
        Ok(RankedRow {
            alloc,
            stacks,
            top: 1,
        })
    }

    /// A thread of this rank is ready. Fails only where memory runs out.
    pub(crate) fn ready(&mut self, t: ThreadNo, rank: u16) -> Result<(), AllocError>
        ensures { OnOk result (HasPut self.old rank (row_stack self.old rank ++ t ∷ []) self.new) }
    {
        let at = usize::from(rank);
        grow(self.alloc, &mut self.stacks, at)?;
        self.stacks[at].push(t)?;
        self.top = self.top.max(at + 1);
        Ok(())
    }

    /// The thread of this rank is ready no more.
    pub(crate) fn run(&mut self, t: ThreadNo, rank: u16)
        ensures { HasPut self.old rank (without t (row_stack self.old rank)) self.new }
    {
        let at = usize::from(rank);
        if at < self.stacks.len() {
            self.stacks[at].remove(t);
            self.top = top_of(self.stacks.as_slice(), self.top);
        }
    }

    /// The greatest rank of a ready thread.
    pub(crate) fn best(&self) -> Option<u16>
        ensures { IsBest self.now result }
    {
        if self.top == 0 {
            return None;
        }
        Some((self.top - 1) as u16)
    }

    /// The newest of the ready threads of this rank.
    pub(crate) fn newest(&self, rank: u16) -> Option<ThreadNo>
        ensures { result ≡ newest (row_stack self.now rank) }
    {
        self.stacks.get(usize::from(rank))?.last()
    }
}

// Makes room for this rank: more ranks have no threads.
fn grow(alloc: Global, stacks: &mut Vec<Stack>, at: usize) -> Result<(), AllocError>
    ensures room { OnOk result (at < length stacks.new.items) }
    ensures same { (k : ℕ) → row_stack stacks.new.items k ≡ row_stack stacks.old.items k }
    ensures more { length stacks.old.items ≤ length stacks.new.items }
{
    while stacks.len() <= at {
        stacks.push(Stack::new(alloc))?;
    }
    Ok(())
}

// One more than the greatest rank that has a thread, where none from `most` on has one.
fn top_of(stacks: &[Stack], most: usize) -> usize
    requires within { most ≤ length stacks.now }
    requires above { (k : ℕ) → most ≤ k → row_stack stacks.now k ≡ [] }
    requires few { most ≤ 2 ^ 16 }
    ensures { IsTop stacks.now result }
{
    let mut top = most;
    while top > 0 {
        if !stacks[top - 1].is_empty() {
            return top;
        }
        top -= 1;
    }
    top
}

impl Stack {
    fn new(alloc: Global) -> Stack
        ensures { result ≡ [] }
    {
        Stack {
            threads: Vec::new(alloc),
        }
    }

    // An error changes nothing.
    fn push(&mut self, t: ThreadNo) -> Result<(), AllocError>
        ensures ok { OnOk result (self.new ≡ self.old ++ t ∷ []) }
        ensures err { OnErr result (self.new ≡ self.old) }
    {
        self.threads.push(t)?;
        Ok(())
    }

    fn is_empty(&self) -> bool
        ensures { IsTrue result ↔ (self.now ≡ []) }
    {
        self.threads.is_empty()
    }

    fn last(&self) -> Option<ThreadNo>
        ensures { result ≡ newest self.now }
    {
        self.threads.last().copied()
    }

    // The thread is the newest.
    fn is_newest(&self, t: ThreadNo) -> bool
        ensures { result ≡ is_newest t (newest self.now) }
    {
        match self.last() {
            None => false,
            Some(u) => u.0 == t.0,
        }
    }

    // Takes the thread out: at once where it is the newest, as it is where the order of ready lists is kept.
    fn remove(&mut self, t: ThreadNo)
        ensures { self.new ≡ without t self.old }
    {
        if self.is_newest(t) {
            self.threads.pop();
        } else {
            self.threads.retain(|u| u.0 != t.0);
        }
    }
}
