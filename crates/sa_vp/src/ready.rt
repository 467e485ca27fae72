// The ready lists of a space between two events, when no lock is held.
ghost use Rattle.std.specs.Prelude.{◌≡◌, true, ◌<◌, ◌≤◌, ◌∷◌, find, length, IfOk, IfSome, slice_set};
ghost use Rattle.std.specs.Option.{option_map};
ghost use Rattle.sa_base.specs.declared.limits.TheConstants.{MAX_PROCESSORS, MAX_THREADS};
ghost use Rattle.sa_lists.specs.ReadyView.{IsLocked, list_of};
ghost use Rattle.sa_links.specs.Lists.{IsFree, list_at, with_list};
ghost use Rattle.sa_vp_model.specs.Board.{empty};
ghost use Rattle.sa_vp_model.specs.Turn.{thread, is_some_list, picked, left_of};
ghost use Rattle.sa_vp.specs.Ready.{round};

use sa_base::{MAX_THREADS, ProcNo, ThreadNo};
use sa_lists::{Ranks, ReadyLists};
use std::alloc::{AllocError, Global};
use std::marker::Model;

/// A list at each place, the newest thread first. A thread is in at most one of them.
#[derive(Drop)]
pub(crate) struct Ready {
    lists: ReadyLists,
}

impl Model for Ready {
    ghost use Rattle.sa_links.specs.Lists.{Lists};
    ghost use Rattle.sa_vp.specs.Ready.{IsUnlocked};

    ghost Value = { Lists };

    ghost view = { λ r. record { nodes = r.lists.threads; lists = r.lists.lists } };

    ghost invariant = { λ r. IsUnlocked r.lists };
}

impl Ready {
    /// So many empty lists, 1 to 16. Fails only where memory runs out.
    pub(crate) fn new(alloc: Global, lists: u16) -> Result<Ready, AllocError>
        requires some { 1 ≤ lists }
        requires few { lists ≤ MAX_PROCESSORS }
        ensures { IfOk result (λ r. r ≡ empty lists) }
    {
        Ok(Ready {
            lists: ReadyLists::new(alloc, lists, Ranks::One, MAX_THREADS)?,
        })
    }

    /// A thread that is in no list becomes the newest of list `l`.
    pub(crate) fn push(&mut self, l: ProcNo, t: ThreadNo)
        requires list { l.0 < length self.old.lists }
        requires thread { t.0 < self.old.nodes }
        requires free { IsFree self.old t.0 }
        ensures { self.new ≡ with_list self.old l.0 (t.0 ∷ list_at self.old.lists l.0) }
    {
        let _held = self.lists.try_lock(l);
        self.lists.push(l, t);
        self.lists.unlock(l);
    }

    /// Takes the newest thread of list `l` where it is the taker's own, else the oldest: `None` exactly where the list is
    /// empty.
    pub(crate) fn take(&mut self, l: ProcNo, own: bool) -> Option<ThreadNo>
        requires { l.0 < length self.old.lists }
        ensures thread { result ≡ option_map thread (picked (list_at self.old.lists l.0) own) }
        ensures lists { self.new ≡ with_list self.old l.0 (left_of (list_at self.old.lists l.0) own) }
    {
        let _held = self.lists.try_lock(l);
        let taken = pop(&mut self.lists, l, own);
        self.lists.unlock(l);
        taken
    }

    /// The first of the lists, round from list `l`, that has a thread.
    pub(crate) fn seek(&self, l: ProcNo) -> Option<ProcNo>
        requires { l.0 < length self.now.lists }
        ensures found { result ≡ find (λ k. is_some_list (list_at self.now.lists k.0)) (round (length self.now.lists) l) }
        ensures inside { IfSome result (λ k. k.0 < length self.now.lists) }
        ensures some { IfSome result (λ k. is_some_list (list_at self.now.lists k.0) ≡ true) }
    {
        self.lists.seek(l)
    }
}

// Takes the newest thread of the locked list where it is the taker's own, else the oldest.
fn pop(lists: &mut ReadyLists, l: ProcNo, own: bool) -> Option<ThreadNo>
    requires list { l.0 < length lists.old.lists }
    requires locked { IsLocked lists.old l.0 }
    ensures thread { result ≡ option_map thread (picked (list_of lists.old l.0) own) }
    ensures lists { lists.new ≡ record lists.old { lists = slice_set lists.old.lists l.0 (left_of (list_of lists.old l.0) own) } }
{
    if own {
        lists.pop_own(l)
    } else {
        lists.take_from(l)
    }
}
