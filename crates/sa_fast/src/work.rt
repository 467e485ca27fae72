// Lists of threads that are still to be made ready.
ghost use Rattle.std.specs.Prelude.{◌≡◌, ◌+◌, ◌<◌, ◌↔◌, ℕ, [], ◌∷◌, ◌++◌, replicate, Some, IfOk, IsTrue, OnOk};
ghost use Rattle.sa_links.specs.Lists.{count_in, count_in_all, list_at};
ghost use Rattle.sa_fast.specs.Work.{with_name, added, joined, without_first, IsUnlisted, IsWork, AreApart};

use sa_base::{MAX_THREADS, ThreadNo};
use sa_links::Links;
use std::alloc::{AllocError, Global};
use std::marker::Model;

/// The work lists of a space's contexts: the threads that each has still to make ready.
///
/// A context names its list by the first thread in it, and names none while its list is empty. Each call but `new`
/// takes constant time and cannot fail for want of memory.
#[derive(Drop)]
pub struct WorkLists {
    // a list that is not empty has the number of its first thread
    chains: Links,
}

impl Model for WorkLists {
    ghost use Rattle.std.specs.Prelude.{List, ℕ};
    ghost use Rattle.sa_fast.specs.Work.{AreNamed};

    ghost Value = { List (List ℕ) };

    ghost view = { λ w. w.chains.lists };

    ghost invariant = { λ w. AreNamed w.chains };
}

impl WorkLists {
    /// Empty lists for 512 threads. Fails only where memory runs out.
    pub fn new(alloc: Global) -> Result<WorkLists, AllocError>
        ensures { IfOk result (λ works. works ≡ replicate MAX_THREADS []) }
    {
        let chains = Links::new(alloc, u32::from(MAX_THREADS), u32::from(MAX_THREADS))?;
        Ok(WorkLists { chains })
    }

    /// Adds the threads of the list that is named by a thread, in order, at the end of `out`. Fails only where memory runs
    /// out.
    pub fn copy_list(&self, name: ThreadNo, out: &mut Vec<u32>) -> Result<(), AllocError>
        requires { name.0 < MAX_THREADS }
        ensures { OnOk result (out.new.items ≡ out.old.items ++ list_at self.now name.0) }
    {
        self.chains.copy_list(u32::from(name.0), out)
    }

    /// Whether no list is named by this thread.
    pub fn is_empty(&self, name: ThreadNo) -> bool
        requires { name.0 < MAX_THREADS }
        ensures { IsTrue result ↔ (list_at self.now name.0 ≡ []) }
    {
        self.chains.is_empty(u32::from(name.0))
    }

    /// Puts a thread that is in no list at the end of a context's list.
    pub fn add(&mut self, work: &mut Option<ThreadNo>, t: ThreadNo)
        requires thread { t.0 < MAX_THREADS }
        requires unlisted { IsUnlisted self.old t.0 }
        requires work { IsWork self.old work.old }
        ensures work { with_name self.new work.new ≡ added (with_name self.old work.old) t }
        ensures named { IsWork self.new work.new }
        ensures counts { (u : ℕ) → count_in_all u self.new ≡ count_in_all u self.old + count_in u (t.0 ∷ []) }
    {
        self.chains.are_apart();
        let name = work.unwrap_or(t);
        self.chains.push_back(u32::from(name.0), u32::from(t.0));
        *work = Some(name);
    }

    /// Takes the first thread, by which it is named, out of a context's list.
    pub fn take_first(&mut self, work: &mut Option<ThreadNo>, first: ThreadNo)
        requires name { work.old ≡ Some first }
        requires work { IsWork self.old work.old }
        ensures { with_name self.new work.new ≡ without_first self.old first }
    {
        self.chains.are_apart();
        let list = u32::from(first.0);
        self.chains.pop_front(list);
        *work = match self.chains.front(list) {
            None => None,
            Some(next) => {
                self.chains.append(next, list);
                Some(ThreadNo(next as u16))
            }
        };
    }

    /// Moves a context's whole list to the end of that of another one.
    pub fn append(&mut self, work: &mut Option<ThreadNo>, other: Option<ThreadNo>)
        requires work { IsWork self.old work.old }
        requires other { IsWork self.old other }
        requires apart { AreApart work.old other }
        ensures work { with_name self.new work.new ≡ joined self.old work.old other }
        ensures named { IsWork self.new work.new }
        ensures counts { (u : ℕ) → count_in_all u self.new ≡ count_in_all u self.old }
    {
        match (*work, other) {
            (_, None) => {}
            (None, Some(_)) => *work = other,
            (Some(list), Some(from)) => {
                self.chains.are_apart();
                self.chains.append(u32::from(list.0), u32::from(from.0));
            }
        }
    }
}
