// The lives in use, by their numbers.
ghost use Rattle.std.specs.Prelude.{◌≡◌, ◌↔◌, [], false, IsTrue, IfOk, OnOk, OnErr, Contains};
ghost use Rattle.std.specs.Option.{option_copied};
ghost use Rattle.std.specs.List.{list_any};
ghost use Rattle.sa_lemmas.specs.Function.{put};
ghost use Rattle.sa_laws.specs.Life.{with_hand, inherits};
ghost use Rattle.sa_laws.specs.Record.{with_life, handed};
ghost use Rattle.sa_laws.specs.Readings.{Readings, IsLocked};
ghost use Rattle.sa_laws.specs.Turns.{AnotherHas};
ghost use Rattle.sa_laws.specs.Locks.{HoldsLock};
ghost use Rattle.sa_check_lives.specs.Change.{changed_by};
ghost use Rattle.sa_check_lives.specs.Table.{lives_in, SomeIsIn, KeepsAll, KeepsOthers, KeepsUpped, KeepsUnless, IsThere, IsAddedTo, some_passes, has_list, has_thread, is_in, is_list, is_of_thread};

use crate::change::Change;
use crate::life::KeptLife;
use crate::lock::ListLock;
use crate::shelves::Shelves;
use sa_base::{ActNo, ProcNo, SpaceNo, ThreadNo};
use std::alloc::{AllocError, Global};
use std::marker::Model;

/// The lives by their numbers. Beside them are the numbers of those that have a lock, and of those that are in: each
/// such life is among them, and few others.
#[derive(Drop)]
pub(crate) struct Table {
    lives: Shelves,
    holders: Vec<u64>,
    insiders: Vec<u64>,
}

impl Model for Table {
    ghost use Rattle.std.specs.Prelude.{ℕ, List};
    ghost use Rattle.sa_laws.specs.Life.{Life};

    ghost Value = { List (List (ℕ × Life)) };

    ghost use Rattle.sa_laws.specs.Life.{has_lock};
    ghost use Rattle.sa_check_lives.specs.Table.{lives_in, AreAmong, is_inside};

    ghost view = { λ x. x.lives };

    ghost invariant = { λ x. AreAmong has_lock (lives_in x.lives) x.holders.items
        × AreAmong is_inside (lives_in x.lives) x.insiders.items };
}

impl Table {
    /// Fails only where memory runs out.
    pub(crate) fn new(alloc: Global) -> Result<Self, AllocError>
        ensures { IfOk result (λ table. lives_in table ≡ (λ a. None)) }
    {
        Ok(Table {
            lives: Shelves::new(alloc)?,
            holders: Vec::new(alloc),
            insiders: Vec::new(alloc),
        })
    }

    /// The life of this number, if it is in use.
    #[inline(always)]
    pub(crate) fn life(&self, a: ActNo) -> Option<&KeptLife>
        ensures { option_copied result ≡ lives_in self.now a.0 }
    {
        self.lives.get(a.0)
    }

    /// The number is used for this life from now on. An error changes nothing.
    pub(crate) fn begin(&mut self, a: ActNo, life: KeptLife) -> Result<(), AllocError>
        requires locks { life.locks ≡ [] }
        requires out { life.inside ≡ false }
        ensures ok { OnOk result (lives_in self.new ≡ put (lives_in self.old) a.0 (Some life)) }
        ensures err { OnErr result (lives_in self.new ≡ lives_in self.old) }
    {
        self.lives.insert(a, life)?;
        remove(&mut self.holders, a.0);
        remove(&mut self.insiders, a.0);
        Ok(())
    }

    /// The number is in use no longer.
    pub(crate) fn end(&mut self, a: ActNo)
        ensures { lives_in self.new ≡ put (lives_in self.old) a.0 None }
    {
        self.lives.remove(a);
        remove(&mut self.holders, a.0);
        remove(&mut self.insiders, a.0);
    }

    /// Changes the life of this number, if it is in use. An error changes nothing.
    #[inline(always)]
    pub(crate) fn change(&mut self, a: Option<ActNo>, change: &Change) -> Result<(), AllocError>
        ensures ok { OnOk result
            (lives_in self.new ≡ with_life (changed_by change.now) a (lives_in self.old)) }
        ensures err { OnErr result (lives_in self.new ≡ lives_in self.old) }
    {
        let Some(a) = a else {
            return Ok(());
        };
        add_if(&mut self.holders, a.0, change.adds_lock())?;
        add_if(&mut self.insiders, a.0, change.enters())?;
        let lost = self.lives.write(a, change)?;
        remove_if(&mut self.holders, a.0, lost.lock);
        remove_if(&mut self.insiders, a.0, lost.inside);
        Ok(())
    }

    /// The threads join the hand of the life of this number, if it is in use. An error changes nothing.
    pub(crate) fn rouse(&mut self, a: Option<ActNo>, threads: &[ThreadNo]) -> Result<(), AllocError>
        ensures ok { OnOk result
            (lives_in self.new ≡ with_life (with_hand threads.now) a (lives_in self.old)) }
        ensures err { OnErr result (lives_in self.new ≡ lives_in self.old) }
    {
        let Some(a) = a else {
            return Ok(());
        };
        if threads.is_empty() {
            return Ok(());
        }
        self.lives.rouse(a, threads)
    }

    /// The life `a` was told to the life of the last up, which gets its locks and its hand. An error changes nothing.
    pub(crate) fn hand_over(
        &mut self,
        upped: Option<ActNo>,
        a: ActNo,
        alloc: Global,
    ) -> Result<(), AllocError>
        ensures ok { OnOk result
            (lives_in self.new ≡ handed upped a (lives_in self.old a.0) (lives_in self.old)) }
        ensures err { OnErr result (lives_in self.new ≡ lives_in self.old) }
    {
        let Some(life) = self.lives.get(a.0) else {
            return Ok(());
        };
        let has_lock = life.has_lock();
        add_to(&mut self.holders, upped, has_lock)?;
        pass_on(&mut self.lives, upped, a, alloc)?;
        remove_but(&mut self.holders, upped, a);
        remove(&mut self.insiders, a.0);
        Ok(())
    }

    /// Some life of the space, but for one that is given, has the list among its locks.
    pub(crate) fn is_locked(&self, but: Option<ActNo>, s: SpaceNo, l: ProcNo) -> bool
        ensures any { (r : Readings) → r.lives ≡ lives_in self.now → but ≡ None
            → (IsTrue result ↔ IsLocked r s l) }
        ensures other { (r : Readings) (a : ActNo) → r.lives ≡ lives_in self.now → but ≡ Some a
            → (IsTrue result ↔ AnotherHas r a s l) }
    {
        some_has_list(&self.lives, self.holders.as_slice(), but, s, l)
    }

    /// The thread of the space holds the lock of a list.
    pub(crate) fn holds_lock(&self, s: SpaceNo, t: ThreadNo) -> bool
        ensures { (r : Readings) → r.lives ≡ lives_in self.now
            → (IsTrue result ↔ HoldsLock r s t) }
    {
        some_has_thread(&self.lives, self.holders.as_slice(), s, t)
    }

    /// Some life is in.
    pub(crate) fn some_is_in(&self) -> bool
        ensures { IsTrue result ↔ SomeIsIn (lives_in self.now) }
    {
        some_is_in(&self.lives, self.insiders.as_slice())
    }
}

// Some life of these numbers, but for one that is given, has the list of the space among its locks.
fn some_has_list(
    lives: &Shelves,
    numbers: &[u64],
    but: Option<ActNo>,
    s: SpaceNo,
    l: ProcNo,
) -> bool
    ensures { result ≡ some_passes (has_list but s l) (lives_in lives.now) numbers.now }
{
    numbers.iter().any(|a| has_list(lives, *a, but, s, l))
}

fn has_list(lives: &Shelves, a: u64, but: Option<ActNo>, s: SpaceNo, l: ProcNo) -> bool
    ensures { result ≡ has_list but s l a (lives_in lives.now a) }
{
    match lives.get(a) {
        None => false,
        Some(life) => {
            but != Some(ActNo(a)) && life.space().0 == s.0 && locks_list(life.locks(), l)
        }
    }
}

// The list is among the locks.
fn locks_list(locks: &[ListLock], l: ProcNo) -> bool
    ensures { result ≡ list_any (is_list l) locks.now }
{
    locks.iter().any(|lock| lock.list.0 == l.0)
}

// Some life of these numbers has a lock of the thread of the space.
fn some_has_thread(lives: &Shelves, numbers: &[u64], s: SpaceNo, t: ThreadNo) -> bool
    ensures { result ≡ some_passes (has_thread s t) (lives_in lives.now) numbers.now }
{
    numbers.iter().any(|a| has_thread(lives, *a, s, t))
}

fn has_thread(lives: &Shelves, a: u64, s: SpaceNo, t: ThreadNo) -> bool
    ensures { result ≡ has_thread s t a (lives_in lives.now a) }
{
    match lives.get(a) {
        None => false,
        Some(life) => life.space().0 == s.0 && locks_thread(life.locks(), t),
    }
}

// The thread has one of the locks.
fn locks_thread(locks: &[ListLock], t: ThreadNo) -> bool
    ensures { result ≡ list_any (is_of_thread t) locks.now }
{
    locks.iter().any(|lock| is_of_thread(*lock, t))
}

// It is the lock of the thread.
fn is_of_thread(lock: ListLock, t: ThreadNo) -> bool
    ensures { result ≡ is_of_thread t lock }
{
    match lock.thread {
        None => false,
        Some(u) => t.0 == u.0,
    }
}

// Some life of these numbers is in.
fn some_is_in(lives: &Shelves, numbers: &[u64]) -> bool
    ensures { result ≡ some_passes is_in (lives_in lives.now) numbers.now }
{
    numbers.iter().any(|a| is_in(lives, *a))
}

fn is_in(lives: &Shelves, a: u64) -> bool
    ensures { result ≡ is_in a (lives_in lives.now a) }
{
    match lives.get(a) {
        None => false,
        Some(life) => life.inside(),
    }
}

// Adds a number, if it is not there. An error changes nothing.
fn add(numbers: &mut Vec<u64>, n: u64) -> Result<(), AllocError>
    ensures there { OnOk result (Contains numbers.new.items n) }
    ensures others { KeepsAll numbers.old.items numbers.new.items }
{
    if !numbers.contains(&n) {
        numbers.push(n)?;
    }
    Ok(())
}

// Removes a number.
fn remove(numbers: &mut Vec<u64>, n: u64)
    ensures { KeepsOthers n numbers.old.items numbers.new.items }
{
    numbers.retain(|k| *k != n);
}

// Adds a number, if that is asked for.
#[inline(always)]
fn add_if(numbers: &mut Vec<u64>, n: u64, asked: bool) -> Result<(), AllocError>
    ensures there { OnOk result (IsThere asked n numbers.new.items) }
    ensures others { KeepsAll numbers.old.items numbers.new.items }
{
    if asked {
        return add(numbers, n);
    }
    Ok(())
}

// Removes a number, if that is asked for.
#[inline(always)]
fn remove_if(numbers: &mut Vec<u64>, n: u64, asked: bool)
    ensures others { KeepsOthers n numbers.old.items numbers.new.items }
    ensures itself { KeepsUnless asked n numbers.old.items numbers.new.items }
{
    if asked {
        remove(numbers, n);
    }
}

// Adds the life of the last up, if there is one and it gets a lock.
fn add_to(holders: &mut Vec<u64>, upped: Option<ActNo>, has_lock: bool) -> Result<(), AllocError>
    ensures there { OnOk result (IsAddedTo upped has_lock holders.new.items) }
    ensures holders { KeepsAll holders.old.items holders.new.items }
{
    match upped {
        Some(to) if has_lock => add(holders, to.0),
        _ => Ok(()),
    }
}

// Removes the life, if it is not that of the last up.
fn remove_but(holders: &mut Vec<u64>, upped: Option<ActNo>, a: ActNo)
    ensures others { KeepsOthers a.0 holders.old.items holders.new.items }
    ensures upped { KeepsUpped upped holders.old.items holders.new.items }
{
    if upped != Some(a) {
        remove(holders, a.0);
    }
}

// The life `a` loses its locks and its hand to the life of the last up. An error changes nothing.
fn pass_on(
    lives: &mut Shelves,
    upped: Option<ActNo>,
    a: ActNo,
    alloc: Global,
) -> Result<(), AllocError>
    ensures ok { OnOk result (lives_in lives.new
        ≡ handed upped a (lives_in lives.old a.0) (lives_in lives.old)) }
    ensures err { OnErr result (lives_in lives.new ≡ lives_in lives.old) }
{
    let Some(from) = lives.bereave(a, alloc) else {
        return Ok(());
    };
    match upped {
        None => Ok(()),
        Some(to) => pass_to(lives, to, a, from),
    }
}

// The life of the number `to` gets what `a` had. With an error `a` is again what it was.
fn pass_to(lives: &mut Shelves, to: ActNo, a: ActNo, from: KeptLife) -> Result<(), AllocError>
    ensures ok { OnOk result (lives_in lives.new
        ≡ with_life (inherits from) (Some to) (lives_in lives.old)) }
    ensures err { OnErr result (lives_in lives.new
        ≡ with_life (λ life. from) (Some a) (lives_in lives.old)) }
{
    match lives.inherit(to, &from) {
        Ok(()) => Ok(()),
        Err(error) => {
            lives.put_back(a, from);
            Err(error)
        }
    }
}
