// The lives in use, each on the shelf of its number.
ghost use Rattle.std.specs.Prelude.{◌≡◌, ◌<◌, [], IfOk, IfNone, OnOk, OnErr};
ghost use Rattle.std.specs.Option.{option_copied};
ghost use Rattle.sa_lemmas.specs.Function.{put};
ghost use Rattle.sa_laws.specs.Life.{with_hand, inherits, bereft};
ghost use Rattle.sa_laws.specs.Record.{with_life};
ghost use Rattle.sa_check_lives.specs.Change.{changed_by};
ghost use Rattle.sa_check_lives.specs.Table.{lives_among, lives_in, place_among, shelf_of, IsLost};

use crate::change::Change;
use crate::life::{KeptLife, Lost};
use sa_base::{ActNo, ThreadNo};
use std::alloc::{AllocError, Global};
use std::marker::Model;

/// How many shelves there are. Numbers are handed out in order, so that few of the lives in use share one.
pub(crate) const SHELVES: usize = 512;

/// The lives by their numbers.
#[derive(Drop)]
pub(crate) struct Shelves {
    shelves: Vec<Shelf>,
}

impl Model for Shelves {
    ghost use Rattle.std.specs.Prelude.{◌≡◌, ℕ, List, length};
    ghost use Rattle.sa_laws.specs.Life.{Life};
    ghost use Rattle.sa_check_lives.specs.declared.shelves.TheConstants.{SHELVES};

    ghost Value = { List (List (ℕ × Life)) };

    ghost view = { λ x. x.shelves.items };

    ghost invariant = { λ x. length x.shelves.items ≡ SHELVES };
}

// The shelf of a number.
fn shelf_of(a: u64) -> usize
    ensures shelf { result ≡ shelf_of a }
    ensures within { result < SHELVES }
{
    (a % SHELVES as u64) as usize
}

impl Shelves {
    /// Fails only where memory runs out.
    pub(crate) fn new(alloc: Global) -> Result<Self, AllocError>
        ensures { IfOk result (λ shelves. lives_in shelves ≡ (λ a. None)) }
    {
        let mut shelves = Vec::new(alloc);
        for _ in 0..SHELVES {
            shelves.push(Shelf::new(alloc))?;
        }
        Ok(Shelves { shelves })
    }

    /// The life of this number, if it is in use.
    #[inline(always)]
    pub(crate) fn get(&self, a: u64) -> Option<&KeptLife>
        ensures { option_copied result ≡ lives_in self.now a }
    {
        self.shelves[shelf_of(a)].get(a)
    }

    /// The number is used for this life from now on. An error changes nothing.
    pub(crate) fn insert(&mut self, a: ActNo, life: KeptLife) -> Result<(), AllocError>
        ensures ok { OnOk result (lives_in self.new ≡ put (lives_in self.old) a.0 (Some life)) }
        ensures err { OnErr result (lives_in self.new ≡ lives_in self.old) }
    {
        self.shelves[shelf_of(a.0)].insert(a, life)
    }

    /// The number is in use no longer.
    pub(crate) fn remove(&mut self, a: ActNo)
        ensures { lives_in self.new ≡ put (lives_in self.old) a.0 None }
    {
        self.shelves[shelf_of(a.0)].remove(a);
    }

    /// Changes the life of this number, if there is one, and says what it lost by it. An error changes nothing.
    #[inline(always)]
    pub(crate) fn write(&mut self, a: ActNo, change: &Change) -> Result<Lost, AllocError>
        ensures ok { OnOk result
            (lives_in self.new ≡ with_life (changed_by change.now) (Some a) (lives_in self.old)) }
        ensures lost { IfOk result (λ lost. IsLost lost (lives_in self.new a.0)) }
        ensures err { OnErr result (lives_in self.new ≡ lives_in self.old) }
    {
        self.shelves[shelf_of(a.0)].write(a, change)
    }

    /// The threads join the hand of the life of this number, if there is one. An error changes nothing.
    pub(crate) fn rouse(&mut self, a: ActNo, threads: &[ThreadNo]) -> Result<(), AllocError>
        ensures ok { OnOk result
            (lives_in self.new ≡ with_life (with_hand threads.now) (Some a) (lives_in self.old)) }
        ensures err { OnErr result (lives_in self.new ≡ lives_in self.old) }
    {
        self.shelves[shelf_of(a.0)].rouse(a, threads)
    }

    /// The life of this number gets the locks and the hand of another, if there is one. An error changes nothing.
    pub(crate) fn inherit(&mut self, a: ActNo, from: &KeptLife) -> Result<(), AllocError>
        ensures ok { OnOk result
            (lives_in self.new ≡ with_life (inherits from.now) (Some a) (lives_in self.old)) }
        ensures err { OnErr result (lives_in self.new ≡ lives_in self.old) }
    {
        self.shelves[shelf_of(a.0)].inherit(a, from)
    }

    /// Takes the locks, the open cont and the hand from a life, and gives what it was.
    pub(crate) fn bereave(&mut self, a: ActNo, alloc: Global) -> Option<KeptLife>
        ensures was { result ≡ lives_in self.old a.0 }
        ensures now { lives_in self.new ≡ with_life bereft (Some a) (lives_in self.old) }
        ensures none { IfNone result (lives_in self.new ≡ lives_in self.old) }
    {
        self.shelves[shelf_of(a.0)].bereave(a, alloc)
    }

    /// Puts a life in the place of another, if there is one.
    pub(crate) fn put_back(&mut self, a: ActNo, life: KeptLife)
        ensures { lives_in self.new ≡ with_life (λ other. life) (Some a) (lives_in self.old) }
    {
        self.shelves[shelf_of(a.0)].put_back(a, life);
    }
}

// One shelf, with the lives whose numbers are its: mostly one, and so they are looked through.
#[derive(Drop)]
struct Shelf {
    lives: Vec<(u64, KeptLife)>,
}

impl Model for Shelf {
    ghost use Rattle.std.specs.Prelude.{ℕ, List};
    ghost use Rattle.sa_laws.specs.Life.{Life};

    ghost Value = { List (ℕ × Life) };

    ghost view = { λ x. x.lives.items };
}

// What each call of the shelves does on the one shelf.
impl Shelf {
    fn new(alloc: Global) -> Self
        ensures { result ≡ [] }
    {
        Shelf {
            lives: Vec::new(alloc),
        }
    }

    #[inline(always)]
    fn get(&self, a: u64) -> Option<&KeptLife>
        ensures { option_copied result ≡ lives_among self.now a }
    {
        let place = place_of(self.lives.as_slice(), a)?;
        Some(&self.lives[place].1)
    }

    fn insert(&mut self, a: ActNo, life: KeptLife) -> Result<(), AllocError>
        ensures ok { OnOk result (lives_among self.new ≡ put (lives_among self.old) a.0 (Some life)) }
        ensures err { OnErr result (lives_among self.new ≡ lives_among self.old) }
    {
        match place_of(self.lives.as_slice(), a.0) {
            Some(place) => self.lives[place] = (a.0, life),
            None => self.lives.push((a.0, life))?,
        }
        Ok(())
    }

    fn remove(&mut self, a: ActNo)
        ensures { lives_among self.new ≡ put (lives_among self.old) a.0 None }
    {
        self.lives.retain(|entry| entry.0 != a.0);
    }

    #[inline(always)]
    fn write(&mut self, a: ActNo, change: &Change) -> Result<Lost, AllocError>
        ensures ok { OnOk result
            (lives_among self.new ≡ with_life (changed_by change.now) (Some a) (lives_among self.old)) }
        ensures lost { IfOk result (λ lost. IsLost lost (lives_among self.new a.0)) }
        ensures err { OnErr result (lives_among self.new ≡ lives_among self.old) }
    {
        let Some(place) = place_of(self.lives.as_slice(), a.0) else {
            return Ok(Lost::NOTHING);
        };
        self.lives[place].1.write(change)
    }

    fn rouse(&mut self, a: ActNo, threads: &[ThreadNo]) -> Result<(), AllocError>
        ensures ok { OnOk result (lives_among self.new
            ≡ with_life (with_hand threads.now) (Some a) (lives_among self.old)) }
        ensures err { OnErr result (lives_among self.new ≡ lives_among self.old) }
    {
        let Some(place) = place_of(self.lives.as_slice(), a.0) else {
            return Ok(());
        };
        self.lives[place].1.rouse(threads)
    }

    fn inherit(&mut self, a: ActNo, from: &KeptLife) -> Result<(), AllocError>
        ensures ok { OnOk result (lives_among self.new
            ≡ with_life (inherits from.now) (Some a) (lives_among self.old)) }
        ensures err { OnErr result (lives_among self.new ≡ lives_among self.old) }
    {
        let Some(place) = place_of(self.lives.as_slice(), a.0) else {
            return Ok(());
        };
        self.lives[place].1.inherit(from)
    }

    fn bereave(&mut self, a: ActNo, alloc: Global) -> Option<KeptLife>
        ensures was { result ≡ lives_among self.old a.0 }
        ensures now { lives_among self.new ≡ with_life bereft (Some a) (lives_among self.old) }
        ensures none { IfNone result (lives_among self.new ≡ lives_among self.old) }
    {
        let place = place_of(self.lives.as_slice(), a.0)?;
        Some(self.lives[place].1.bereave(alloc))
    }

    fn put_back(&mut self, a: ActNo, life: KeptLife)
        ensures { lives_among self.new
            ≡ with_life (λ other. life) (Some a) (lives_among self.old) }
    {
        let Some(place) = place_of(self.lives.as_slice(), a.0) else {
            return;
        };
        self.lives[place].1 = life;
    }
}

// The place of a number among the lives of a shelf.
#[inline(always)]
fn place_of(lives: &[(u64, KeptLife)], a: u64) -> Option<usize>
    ensures { result ≡ place_among lives.now a }
{
    lives.iter().position(|entry| entry.0 == a)
}
