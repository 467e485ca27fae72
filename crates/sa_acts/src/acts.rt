ghost use Rattle.std.specs.Prelude.{◌≡◌, ℕ, ◌+◌, ◌≤◌, ◌<◌, ◌^◌, length, replicate, [], ◌∷◌, ◌++◌, drop, slice_set, Some, None, IsSome, slice_get, All, OnOk, OnErr};
ghost use Rattle.std.specs.Option.{option_copied};
ghost use Rattle.sa_acts.specs.Queues.{queue_at, queued, all_numbers, HaveRoom, IsGrown};
ghost use Rattle.sa_acts.specs.Table.{acts_of, IsRunning, held_of, activated, saved, took, gave_back, taken_in};

use crate::queue::Queue;
use sa_base::{ActNo, MAX_SPACES, SpaceNo, Stopped};
use slab::Slab;
use std::alloc::{AllocError, Global};
use std::marker::Model;

/// An activation whose number is in use.
#[derive(Drop)]
pub struct Act<C> {
    pub space: SpaceNo,
    /// The context that the kernel holds of it, once it was stopped or has blocked.
    pub held: Option<Stopped<C>>,
    /// Its context was handed over to the user level.
    pub taken: bool,
}

/// The activations whose numbers are in use, and room for some more, which `reserve` makes. No other call can fail for
/// want of memory.
#[derive(Drop)]
pub struct Acts<C: Drop> {
    slots: Slab<Act<C>>,
    // of each space, in the order in which they were taken
    taken: [Queue; MAX_SPACES],
    spare: usize,
}

impl<C: Drop> Model for Acts<C> {
    ghost use Rattle.sa_acts.specs.Queues.{all_numbers};
    ghost use Rattle.sa_acts.specs.Table.{Slots};

    ghost Value = { Slots C };

    ghost use Rattle.sa_acts.specs.Room.{HasRoom};

    ghost view = { λ x. record {
      table = x.slots;
      taken = all_numbers x.taken;
      spare = x.spare;
    } };

    ghost invariant = { λ x. HasRoom x.slots x.taken x.spare };
}

impl<C: Drop> Acts<C> {
    /// No activation, and no room.
    pub fn new(alloc: Global) -> Self
        ensures { acts_of result
            ≡ record { acts = λ n. None; taken = replicate MAX_SPACES []; used = 0; spare = 0 } }
    {
        Acts {
            slots: Slab::new(alloc),
            taken: no_queues(alloc),
            spare: 0,
        }
    }

    /// Makes room for at least `n` more activations. An error changes nothing.
    pub fn reserve(&mut self, n: usize) -> Result<(), AllocError>
        ensures ok { OnOk result (n ≤ self.new.spare) }
        ensures grows { self.old.spare ≤ self.new.spare }
        ensures rest { acts_of self.new ≡ record (acts_of self.old) { spare = self.new.spare } }
        ensures err { OnErr result (self.new.spare ≡ self.old.spare) }
    {
        if self.spare < n {
            let room = self.slots.len().checked_add(n).ok_or(AllocError)?;
            self.slots.reserve(n)?;
            reserve_all(&mut self.taken, room)?;
            self.spare = n;
        }
        Ok(())
    }

    /// A number that is not in use, which is used for the space from now on.
    pub fn fresh(&mut self, s: SpaceNo) -> ActNo
        requires space { s.0 < MAX_SPACES }
        requires room { 1 ≤ self.old.spare }
        requires few { (acts_of self.old).used + 1 < 2 ^ 32 }
        ensures unused { (acts_of self.old).acts result.0 ≡ None }
        ensures activated { acts_of self.new ≡ activated (acts_of self.old) s result }
    {
        let key = self.slots.insert_reserved(Act {
            space: s,
            held: None,
            taken: false,
        });
        self.spare -= 1;
        ActNo(key as u64)
    }

    /// Holds the context of an activation that runs.
    pub fn save(&mut self, a: ActNo, held: Stopped<C>)
        requires { IsRunning ((acts_of self.old).acts a.0) }
        ensures { acts_of self.new ≡ saved (acts_of self.old) a held }
    {
        let Some(act) = self.slots.get_mut(a.0 as usize) else {
            unreachable!()
        };
        act.held = Some(held);
    }

    /// The context that is held of an activation: `None` exactly where none is.
    pub fn held(&self, a: ActNo) -> Option<&Stopped<C>>
        ensures { option_copied result ≡ held_of ((acts_of self.now).acts a.0) }
    {
        self.slots.get(a.0 as usize)?.held.as_ref()
    }

    /// Takes the context out that is held of an activation, which is taken from now on.
    pub fn take_context(&mut self, a: ActNo) -> Stopped<C>
        requires { IsSome (held_of ((acts_of self.old).acts a.0)) }
        ensures held { held_of ((acts_of self.old).acts a.0) ≡ Some result }
        ensures took { acts_of self.new ≡ took (acts_of self.old) a }
    {
        let Some(act) = self.slots.get_mut(a.0 as usize) else {
            unreachable!()
        };
        let Some(held) = act.held.take() else {
            unreachable!()
        };
        act.taken = true;
        let space = act.space;
        push_on(&mut self.taken, space, a);
        held
    }

    /// How many activations of the space are taken and not given back.
    pub fn taken(&self, s: SpaceNo) -> u32
        ensures { result ≡ length (taken_in (acts_of self.now) s.0) }
    {
        length_of(&self.taken, s) as u32
    }

    /// Ends the use of the taken activation of the space that was taken first: `None` exactly where it has none.
    pub fn give_back(&mut self, s: SpaceNo) -> Option<ActNo>
        ensures first { result ≡ slice_get (taken_in (acts_of self.old) s.0) 0 }
        ensures gave { acts_of self.new ≡ gave_back (acts_of self.old) s.0 }
    {
        let a = pop_from(&mut self.taken, s)?;
        let _ = self.slots.try_remove(a.0 as usize);
        Some(a)
    }
}

// An empty queue for each space.
fn no_queues(alloc: Global) -> [Queue; MAX_SPACES]
    ensures { All (λ q. q.numbers ≡ []) result }
{
    [
        Queue::new(alloc),
        Queue::new(alloc),
        Queue::new(alloc),
        Queue::new(alloc),
        Queue::new(alloc),
        Queue::new(alloc),
        Queue::new(alloc),
        Queue::new(alloc),
        Queue::new(alloc),
        Queue::new(alloc),
        Queue::new(alloc),
        Queue::new(alloc),
        Queue::new(alloc),
        Queue::new(alloc),
        Queue::new(alloc),
        Queue::new(alloc),
    ]
}

// Makes room for that many numbers in each queue.
fn reserve_all(queues: &mut [Queue; MAX_SPACES], room: usize) -> Result<(), AllocError>
    ensures ok { OnOk result (HaveRoom room queues.new) }
    ensures numbers { all_numbers queues.new ≡ all_numbers queues.old }
    ensures grows { (n : ℕ) → HaveRoom n queues.old → HaveRoom n queues.new }
{
    for s in 0..MAX_SPACES {
        reserve_one(queues, s, room)?;
    }
    Ok(())
}

// Makes room for that many numbers in one queue.
fn reserve_one(queues: &mut [Queue; MAX_SPACES], s: usize, room: usize) -> Result<(), AllocError>
    requires { s < MAX_SPACES }
    ensures ok { OnOk result (room ≤ (queue_at queues.new s).room) }
    ensures grown { IsGrown queues.old s queues.new }
{
    queues[s].reserve(room)
}

// Puts a number after the others of the space's queue, in which there is room.
fn push_on(queues: &mut [Queue; MAX_SPACES], s: SpaceNo, a: ActNo)
    requires space { s.0 < MAX_SPACES }
    requires room { queued (queue_at queues.old s.0) < (queue_at queues.old s.0).room }
    ensures { let queue = queue_at queues.old s.0 in
        queues.new ≡ slice_set queues.old s.0 (record queue { numbers = queue.numbers ++ a ∷ [] }) }
{
    queues[usize::from(s.0)].push(a);
}

// Takes the first number out of the space's queue, if there is one.
fn pop_from(queues: &mut [Queue; MAX_SPACES], s: SpaceNo) -> Option<ActNo>
    ensures first { result ≡ slice_get (queue_at queues.old s.0).numbers 0 }
    ensures rest { let queue = queue_at queues.old s.0 in
        queues.new ≡ slice_set queues.old s.0 (record queue { numbers = drop 1 queue.numbers }) }
{
    if usize::from(s.0) < MAX_SPACES {
        queues[usize::from(s.0)].pop()
    } else {
        None
    }
}

// How many numbers are in the space's queue.
fn length_of(queues: &[Queue; MAX_SPACES], s: SpaceNo) -> usize
    ensures { result ≡ queued (queue_at queues.now s.0) }
{
    queues.get(usize::from(s.0)).map_or(0, Queue::len)
}
