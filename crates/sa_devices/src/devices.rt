ghost use Rattle.std.specs.Prelude.{◌≡◌, ◌≢◌, ℕ, ◌+◌, ◌≤◌, ◌<◌, ◌^◌, ◌↔◌, [], ◌++◌, length, map, IsTrue, IsSome, IfSome, Some, IfOk, OnOk, OnErr, slice_index};
ghost use Rattle.std.specs.List.{list_any};
ghost use Rattle.std.specs.Option.{option_map};
ghost use Rattle.sa_devices.specs.Ios.{one_fetch};
ghost use Rattle.sa_devices.specs.Pages.{IsKind, completed, evicted};

use crate::kind::IoKind;
use crate::pages::{all_but, complete, evict_at};
use crate::under_way::{Entry, UnderWay};
use arrayvec::ArrayVec;
use sa_base::{IoNo, MAX_EVENTS, MAX_SPACES, SpaceNo};
use sa_spaces::{Evict, Workload};
use std::alloc::{AllocError, Global};
use std::marker::Model;

/// The I/Os under way and the resident pages of each space of a workload.
#[derive(Drop)]
pub struct Devices {
    ios: UnderWay,
    // Of each space, how many fetches of its upcall page are under way.
    fetching: ArrayVec<usize, MAX_SPACES>,
    // Of each space, the resident pages: bit k for page k.
    pages: ArrayVec<u16, MAX_SPACES>,
    evictions: Vec<Evict>,
}

impl Model for Devices {
    ghost use Rattle.sa_devices.specs.DevicesView.{DevicesView};
    ghost use Rattle.sa_devices.specs.Sound.{IsSound};

    ghost Value = { DevicesView };

    ghost view = { λ d. record {
      ios = d.ios;
      pages = d.pages.items;
      evictions = d.evictions.items;
    } };

    ghost invariant = { λ d. IsSound d.ios d.fetching.items d.pages.items d.evictions.items };
}

impl Devices {
    ghost use Rattle.sa_devices.specs.DevicesView.{DevicesView, opening, begun_with, ended_with};
    ghost use Rattle.sa_devices.specs.Ios.{Io, due_of, io_at, io_no, fetches};
    ghost use Rattle.sa_devices.specs.Kept.{entry_of};

    /// The devices at the opening of a workload: nothing is under way, and the pages that the workload names are
    /// absent. Fails only where memory runs out.
    pub fn new(alloc: Global, w: &Workload) -> Result<Devices, AllocError>
        ensures { IfOk result (λ d. d ≡ opening w.now) }
    {
        let mut fetching = ArrayVec::new();
        let mut pages = ArrayVec::new();
        for space in w.spaces() {
            fetching.push(0);
            pages.push(all_but(space.absent()));
        }
        Ok(Devices {
            ios: UnderWay::new(alloc),
            fetching,
            pages,
            evictions: Vec::from_slice(alloc, w.evictions())?,
        })
    }

    /// Makes room for at least `n` more I/Os. An error changes nothing.
    pub fn reserve(&mut self, n: usize) -> Result<(), AllocError>
        ensures ok { OnOk result (n ≤ self.new.ios.spare) }
        ensures rest { self.new ≡ record self.old {
          ios = record self.old.ios { spare = self.new.ios.spare };
        } }
        ensures grows { self.old.ios.spare ≤ self.new.ios.spare }
        ensures err { OnErr result (self.new ≡ self.old) }
    {
        self.ios.reserve(n)
    }

    /// Begins an I/O that is due `len` events after `event`, and answers its number, which is how many were
    /// begun before. There is room for it, so it cannot fail for want of memory.
    pub fn begin(&mut self, kind: IoKind, event: u64, len: u32) -> IoNo
        requires room { 1 ≤ self.old.ios.spare }
        requires event { event ≤ MAX_EVENTS }
        requires few { self.old.ios.io_count < 2 ^ 32 }
        requires kind { IsKind (length self.old.pages) kind }
        ensures number { result.0 ≡ self.old.ios.io_count }
        ensures exact { self.new ≡ record self.old {
          ios = begun_with self.old.ios kind (event + len);
        } }
    {
        count_fetch(&mut self.fetching, kind);
        self.ios.begin(kind, event + u64::from(len))
    }

    /// Of the I/Os under way whose end is at most `event` the one with the least end, and of these the one with
    /// the least number, or `None` where there is none.
    pub fn due(&self, event: u64) -> Option<IoNo>
        ensures soonest { result ≡ option_map io_no (due_of event self.now.ios.under_way) }
        ensures under_way { IfSome result (λ io. IsSome (io_at io.0 self.now.ios.under_way)) }
    {
        self.ios.due(event)
    }

    /// The I/O, which is under way, is over, and its page is resident. Answers what it was for.
    pub fn complete(&mut self, io: IoNo) -> IoKind
        requires { IsSome (io_at io.0 self.old.ios.under_way) }
        ensures kind { option_map (λ (x : Io). x.kind) (io_at io.0 self.old.ios.under_way)
            ≡ Some result }
        ensures exact { self.new ≡ record self.old {
          ios = ended_with self.old.ios io.0;
          pages = completed result self.old.pages;
        } }
    {
        let kind = self.ios.complete(io);
        discount_fetch(&mut self.fetching, kind);
        complete(&mut self.pages, kind);
        kind
    }

    /// Makes the pages absent that the workload evicts at this event.
    pub fn evict(&mut self, event: u64)
        ensures { self.new ≡ record self.old {
          pages = evicted event self.old.evictions self.old.pages;
        } }
    {
        if !self.evictions.is_empty() {
            evict_at(event, self.evictions.as_slice(), &mut self.pages);
        }
    }

    /// The resident pages of the space: bit k for page k.
    pub fn pages(&self, s: SpaceNo) -> u16
        requires { s.0 < length self.now.pages }
        ensures { result ≡ slice_index self.now.pages s.0 }
    {
        self.pages[usize::from(s.0)]
    }

    /// Whether a fetch of the space's upcall page is under way.
    pub fn fetching(&self, s: SpaceNo) -> bool
        requires { s.0 < length self.now.pages }
        ensures { result ≡ list_any (fetches s.0) self.now.ios.under_way }
    {
        self.fetching[usize::from(s.0)] > 0
    }

    /// Adds the I/Os under way, in the order of their numbers, at the end of `out`. Fails only where memory runs out.
    pub fn copy_ios(&self, out: &mut Vec<Entry>) -> Result<(), AllocError>
        ensures { OnOk result (out.new.items ≡ out.old.items ++ map entry_of self.now.ios.under_way) }
    {
        self.ios.copy_to(out)
    }

    /// Whether an I/O is under way.
    pub fn busy(&self) -> bool
        ensures { IsTrue result ↔ (self.now.ios.under_way ≢ []) }
    {
        !self.ios.is_empty()
    }
}

// One more fetch of the upcall page of a space is under way, if the I/O is one.
fn count_fetch(fetching: &mut ArrayVec<usize, MAX_SPACES>, kind: IoKind)
    requires kind { IsKind (length fetching.old.items) kind }
    requires few { (s : ℕ) → slice_index fetching.old.items s < 2 ^ 32 }
    ensures spaces { length fetching.new.items ≡ length fetching.old.items }
    ensures counts { (s : ℕ) → slice_index fetching.new.items s
        ≡ slice_index fetching.old.items s + one_fetch s kind }
{
    if let IoKind::Upcall(s) = kind {
        fetching[usize::from(s.0)] += 1;
    }
}

// One fetch less of the upcall page of a space is under way, if the I/O is one.
fn discount_fetch(fetching: &mut ArrayVec<usize, MAX_SPACES>, kind: IoKind)
    requires kind { IsKind (length fetching.old.items) kind }
    requires counted { (s : ℕ) → one_fetch s kind ≤ slice_index fetching.old.items s }
    ensures spaces { length fetching.new.items ≡ length fetching.old.items }
    ensures counts { (s : ℕ) → slice_index fetching.new.items s + one_fetch s kind
        ≡ slice_index fetching.old.items s }
{
    if let IoKind::Upcall(s) = kind {
        fetching[usize::from(s.0)] -= 1;
    }
}
