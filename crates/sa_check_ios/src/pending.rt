// The I/Os under way, and the resident pages.
ghost use Rattle.std.specs.Prelude.{◌≡◌, ◌≢◌, ◌↔◌, [], true, length, map, IsTrue, IfOk, OnOk, OnErr, slice_get, slice_index, slice_set};
ghost use Rattle.std.specs.List.{list_any};
ghost use Rattle.std.specs.Option.{option_map};
ghost use Rattle.sa_devices.specs.Ios.{Io, due_of, fetches};
ghost use Rattle.sa_base.specs.Pages.{has_page};
ghost use Rattle.sa_devices.specs.Pages.{HasPage, opening_pages, evicted};
ghost use Rattle.sa_laws.specs.Record.{is_io_of};
ghost use Rattle.sa_check_ios.specs.PendingView.{opened, begun_with, without_life, without_fetch};

use crate::under_way::{BegunIo, UnderWay};
use sa_base::{ActNo, SpaceNo, has_page};
use sa_devices::{IoKind, all_but, complete, evict_at};
use sa_spaces::{SpaceDef, Workload};
use std::alloc::{AllocError, Global};
use std::marker::Model;

/// The I/Os under way and the resident pages of each space, as a history tells them.
#[derive(Drop)]
pub struct Pending {
    io_count: u64,
    ios: UnderWay,
    // of each space: its upcall page is being fetched
    fetching: Vec<bool>,
    // of each space: bit k for page k
    pages: Vec<u16>,
}

impl Model for Pending {
    ghost use Rattle.sa_check_ios.specs.Kept.{AreFetching};
    ghost use Rattle.sa_check_ios.specs.PendingView.{PendingView};

    ghost Value = { PendingView };

    ghost view = { λ x. record { io_count = x.io_count; under_way = x.ios; pages = x.pages.items } };

    ghost invariant = { λ x. AreFetching x.fetching.items x.ios };
}

impl Pending {
    /// Before any record of a trace of this workload. Fails only where memory runs out.
    pub fn new(alloc: Global, workload: &Workload) -> Result<Pending, AllocError>
        ensures { IfOk result (λ x. x ≡ opened workload.now) }
    {
        let spaces = workload.spaces();
        Ok(Pending {
            io_count: 0,
            ios: UnderWay::new(alloc),
            fetching: vec![in alloc; false; spaces.len()]?,
            pages: first_pages(alloc, spaces)?,
        })
    }

    /// Begins an I/O at the event that is due `length` events after it. An error changes nothing; it comes where memory
    /// runs out, and where 2^64 - 1 were begun.
    pub fn begin(&mut self, kind: IoKind, event: u64, length: u32) -> Result<(), AllocError>
        requires { HasPage kind }
        ensures ok { OnOk result (self.new ≡ begun_with kind event length self.old) }
        ensures err { OnErr result (self.new ≡ self.old) }
    {
        let Some(io_count) = self.io_count.checked_add(1) else {
            return Err(AllocError);
        };
        self.ios.begin(BegunIo {
            number: self.io_count,
            ends: u128::from(event) + u128::from(length),
            kind,
        })?;
        self.io_count = io_count;
        if let IoKind::Upcall(s) = kind {
            set_at(&mut self.fetching, s, true);
        }
        Ok(())
    }

    /// The I/O of the life is over, and its page is resident.
    pub fn end_of_life(&mut self, a: ActNo)
        ensures { self.new ≡ without_life a self.old }
    {
        if let Some(kind) = self.ios.end_life(a) {
            complete(&mut self.pages, kind);
        }
    }

    /// The fetch of the space's upcall page is over, and the page is resident.
    pub fn end_of_fetch(&mut self, s: SpaceNo)
        ensures { self.new ≡ without_fetch s self.old }
    {
        let over = self.ios.end_fetch(s);
        set_at(&mut self.fetching, s, false);
        if let Some(kind) = over {
            complete(&mut self.pages, kind);
        }
    }

    /// Makes the pages absent that the workload evicts at this event.
    pub fn evict(&mut self, event: u64, workload: &Workload)
        ensures { self.new ≡ record self.old {
          pages = evicted event workload.now.evictions self.old.pages;
        } }
    {
        evict_at(event, workload.evictions(), &mut self.pages);
    }

    /// How many I/Os and fetches were begun.
    pub fn io_count(&self) -> u64
        ensures { result ≡ self.now.io_count }
    {
        self.io_count
    }

    /// What the I/O is for that is due at the event: the one with the least end up to the event, and of these the one
    /// with the least number.
    pub fn due(&self, event: u64) -> Option<IoKind>
        ensures { result ≡ option_map (λ (io : Io). io.kind) (due_of event self.now.under_way) }
    {
        self.ios.due(event)
    }

    /// How many I/Os are under way.
    pub fn io_len(&self) -> usize
        ensures { result ≡ length self.now.under_way }
    {
        self.ios.len()
    }

    /// What the I/O is for that is under way at this index, in the order of their numbers.
    pub fn kind_at(&self, k: usize) -> Option<IoKind>
        ensures { result ≡ option_map (λ (io : Io). io.kind) (slice_get self.now.under_way k) }
    {
        self.ios.kind_at(k)
    }

    /// Some I/O is under way.
    pub fn is_busy(&self) -> bool
        ensures { IsTrue result ↔ (self.now.under_way ≢ []) }
    {
        !self.ios.is_empty()
    }

    /// An I/O of the life is under way: it is blocked.
    pub fn has_io(&self, a: ActNo) -> bool
        ensures { result ≡ list_any (is_io_of a) self.now.under_way }
    {
        self.ios.has_life(a)
    }

    /// The upcall page of the space is being fetched.
    pub fn is_fetching(&self, s: SpaceNo) -> bool
        ensures { result ≡ list_any (fetches s.0) self.now.under_way }
    {
        match self.fetching.get(usize::from(s.0)) {
            Some(fetching) => *fetching,
            None => self.ios.has_fetch(s),
        }
    }

    /// The resident pages of the space: bit k for page k. A space that is not there has none.
    pub fn pages(&self, s: SpaceNo) -> u16
        ensures { result ≡ slice_index self.now.pages s.0 }
    {
        self.pages.get(usize::from(s.0)).copied().unwrap_or(0)
    }

    /// The page of the space is resident.
    pub fn is_resident(&self, s: SpaceNo, page: u16) -> bool
        ensures { result ≡ has_page (slice_index self.now.pages s.0) page }
    {
        has_page(self.pages(s), page)
    }
}

// The pages that are resident at the opening.
fn first_pages(alloc: Global, spaces: &[SpaceDef]) -> Result<Vec<u16>, AllocError>
    ensures { IfOk result (λ pages. pages.items ≡ map opening_pages spaces.now) }
{
    let mut pages = Vec::with_capacity(alloc, spaces.len())?;
    for space in spaces {
        pages.push(all_but(space.absent()))?;
    }
    Ok(pages)
}

// Whether the upcall page of the space is being fetched is now this.
fn set_at(fetching: &mut Vec<bool>, s: SpaceNo, now: bool)
    ensures { fetching.new.items ≡ slice_set fetching.old.items s.0 now }
{
    if usize::from(s.0) < fetching.len() {
        fetching[usize::from(s.0)] = now;
    }
}
