// The resident pages of each space: bit k for page k. A space that is not there has none.
ghost use Rattle.std.specs.Prelude.{◌≡◌, ◌-◌, ◌^◌, ◌≤◌, All};
ghost use Rattle.std.specs.List.Sorted.{IsNonDecreasingBy};
ghost use Rattle.sa_spaces.specs.declared.workload.Evict.{Evict};
ghost use Rattle.sa_devices.specs.Pages.{HasPage, come, gone, without_pages, completed, evicted};

use crate::kind::IoKind;
use sa_base::{PAGES, SpaceNo, UPCALL_PAGE};
use sa_instr::LAST_PAGE;
use sa_spaces::Evict;

/// All pages but these.
pub fn all_but(absent: &[u16]) -> u16
    requires { All (λ page. page ≤ LAST_PAGE) absent.now }
    ensures { result ≡ without_pages (2 ^ 16 - 1) absent.now }
{
    let mut pages = u16::MAX;
    for page in absent {
        pages &= !(1 << *page);
    }
    pages
}

/// An I/O is over: its page is resident.
pub fn complete(pages: &mut [u16], kind: IoKind)
    requires { HasPage kind }
    ensures { pages.new ≡ completed kind pages.old }
{
    match kind {
        IoKind::Plain(..) => {}
        IoKind::Page(s, _, page) => come(pages, s, page),
        IoKind::Upcall(s) => come(pages, s, UPCALL_PAGE),
    }
}

/// Makes the pages absent that are evicted at the event.
pub fn evict_at(event: u64, evictions: &[Evict], pages: &mut [u16])
    requires order { IsNonDecreasingBy (λ (e : Evict). e.event) evictions.now }
    requires range { All (λ (e : Evict). e.page ≤ LAST_PAGE) evictions.now }
    ensures { pages.new ≡ evicted event evictions.now pages.old }
{
    let from = evictions.partition_point(|evict| evict.event < event);
    let later = &evictions[from..];
    for evict in later {
        if evict.event != event {
            return;
        }
        leave(pages, evict.space, evict.page);
    }
}

// The page of the space is resident.
fn come(pages: &mut [u16], s: SpaceNo, page: u16)
    requires { page ≤ LAST_PAGE }
    ensures { pages.new ≡ come pages.old s.0 page }
{
    let at = usize::from(s.0);
    if at < pages.len() {
        pages[at] |= 1 << page;
    }
}

// The page of the space is absent.
fn leave(pages: &mut [u16], s: SpaceNo, page: u16)
    requires { page ≤ LAST_PAGE }
    ensures { pages.new ≡ gone pages.old s.0 page }
{
    let at = usize::from(s.0);
    if at < pages.len() {
        pages[at] &= !(1 << page);
    }
}
