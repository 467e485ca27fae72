//! Laws of I/Os and pages alone. No function here does anything: its clauses are proved for all of them.
ghost use Rattle.std.specs.Prelude.{◌≡◌, ◌≢◌, ℕ, ◌<◌, true, false, List, length, MatchOption};
ghost use Rattle.sa_spaces.specs.declared.workload.Evict.{Evict};
ghost use Rattle.sa_devices.specs.declared.kind.IoKind.{IoKind};
ghost use Rattle.sa_devices.specs.Ios.{Io, due_of};
ghost use Rattle.sa_devices.specs.Pages.{with_page, without_page, completed, evicted};
ghost use Rattle.sa_base.specs.Pages.{has_page};
ghost use Rattle.sa_devices.specs.Laws.{IsSoonest, NoneIsDue};

use sa_base::PAGES;

/// The one that is due is the soonest of those whose end has come, and there is none exactly where no end has.
pub fn the_due_one_is_the_soonest()
    ensures { (event : ℕ) (ios : List Io)
        → MatchOption (due_of event ios) (NoneIsDue event ios) (IsSoonest event ios) }
{}

/// A page that comes is resident, one that goes is absent, and every other page stays as it was.
pub fn one_page_comes_or_goes()
    ensures comes { (pages k : ℕ) → k < PAGES → has_page (with_page pages k) k ≡ true }
    ensures goes { (pages k : ℕ) → k < PAGES → has_page (without_page pages k) k ≡ false }
    ensures comes_alone { (pages k j : ℕ) → j ≢ k
        → has_page (with_page pages k) j ≡ has_page pages j }
    ensures goes_alone { (pages k j : ℕ) → k < PAGES → j < PAGES → j ≢ k
        → has_page (without_page pages k) j ≡ has_page pages j }
{}

/// No I/O that is over, and no eviction, changes the number of spaces.
pub fn spaces_stay()
    ensures completed { (kind : IoKind) (pages : List ℕ)
        → length (completed kind pages) ≡ length pages }
    ensures evicted { (event : ℕ) (evictions : List Evict) (pages : List ℕ)
        → length (evicted event evictions pages) ≡ length pages }
{}
