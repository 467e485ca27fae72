// What a user level sees of the kernel, and whether nothing can happen any more.
ghost use Rattle.std.specs.Prelude.{◌≡◌, ◌^◌, ◌<◌, bit_or, length, is_some, Some, IsSome};

use crate::parts::Parts;
use sa_base::{MAX_SPACES, ProcNo, Seen, SpaceNo};

/// Of each space, what it sees of low lines: bit q says that it owns processor q, whose line is low.
pub(crate) type Lows = [u16; MAX_SPACES];

impl<C: Drop> Parts<C> {
    ghost use Rattle.sa_kernel.specs.View.{state_of};
    ghost use Rattle.sa_kernel.specs.Needs.{HasProc};
    ghost use Rattle.sa_kernel.specs.Kept.{AreLow, IsLowOwner};
    ghost use Rattle.sa_kernel_model.specs.State.{owner_of};
    ghost use Rattle.sa_kernel_model.specs.Sound.{HasSizes, AreSpaces, IsFormed};
    ghost use Rattle.sa_kernel_model.specs.Seen.{seen_of, has_line, has_call};

    /// What each space sees of low lines.
    pub(crate) fn lows(&self) -> Lows
        requires { IsFormed (state_of self.now) }
        ensures { AreLow (state_of self.now) result }
    {
        let mut lows = [0; MAX_SPACES];
        for q in 0..self.assign.processors() {
            if let Some(s) = self.low_owner(ProcNo(q)) {
                lows[usize::from(s.0)] = with_bit(lows[usize::from(s.0)], q);
            }
        }
        lows
    }

    // The space that owns the processor, whose line is low.
    fn low_owner(&self, p: ProcNo) -> Option<SpaceNo>
        requires { HasProc (state_of self.now) p }
        ensures { IsLowOwner (state_of self.now) p result }
    {
        if self.assign.line(p).is_some() {
            return None;
        }
        self.assign.owner(p)
    }

    /// What the space that owns the processor sees there, where this is what each space sees of low lines.
    pub(crate) fn seen(&self, p: ProcNo, event: u64, lows: &Lows) -> Seen
        requires proc { HasProc (state_of self.now) p }
        requires owners { AreSpaces (length self.now.demands.items) self.now.assign.owners }
        requires owned { IsSome (owner_of (state_of self.now) p) }
        requires lows { AreLow (state_of self.now) lows.now }
        ensures { (s : SpaceNo) → owner_of (state_of self.now) p ≡ Some s
            → result ≡ seen_of (state_of self.now) p s event }
    {
        let Some(s) = self.assign.owner(p) else {
            unreachable!()
        };
        Seen {
            proc: p,
            event,
            demand: self.demands[usize::from(s.0)],
            pages: self.devices.pages(s),
            taken: self.acts.taken(s),
            low: lows[usize::from(s.0)],
        }
    }

    /// Whether the line of a processor is raised.
    pub(crate) fn has_line(&self) -> bool
        requires { HasSizes (state_of self.now) }
        ensures { result ≡ has_line (state_of self.now) }
    {
        for q in 0..self.assign.processors() {
            if self.assign.line(ProcNo(q)).is_some() {
                return true;
            }
        }
        false
    }

    /// Whether a space was not told yet of a context that was not idle.
    pub(crate) fn has_call(&self) -> bool
        requires { HasSizes (state_of self.now) }
        ensures { result ≡ has_call (state_of self.now) }
    {
        for s in 0..self.demands.len() {
            if self.some_calls(self.notices.untold(SpaceNo(s as u16))) {
                return true;
            }
        }
        false
    }
}

// The number with bit q.
fn with_bit(low: u16, q: u16) -> u16
    requires { q < 16 }
    ensures { result ≡ bit_or low (2 ^ q) }
{
    low | 1 << q
}
