// Which processors are halted, and whose turn is next.
ghost use Rattle.std.specs.Prelude.{◌≡◌, ◌<◌, ◌≤◌, ◌%◌, ◌↔◌, find, slice_set, IsTrue};
ghost use Rattle.sa_base.specs.declared.limits.TheConstants.{MAX_PROCESSORS};
ghost use Rattle.sa_assign.specs.Reaim.{proc_no};
ghost use Rattle.sa_debug.specs.Order.{goes, EachGoes, in_order};

use sa_base::{MAX_PROCESSORS, ProcNo};
use std::marker::Model;

/// Of each processor, whether it is halted.
#[derive(Drop)]
pub(crate) struct Halts {
    halted: [bool; MAX_PROCESSORS as usize],
}

impl Model for Halts {
    ghost use Rattle.std.specs.Prelude.{List, Bool};

    ghost Value = { List Bool };

    ghost view = { λ h. h.halted };
}

impl Halts {
    ghost use Rattle.sa_debug.specs.Order.{none_halted};

    /// None is halted.
    pub(crate) fn new() -> Halts
        ensures { result ≡ none_halted }
    {
        Halts {
            halted: [false; MAX_PROCESSORS as usize],
        }
    }

    /// Halts the processor, or ends its halt.
    pub(crate) fn set(&mut self, p: ProcNo, halted: bool)
        requires { p.0 < MAX_PROCESSORS }
        ensures { self.new ≡ slice_set self.old p.0 halted }
    {
        self.halted[usize::from(p.0)] = halted;
    }

    /// Whether no processor is halted.
    pub(crate) fn are_none(&self) -> bool
        ensures { IsTrue result ↔ EachGoes self.now }
    {
        for p in 0..MAX_PROCESSORS {
            if !self.goes(p) {
                return false;
            }
        }
        true
    }

    // Whether the processor is not halted.
    fn goes(&self, p: u16) -> bool
        requires { p < MAX_PROCESSORS }
        ensures { result ≡ goes self.now (proc_no p) }
    {
        !self.halted[usize::from(p)]
    }

    /// The first of the processors that is not halted, cyclically from this one on.
    pub(crate) fn next(&self, first: u16, processors: u16) -> Option<ProcNo>
        requires few { processors ≤ MAX_PROCESSORS }
        requires first { first < processors }
        ensures { result ≡ find (goes self.now) (in_order first processors) }
    {
        if self.goes(first) {
            return Some(ProcNo(first));
        }
        for k in 1..processors {
            let p = cyclic(u32::from(first) + u32::from(k), processors);
            if self.goes(p) {
                return Some(ProcNo(p));
            }
        }
        None
    }
}

/// The number of the processor that is the `n`-th behind processor 0, cyclically.
pub(crate) fn cyclic(n: u32, processors: u16) -> u16
    requires { 1 ≤ processors }
    ensures cyclic { result ≡ n % processors }
    ensures below { result < processors }
{
    if n < u32::from(processors) {
        return n as u16;
    }
    (n % u32::from(processors)) as u16
}
