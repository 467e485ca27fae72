// What a line of a trace text may depend on of the items before it.
ghost use Rattle.std.specs.Prelude.{◌≡◌, ◌<◌, [], All};
ghost use Rattle.sa_trace.specs.Line.{MAX64, so_far};
ghost use Rattle.sa_trace.specs.Reader.{and_item};

use crate::counts::place;
use crate::kind::RECORD_KINDS;
use sa_base::Item;

/// The last of the items so far, and how many there are of each kind, in the order of their numbers.
#[derive(Clone, Copy)]
pub(crate) struct SoFar {
    pub(crate) last: Option<Item>,
    pub(crate) counts: [u64; RECORD_KINDS],
}

impl SoFar {
    /// No item so far.
    pub(crate) fn new() -> SoFar
        ensures { result ≡ so_far [] }
    {
        SoFar {
            last: None,
            counts: [0; RECORD_KINDS],
        }
    }

    /// Goes on after this item.
    pub(crate) fn add(&mut self, item: Item)
        requires { All (λ n. n < MAX64) self.old.counts }
        ensures { self.new ≡ and_item item self.old }
    {
        self.counts[place(&item.what)] += 1;
        self.last = Some(item);
    }
}
