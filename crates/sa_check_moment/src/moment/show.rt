// What is shown of a moment beyond what the rules look at.
#![tactic(auto, unfolding(crate::specs::Seen::seen))]

ghost use Rattle.std.specs.Prelude.{◌≡◌, length, slice_get};
ghost use Rattle.std.specs.Option.{option_map};
ghost use Rattle.sa_devices.specs.Ios.{Io};
ghost use Rattle.sa_laws.specs.State.{space_at};
ghost use Rattle.sa_laws.specs.Step.{has_io};
ghost use Rattle.sa_check_moment.specs.Seen.{seen};

use crate::moment::Moment;
use sa_base::{ActNo, SpaceNo};
use sa_devices::IoKind;

impl Moment {
    /// How many threads of the space were made, which have the numbers below; at most 512.
    pub fn made(&self, s: SpaceNo) -> u16
        ensures { result ≡ length (space_at (seen self.now).readings.state s).threads }
    {
        self.parts.replay.made(s)
    }

    /// An I/O of the life is under way: it is blocked.
    pub fn has_io(&self, a: ActNo) -> bool
        ensures { result ≡ has_io (seen self.now).readings a }
    {
        self.parts.pending.has_io(a)
    }

    /// How many I/Os are under way.
    pub fn io_len(&self) -> usize
        ensures { result ≡ length (seen self.now).readings.under_way }
    {
        self.parts.pending.io_len()
    }

    /// What the I/O is for that is under way at this index, in the order of their numbers.
    pub fn io_kind(&self, k: usize) -> Option<IoKind>
        ensures { result ≡ option_map (λ (io : Io). io.kind) (slice_get (seen self.now).readings.under_way k) }
    {
        self.parts.pending.kind_at(k)
    }
}
