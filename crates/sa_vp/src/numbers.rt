// The numbers of virtual processors: that of place k of space s is 16 s + k.
ghost use Rattle.std.specs.Prelude.{◌≡◌, ◌<◌};
ghost use Rattle.sa_virtual.specs.Virtual.{space_of, list_of};
ghost use Rattle.sa_virtual.specs.Turn.{of_io};

use sa_base::{ActNo, MAX_PROCESSORS, ProcNo, SpaceNo};
use sa_devices::IoKind;
use sa_vp_model::VIRTUALS;

/// How many places a space has in these numbers.
pub(crate) const PLACES: u32 = MAX_PROCESSORS as u32;

/// The space of a virtual processor.
pub(crate) fn space_of(a: ActNo) -> SpaceNo
    requires { a.0 < VIRTUALS }
    ensures { result ≡ space_of a }
{
    SpaceNo((a.0 / u64::from(MAX_PROCESSORS)) as u16)
}

/// Its place among those of its space, at which its lists are.
pub(crate) fn list_of(a: ActNo) -> ProcNo
    requires { a.0 < VIRTUALS }
    ensures { result ≡ list_of a }
{
    ProcNo((a.0 % u64::from(MAX_PROCESSORS)) as u16)
}

/// The virtual processor that an I/O blocks.
pub(crate) fn blocked_by(kind: IoKind) -> ActNo
    ensures { result ≡ of_io kind }
{
    match kind {
        IoKind::Plain(_, a) | IoKind::Page(_, a, _) => a,
        IoKind::Upcall(_) => ActNo(0),
    }
}
