// The bytes of the I/Os under way.
#![tactic(auto, using(std::proofs::Common::append_assoc))]

ghost use Rattle.std.specs.Prelude.{◌≡◌, ◌<◌, ◌++◌, length, OnOk};
ghost use Rattle.sa_devices.specs.Pages.{IsKind};
ghost use Rattle.sa_core.specs.View.{machine};
ghost use Rattle.sa_outlook.specs.Outlook.{outlook};
ghost use Rattle.sa_package_keys.specs.Codes.{list};
ghost use Rattle.sa_keys.specs.Key.{io_key};
ghost use Rattle.sa_keys.specs.Parts.{kind_bytes, entry_bytes};

use crate::contexts::put_held;
use crate::due_order::in_due_order;
use crate::keyed::Keyed;
use sa_core::Core;
use sa_devices::{Entry, IoKind};
use sa_package_keys::put_number;
use std::alloc::{AllocError, Global};

/// Adds the bytes of the I/Os under way, in the order in which they are due. Fails only where memory runs out.
pub(crate) fn put_ios<U: Keyed>(
    alloc: Global,
    core: &Core<U>,
    key: &mut Vec<u8>,
) -> Result<(), AllocError>
    ensures { OnOk result (key.new.items ≡ key.old.items
        ++ list (io_key U.context_key) (outlook U.plain (machine core.now)).ios) }
{
    core.keeps();
    let due = in_due_order(alloc, core.kernel().devices())?;
    put_number(key, due.len() as u64)?;
    for io in &due {
        put_io(core, *io, key)?;
    }
    Ok(())
}

// Adds the bytes of an I/O under way: how many events are left until its end, and what it is for.
fn put_io<U: Keyed>(core: &Core<U>, io: Entry, key: &mut Vec<u8>) -> Result<(), AllocError>
    requires { IsKind (length (machine core.now).workload.spaces) io.kind }
    ensures { OnOk result (key.new.items
        ≡ key.old.items ++ entry_bytes U.plain U.context_key (machine core.now) io) }
{
    put_number(key, io.ends.saturating_sub(core.events()))?;
    put_kind(core, io.kind, key)?;
    Ok(())
}

// Adds the bytes of what an I/O is for, with the context that is held of its activation.
fn put_kind<U: Keyed>(core: &Core<U>, kind: IoKind, key: &mut Vec<u8>) -> Result<(), AllocError>
    requires { IsKind (length (machine core.now).workload.spaces) kind }
    ensures { OnOk result (key.new.items
        ≡ key.old.items ++ kind_bytes U.plain U.context_key (machine core.now) kind) }
{
    match kind {
        IoKind::Plain(s, a) => {
            put_number(key, 0)?;
            put_number(key, u64::from(s.0))?;
            put_held(core, s, a, key)?;
        }
        IoKind::Page(s, a, page) => {
            put_number(key, 1)?;
            put_number(key, u64::from(s.0))?;
            put_held(core, s, a, key)?;
            put_number(key, u64::from(page))?;
        }
        IoKind::Upcall(s) => {
            put_number(key, 2)?;
            put_number(key, u64::from(s.0))?;
        }
    }
    Ok(())
}
