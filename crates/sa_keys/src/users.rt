// The bytes of the user levels.
ghost use Rattle.std.specs.Prelude.{◌≡◌, ◌<◌, ◌++◌, length, slice_get, Some, OnOk};
ghost use Rattle.std.specs.List.{flat_map};
ghost use Rattle.sa_core.specs.View.{machine};

use crate::keyed::Keyed;
use sa_base::SpaceNo;
use sa_core::Core;
use std::alloc::{AllocError, Global};

/// Adds the bytes of each space's user level. Fails only where memory runs out.
pub(crate) fn put_users<U: Keyed>(
    alloc: Global,
    core: &Core<U>,
    key: &mut Vec<u8>,
) -> Result<(), AllocError>
    ensures { OnOk result (key.new.items
        ≡ key.old.items ++ flat_map U.value_key (machine core.now).users) }
{
    core.keeps();
    for s in 0..core.workload().spaces().len() {
        put_user(alloc, core, SpaceNo(s as u16), key)?;
    }
    Ok(())
}

// Adds the bytes of a space's user level.
fn put_user<U: Keyed>(
    alloc: Global,
    core: &Core<U>,
    s: SpaceNo,
    key: &mut Vec<u8>,
) -> Result<(), AllocError>
    requires { s.0 < length (machine core.now).workload.spaces }
    ensures { (user : U) → slice_get (machine core.now).users s.0 ≡ Some user
        → OnOk result (key.new.items ≡ key.old.items ++ U.value_key user) }
{
    core.keeps();
    core.user(s).put_value(alloc, key)
}
