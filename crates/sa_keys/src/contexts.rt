// The bytes of contexts.
#![tactic(auto, using(std::proofs::Common::append_assoc))]

ghost use Rattle.std.specs.Prelude.{◌≡◌, ◌<◌, ◌++◌, length, OnOk};
ghost use Rattle.sa_core.specs.View.{machine};
ghost use Rattle.sa_package_keys.specs.Codes.{number};
ghost use Rattle.sa_keys.specs.Parts.{context_bytes, stopped_bytes, held_bytes};

use crate::keyed::Keyed;
use sa_base::{ActNo, SpaceNo, Stopped};
use sa_core::Core;
use sa_package_keys::{put_flag, put_number, put_thread};
use std::alloc::AllocError;

/// Adds the bytes of what matters of a context of the space. Fails only where memory runs out.
pub(crate) fn put_context_of<U: Keyed>(
    core: &Core<U>,
    s: SpaceNo,
    ctx: &U::Ctx,
    key: &mut Vec<u8>,
) -> Result<(), AllocError>
    requires { s.0 < length (machine core.now).workload.spaces }
    ensures { OnOk result (key.new.items
        ≡ key.old.items ++ context_bytes U.plain U.context_key (machine core.now) s.0 ctx.now) }
{
    core.keeps();
    core.user(s).put_context(ctx, key)
}

// Adds the bytes of a context that is held, and of what the kernel knows of it, behind those of its being there.
fn put_stopped<U: Keyed>(
    core: &Core<U>,
    s: SpaceNo,
    held: &Stopped<U::Ctx>,
    key: &mut Vec<u8>,
) -> Result<(), AllocError>
    requires { s.0 < length (machine core.now).workload.spaces }
    ensures { OnOk result (key.new.items ≡ key.old.items
        ++ (number 1 ++ stopped_bytes U.plain U.context_key (machine core.now) s.0 held.now)) }
{
    put_number(key, 1)?;
    put_context_of(core, s, &held.ctx, key)?;
    put_thread(key, held.thread)?;
    put_flag(key, held.idle)?;
    Ok(())
}

/// Adds the bytes of the context that is held of an activation of the space, if one is. Fails only where memory runs
/// out.
pub(crate) fn put_held<U: Keyed>(
    core: &Core<U>,
    s: SpaceNo,
    a: ActNo,
    key: &mut Vec<u8>,
) -> Result<(), AllocError>
    requires { s.0 < length (machine core.now).workload.spaces }
    ensures { OnOk result (key.new.items
        ≡ key.old.items ++ held_bytes U.plain U.context_key (machine core.now) s.0 a) }
{
    match core.kernel().held(a) {
        None => put_number(key, 0),
        Some(held) => put_stopped(core, s, held, key),
    }
}
