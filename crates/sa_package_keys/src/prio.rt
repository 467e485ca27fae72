// The bytes of thread priorities.
ghost use Rattle.std.specs.Prelude.{◌≡◌, ◌++◌, Some, OnOk};
ghost use Rattle.sa_prio_model.specs.Stands.{prio_stands};
ghost use Rattle.sa_package_outlook.specs.Contexts.{plain_prio};
ghost use Rattle.sa_package_keys.specs.Values.{IsStood};
ghost use Rattle.sa_package_keys.specs.Packages.{prio_value_key, prio_context_key};

use crate::fast::{put_fast_context, put_fast_value};
use crate::ranks::put_ranks;
use crate::{put_flag, put_threads};
use sa_prio::PrioThreads;
use sa_prio_model::PrioContext;
use std::alloc::{AllocError, Global};

/// Adds the bytes of the package of a space. Fails only where memory runs out.
pub fn put_prio_value(
    threads: &PrioThreads,
    alloc: Global,
    key: &mut Vec<u8>,
) -> Result<(), AllocError>
    requires { IsStood prio_stands threads.now }
    ensures { OnOk result (key.new.items ≡ key.old.items ++ prio_value_key threads.now) }
{
    let base = threads.base();
    let shared = &base.package().shared;
    put_ranks(&shared.state.lists, key)?;
    put_fast_value(base, alloc, key)?;
    put_threads(threads.on(), key)?;
    Ok(())
}

/// Adds the bytes of what matters of a context of the package's space. Fails only where memory runs out.
pub fn put_prio_context(
    threads: &PrioThreads,
    ctx: &PrioContext,
    key: &mut Vec<u8>,
) -> Result<(), AllocError>
    ensures { OnOk result (key.new.items
        ≡ key.old.items ++ prio_context_key (plain_prio (Some threads.now.base.def) ctx.now)) }
{
    put_fast_context(threads.base(), &ctx.base, key)?;
    put_flag(key, ctx.urge)
}
