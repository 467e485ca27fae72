// The bytes of FastThreads.
ghost use Rattle.std.specs.Prelude.{◌≡◌, ◌++◌, Some, OnOk};
ghost use Rattle.sa_package_model.specs.Stands.{fast_stands};
ghost use Rattle.sa_package_outlook.specs.Contexts.{plain};
ghost use Rattle.sa_package_keys.specs.Values.{IsStood};
ghost use Rattle.sa_package_keys.specs.Packages.{fast_value_key, fast_context_key};

use crate::contexts::{put_sections, put_state};
use crate::put_thread;
use crate::shared::put_shared;
use sa_package::FastThreads;
use sa_package_model::Context;
use std::alloc::{AllocError, Global};

/// Adds the bytes of the package of a space. Fails only where memory runs out.
pub fn put_fast_value(
    threads: &FastThreads,
    alloc: Global,
    key: &mut Vec<u8>,
) -> Result<(), AllocError>
    requires { IsStood fast_stands threads.now }
    ensures { OnOk result (key.new.items ≡ key.old.items ++ fast_value_key threads.now) }
{
    let package = threads.package();
    put_shared(&package.shared, alloc, key)
}

/// Adds the bytes of what matters of a context of the package's space. Fails only where memory runs out.
pub fn put_fast_context(
    threads: &FastThreads,
    ctx: &Context,
    key: &mut Vec<u8>,
) -> Result<(), AllocError>
    ensures { OnOk result (key.new.items
        ≡ key.old.items ++ fast_context_key (plain (Some threads.now.def) ctx.now)) }
{
    let package = threads.package();
    put_state(ctx.state, package.def.patience(), key)?;
    put_sections(ctx.sections.frames(), key)?;
    put_thread(key, ctx.work)
}
