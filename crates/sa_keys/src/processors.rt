// The bytes of processors.
#![tactic(auto, using(std::proofs::Common::append_assoc))]

ghost use Rattle.std.specs.Prelude.{◌≡◌, ◌<◌, ◌++◌, false, None, is_some, length, slice_index_or, OnOk};
ghost use Rattle.std.specs.List.{flat_map, range_with_len};
ghost use Rattle.sa_core.specs.View.{machine};
ghost use Rattle.sa_outlook.specs.Outlook.{outlook, see_at};
ghost use Rattle.sa_package_keys.specs.Codes.{flag, optional, space_no_key};
ghost use Rattle.sa_keys.specs.Key.{processor_key};

use crate::contexts::put_context_of;
use crate::keyed::Keyed;
use sa_assign::Assign;
use sa_base::ProcNo;
use sa_core::Core;
use sa_package_keys::{put_flag, put_number, put_space};
use std::alloc::AllocError;

/// Adds the bytes of each processor. Fails only where memory runs out.
pub(crate) fn put_processors<U: Keyed>(core: &Core<U>, key: &mut Vec<u8>) -> Result<(), AllocError>
    ensures { let seen = outlook U.plain (machine core.now) in OnOk result (key.new.items ≡ key.old.items
        ++ flat_map (processor_key U.context_key seen) (range_with_len 0 (length seen.owners))) }
{
    core.keeps();
    for p in 0..core.workload().processors() {
        put_processor(core, ProcNo(p), key)?;
    }
    Ok(())
}

// Adds the bytes of a processor: its owner, its aim, whether its line is raised, its idle mark, and the context that runs
// there.
fn put_processor<U: Keyed>(core: &Core<U>, p: ProcNo, key: &mut Vec<u8>) -> Result<(), AllocError>
    requires { p.0 < (machine core.now).workload.processors }
    ensures { OnOk result (key.new.items ≡ key.old.items
        ++ processor_key U.context_key (outlook U.plain (machine core.now)) p.0) }
{
    core.keeps();
    put_assigned(core.kernel().assign(), p, key)?;
    put_running(core, p, key)?;
    Ok(())
}

// Adds the bytes of what the kernel has assigned to a processor.
fn put_assigned(assign: &Assign, p: ProcNo, key: &mut Vec<u8>) -> Result<(), AllocError>
    requires { p.0 < length assign.now.owners }
    ensures { OnOk result (key.new.items ≡ key.old.items
        ++ (space_no_key (slice_index_or assign.now.owners p.0 None)
        ++ space_no_key (slice_index_or assign.now.aims p.0 None)
        ++ flag (is_some (slice_index_or assign.now.lines p.0 None))
        ++ flag (slice_index_or assign.now.marks p.0 false))) }
{
    put_space(key, assign.owner(p))?;
    put_space(key, assign.aim(p))?;
    put_flag(key, assign.line(p).is_some())?;
    put_flag(key, assign.is_marked(p))?;
    Ok(())
}

// Adds the bytes of the context that runs on a processor, if one does.
fn put_running<U: Keyed>(core: &Core<U>, p: ProcNo, key: &mut Vec<u8>) -> Result<(), AllocError>
    requires { p.0 < (machine core.now).workload.processors }
    ensures { OnOk result (key.new.items ≡ key.old.items
        ++ optional U.context_key (see_at U.plain (machine core.now) p.0)) }
{
    core.keeps();
    let Some(s) = core.kernel().assign().owner(p) else {
        return put_number(key, 0);
    };
    let Some(ctx) = core.running(p) else {
        return put_number(key, 0);
    };
    put_number(key, 1)?;
    put_context_of(core, s, ctx, key)?;
    Ok(())
}
