// The bytes of what the kernel keeps of spaces.
#![tactic(auto, using(std::proofs::Common::append_assoc))]

ghost use Rattle.std.specs.Prelude.{◌≡◌, ◌<◌, ◌++◌, length, OnOk};
ghost use Rattle.std.specs.List.{flat_map, range_with_len};
ghost use Rattle.sa_core.specs.View.{machine};
ghost use Rattle.sa_outlook.specs.Outlook.{outlook};
ghost use Rattle.sa_package_keys.specs.Codes.{list};
ghost use Rattle.sa_keys.specs.Key.{note_key, space_key, taken_key};
ghost use Rattle.sa_keys.specs.Parts.{note_bytes};

use crate::contexts::put_held;
use crate::keyed::Keyed;
use sa_base::{MAX_SPACES, Note, SpaceNo};
use sa_core::Core;
use sa_package_keys::put_number;
use std::alloc::AllocError;

/// Adds the bytes of each space. Fails only where memory runs out.
pub(crate) fn put_spaces<U: Keyed>(core: &Core<U>, key: &mut Vec<u8>) -> Result<(), AllocError>
    ensures { let seen = outlook U.plain (machine core.now) in OnOk result (key.new.items ≡ key.old.items
        ++ flat_map (space_key U.context_key seen) (range_with_len 0 (length seen.demands))) }
{
    core.keeps();
    for s in 0..core.workload().spaces().len() {
        put_space_of(core, SpaceNo(s as u16), key)?;
    }
    Ok(())
}

// Adds the bytes of a space: its demand, its pages, and what it was not told.
fn put_space_of<U: Keyed>(core: &Core<U>, s: SpaceNo, key: &mut Vec<u8>) -> Result<(), AllocError>
    requires { s.0 < length (machine core.now).workload.spaces }
    ensures { OnOk result (key.new.items ≡ key.old.items
        ++ space_key U.context_key (outlook U.plain (machine core.now)) s.0) }
{
    core.keeps();
    put_number(key, u64::from(core.kernel().demands()[usize::from(s.0)]))?;
    put_number(key, u64::from(core.kernel().devices().pages(s)))?;
    put_untold(core, s, key)?;
    Ok(())
}

// Adds the bytes of what a space was not told.
fn put_untold<U: Keyed>(core: &Core<U>, s: SpaceNo, key: &mut Vec<u8>) -> Result<(), AllocError>
    requires { s.0 < length (machine core.now).workload.spaces }
    ensures { OnOk result (key.new.items ≡ key.old.items
        ++ list (note_key U.context_key) ((outlook U.plain (machine core.now)).untold s.0)) }
{
    core.keeps();
    let untold = core.kernel().untold(s);
    put_number(key, untold.len() as u64)?;
    for note in untold {
        put_note(core, s, *note, key)?;
    }
    Ok(())
}

// Adds the bytes of a notice of a space, with the context that is held of its activation.
fn put_note<U: Keyed>(
    core: &Core<U>,
    s: SpaceNo,
    note: Note,
    key: &mut Vec<u8>,
) -> Result<(), AllocError>
    requires { s.0 < length (machine core.now).workload.spaces }
    ensures { OnOk result (key.new.items
        ≡ key.old.items ++ note_bytes U.plain U.context_key (machine core.now) s.0 note) }
{
    match note {
        Note::Add(p) => {
            put_number(key, 0)?;
            put_number(key, u64::from(p.0))?;
        }
        Note::Preempted(a) => {
            put_number(key, 1)?;
            put_held(core, s, a, key)?;
        }
        Note::Blocked(_) => put_number(key, 2)?,
        Note::Unblocked(a) => {
            put_number(key, 3)?;
            put_held(core, s, a, key)?;
        }
    }
    Ok(())
}

/// Adds how many activations of each space are taken. Fails only where memory runs out.
pub(crate) fn put_taken<U: Keyed>(core: &Core<U>, key: &mut Vec<u8>) -> Result<(), AllocError>
    ensures { OnOk result (key.new.items ≡ key.old.items
        ++ flat_map (taken_key (outlook U.plain (machine core.now))) (range_with_len 0 MAX_SPACES)) }
{
    for s in 0..MAX_SPACES {
        put_number(key, u64::from(core.kernel().taken(SpaceNo(s as u16))))?;
    }
    Ok(())
}
