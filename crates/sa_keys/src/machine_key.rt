// The key of a machine.
ghost use Rattle.std.specs.Prelude.{◌≡◌, ◌++◌, IfOk, OnOk};
ghost use Rattle.sa_core.specs.View.{machine};
ghost use Rattle.sa_outlook.specs.Outlook.{outlook};
ghost use Rattle.sa_outlook.specs.Look.{look_by};
ghost use Rattle.sa_keys.specs.Key.{key_of};
ghost use Rattle.sa_keys.specs.Outs.{look_key};

use crate::ios::put_ios;
use crate::keyed::Keyed;
use crate::processors::put_processors;
use crate::put_out::put_told;
use crate::spaces::{put_spaces, put_taken};
use crate::time::put_time;
use crate::users::put_users;
use sa_core::Core;
use sa_outlook::Telling;
use std::alloc::{AllocError, Global};

/// The bytes of the machine's outlook. Fails only where memory runs out.
pub fn key<U: Keyed>(alloc: Global, core: &Core<U>) -> Result<Vec<u8>, AllocError>
    ensures { IfOk result (λ bytes.
        bytes.items ≡ key_of U.value_key U.context_key (outlook U.plain (machine core.now))) }
{
    let mut bytes = Vec::new(alloc);
    put_outlook(alloc, core, &mut bytes)?;
    Ok(bytes)
}

/// The bytes of what the machine's state is told apart by: what threads put out, if runs are told apart by it, and its outlook. Fails only
/// where memory runs out.
pub fn look_key<U: Keyed>(
    alloc: Global,
    core: &Core<U>,
    tell: Telling,
) -> Result<Vec<u8>, AllocError>
    ensures { IfOk result (λ bytes.
        bytes.items ≡ look_key U.value_key U.context_key tell (look_by U.plain tell (machine core.now))) }
{
    let mut bytes = Vec::new(alloc);
    put_told(alloc, core, tell, &mut bytes)?;
    put_outlook(alloc, core, &mut bytes)?;
    Ok(bytes)
}

// Adds the bytes of the machine's outlook.
#[tactic(auto, using(std::proofs::Common::append_assoc))]
fn put_outlook<U: Keyed>(
    alloc: Global,
    core: &Core<U>,
    bytes: &mut Vec<u8>,
) -> Result<(), AllocError>
    ensures { OnOk result (bytes.new.items
        ≡ bytes.old.items ++ key_of U.value_key U.context_key (outlook U.plain (machine core.now))) }
{
    put_processors(core, bytes)?;
    put_users(alloc, core, bytes)?;
    put_spaces(core, bytes)?;
    put_taken(core, bytes)?;
    put_ios(alloc, core, bytes)?;
    put_time(core, bytes)
}
