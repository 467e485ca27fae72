// The bytes of contexts.
ghost use Rattle.std.specs.Prelude.{◌≡◌, ◌++◌, OnOk};
ghost use Rattle.sa_package_outlook.specs.Contexts.{plain_state};
ghost use Rattle.sa_package_keys.specs.Codes.{list};
ghost use Rattle.sa_package_keys.specs.Packages.{list_no_key, frame_key, state_key};

use crate::{put_flag, put_number, put_optional_number, put_thread};
use sa_base::ProcNo;
use sa_code::Frame;
use sa_package_model::ContextState;
use std::alloc::AllocError;

// Adds the bytes of a list, if there is one. This and all below fail only where memory runs out.
fn put_list_no(list: Option<ProcNo>, key: &mut Vec<u8>) -> Result<(), AllocError>
    ensures { OnOk result (key.new.items ≡ key.old.items ++ list_no_key list) }
{
    match list {
        None => put_optional_number(key, None),
        Some(l) => put_optional_number(key, Some(l.0)),
    }
}

// Adds the bytes of a frame.
fn put_frame(frame: &Frame, key: &mut Vec<u8>) -> Result<(), AllocError>
    ensures { OnOk result (key.new.items ≡ key.old.items ++ frame_key frame.now) }
{
    put_number(key, u64::from(frame.pc))?;
    put_list_no(frame.list, key)?;
    put_flag(key, frame.own)?;
    put_thread(key, frame.pushed)?;
    put_thread(key, frame.thread)
}

/// Adds the bytes of where a context is, which says of no more looks than the patience.
pub(crate) fn put_state(
    state: ContextState,
    patience: u16,
    key: &mut Vec<u8>,
) -> Result<(), AllocError>
    ensures { OnOk result (key.new.items ≡ key.old.items ++ state_key (plain_state patience state)) }
{
    match state {
        ContextState::Code(frame) => {
            put_number(key, 0)?;
            put_frame(&frame, key)
        }
        ContextState::Work(thread) => {
            put_number(key, 1)?;
            put_thread(key, thread)
        }
        ContextState::Hint(thread) => {
            put_number(key, 2)?;
            put_thread(key, thread)
        }
        ContextState::Return => put_number(key, 3),
        ContextState::User(thread) => {
            put_number(key, 4)?;
            put_number(key, u64::from(thread.0))
        }
        ContextState::Look(looks) => {
            put_number(key, 5)?;
            put_number(key, u64::from(looks.min(patience)))
        }
    }
}

/// Adds the bytes of critical sections that are to be continued.
#[tactic(auto, using(std::proofs::Common::append_assoc, crate::proofs::Loops::list_more), unfolding(crate::specs::Codes::list))]
pub(crate) fn put_sections(frames: &[Frame], key: &mut Vec<u8>) -> Result<(), AllocError>
    ensures { OnOk result (key.new.items ≡ key.old.items ++ list frame_key frames.now) }
{
    put_number(key, frames.len() as u64)?;
    for frame in frames {
        put_frame(frame, key)?;
    }
    Ok(())
}
