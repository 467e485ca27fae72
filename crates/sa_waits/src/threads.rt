// The threads that wait.
ghost use Rattle.std.specs.Prelude.{◌≡◌, ◌<◌, ◌++◌, length, IfOk, OnOk};
ghost use Rattle.sa_laws.specs.State.{space_at};
ghost use Rattle.sa_waits.specs.Waits.{waiting, waits_in, waits_of};

use crate::queues::awaited;
use crate::wait::Wait;
use sa_base::{SpaceNo, ThreadNo};
use sa_replay::Replay;
use std::alloc::{AllocError, Global};

/// The threads that wait, in order of spaces and threads. Fails only where memory runs out.
pub fn waits(alloc: Global, replay: &Replay) -> Result<Vec<Wait>, AllocError>
    ensures { IfOk result (λ waits. waits.items ≡ waits_of replay.now.state) }
{
    let mut waits = Vec::new(alloc);
    for s in 0..replay.spaces() {
        push_space(alloc, replay, SpaceNo(s), &mut waits)?;
    }
    Ok(waits)
}

// Adds those of a space.
fn push_space(
    alloc: Global,
    replay: &Replay,
    s: SpaceNo,
    waits: &mut Vec<Wait>,
) -> Result<(), AllocError>
    requires { s.0 < length replay.now.state.spaces }
    ensures { OnOk result (waits.new.items ≡ waits.old.items ++ waits_in s (space_at replay.now.state s)) }
{
    for t in 0..replay.made(s) {
        push_thread(alloc, replay, s, ThreadNo(t), waits)?;
    }
    Ok(())
}

// Adds a thread, where it waits.
fn push_thread(
    alloc: Global,
    replay: &Replay,
    s: SpaceNo,
    t: ThreadNo,
    waits: &mut Vec<Wait>,
) -> Result<(), AllocError>
    requires { s.0 < length replay.now.state.spaces }
    ensures { OnOk result (waits.new.items ≡ waits.old.items ++ waiting s (space_at replay.now.state s) t.0) }
{
    match awaited(alloc, replay.sync(s), t)? {
        None => Ok(()),
        Some(awaits) => {
            let place = replay.thread(s, t).pc().saturating_sub(1);
            waits.push(Wait {
                space: s,
                thread: t,
                place,
                awaits,
            })?;
            Ok(())
        }
    }
}
