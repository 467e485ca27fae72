// The circles of threads that wait for one another.
ghost use Rattle.std.specs.Prelude.{◌≡◌, ◌++◌, [], OnOk};
ghost use Rattle.toga_say.specs.Circles.{chain_text, circle_said, circle_text, circles_text, cycle_text, waits_for};
ghost use Rattle.toga_say.specs.Scene.{of_space};

use crate::names::push_thread;
use crate::scene::Scene;
use sa_base::{SpaceNo, ThreadNo};
use sa_circles::circle_of;
use sa_waits::Wait;
use std::alloc::{AllocError, Global};
use toga_source::SpaceNames;

/// Appends each circle among threads that wait, once.
pub(crate) fn push_circles(
    out: &mut Vec<u8>,
    alloc: Global,
    scene: &Scene,
    waits: &[Wait],
) -> Result<(), AllocError>
    ensures { OnOk result (out.new.items ≡ out.old.items ++ circles_text scene.now waits.now) }
{
    for wait in waits {
        push_circle(out, alloc, scene, waits, wait)?;
    }
    Ok(())
}

// Appends the circle of which this thread is the least.
fn push_circle(
    out: &mut Vec<u8>,
    alloc: Global,
    scene: &Scene,
    waits: &[Wait],
    wait: &Wait,
) -> Result<(), AllocError>
    ensures { OnOk result (out.new.items ≡ out.old.items ++ circle_said scene.now waits.now wait.now) }
{
    match circle_of(alloc, waits, wait)? {
        None => Ok(()),
        Some(rest) => push_found(out, scene, wait.space, wait.thread.0, &rest),
    }
}

// Appends a circle, if its space has names.
fn push_found(
    out: &mut Vec<u8>,
    scene: &Scene,
    s: SpaceNo,
    home: u16,
    rest: &[u16],
) -> Result<(), AllocError>
    ensures { OnOk result (out.new.items ≡ out.old.items
        ++ of_space scene.now s (circle_text scene.now s home rest.now)) }
{
    match scene.names.get(usize::from(s.0)) {
        None => Ok(()),
        Some(own) => push_text(out, scene, s, home, rest, own),
    }
}

fn push_text(
    out: &mut Vec<u8>,
    scene: &Scene,
    s: SpaceNo,
    home: u16,
    rest: &[u16],
    own: &SpaceNames,
) -> Result<(), AllocError>
    ensures { OnOk result (out.new.items ≡ out.old.items ++ circle_text scene.now s home rest.now own.now) }
{
    match rest {
        [] => push_itself(out, scene, s, home, own),
        [_, ..] => push_cycle(out, scene, s, home, rest, own),
    }
}

// Appends that a thread waits for itself.
fn push_itself(
    out: &mut Vec<u8>,
    scene: &Scene,
    s: SpaceNo,
    home: u16,
    own: &SpaceNames,
) -> Result<(), AllocError>
    ensures { OnOk result (out.new.items ≡ out.old.items ++ circle_text scene.now s home [] own.now) }
{
    push_thread(out, scene, own, s, ThreadNo(home))?;
    out.extend_from_slice(b" waits for itself.\n")
}

// Appends a circle of several threads.
fn push_cycle(
    out: &mut Vec<u8>,
    scene: &Scene,
    s: SpaceNo,
    home: u16,
    rest: &[u16],
    own: &SpaceNames,
) -> Result<(), AllocError>
    ensures { OnOk result (out.new.items ≡ out.old.items ++ cycle_text scene.now s home rest.now own.now) }
{
    out.extend_from_slice(b"A cycle: ")?;
    push_chain(out, scene, own, s, home, rest)?;
    out.extend_from_slice(b".\n")
}

// Appends that the first thread and each of these waits for the next, and the last for the first.
fn push_chain(
    out: &mut Vec<u8>,
    scene: &Scene,
    own: &SpaceNames,
    s: SpaceNo,
    home: u16,
    rest: &[u16],
) -> Result<(), AllocError>
    ensures { OnOk result (out.new.items ≡ out.old.items ++ chain_text scene.now own.now s home home rest.now) }
{
    let mut t = home;
    for u in rest {
        push_waits_for(out, scene, own, s, t, *u)?;
        out.extend_from_slice(b", ")?;
        t = *u;
    }
    push_waits_for(out, scene, own, s, t, home)
}

#[tactic(auto, unfolding(crate::specs::Circles::waits_for))]
fn push_waits_for(
    out: &mut Vec<u8>,
    scene: &Scene,
    own: &SpaceNames,
    s: SpaceNo,
    t: u16,
    u: u16,
) -> Result<(), AllocError>
    ensures { OnOk result (out.new.items ≡ out.old.items ++ waits_for scene.now own.now s t u) }
{
    push_thread(out, scene, own, s, ThreadNo(t))?;
    out.extend_from_slice(b" waits for ")?;
    push_thread(out, scene, own, s, ThreadNo(u))
}
