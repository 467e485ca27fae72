// Who waits for whom, and in which circles.
ghost use Rattle.std.specs.Prelude.{◌≡◌, find, length, IfOk};
ghost use Rattle.std.specs.Option.{option_map};
ghost use Rattle.sa_circles.specs.Circles.{awaited_thread, is_of, wait_of, awaited_of, next_of, rest_from, circle_of};

use sa_base::SpaceNo;
use sa_waits::{Awaited, Wait};
use std::alloc::{AllocError, Global};

/// The others of the circle of which this thread is the least, in their order: each waits for the next, the thread for the first,
/// and the last for the thread. `None` if it is in no circle, or not the least there. Fails only if memory runs out.
pub fn circle_of(alloc: Global, waits: &[Wait], wait: &Wait) -> Result<Option<Vec<u16>>, AllocError>
    ensures { IfOk result (λ found. option_map (λ rest. rest.items) found ≡ circle_of waits.now wait.now) }
{
    rest_of(alloc, waits, wait.space, wait.thread.0)
}

// The others of the circle of which the thread of this number is the least, in their order.
fn rest_of(
    alloc: Global,
    waits: &[Wait],
    s: SpaceNo,
    home: u16,
) -> Result<Option<Vec<u16>>, AllocError>
    ensures { IfOk result (λ found. option_map (λ rest. rest.items) found
        ≡ rest_from (next_of waits.now s) home home (length waits.now)) }
{
    let mut rest = Vec::new(alloc);
    let mut t = home;
    for _step in 0..waits.len() {
        let Some(u) = next_of(waits, s, t) else {
            return Ok(None);
        };
        if u == home {
            return Ok(Some(rest));
        }
        if u < home {
            return Ok(None);
        }
        rest.push(u)?;
        t = u;
    }
    Ok(None)
}

// The thread that this one waits for.
fn next_of(waits: &[Wait], s: SpaceNo, t: u16) -> Option<u16>
    ensures { result ≡ next_of waits.now s t }
{
    awaited_of(wait_of(waits, s, t))
}

/// What the thread of this number waits for; `None` if it does not wait.
pub fn wait_of(waits: &[Wait], s: SpaceNo, t: u16) -> Option<Wait>
    ensures { result ≡ wait_of waits.now s t }
{
    waits.iter().copied().find(|wait| is_of(s, t, wait))
}

fn is_of(s: SpaceNo, t: u16, wait: &Wait) -> bool
    ensures { result ≡ is_of s t wait.now }
{
    wait.space.0 == s.0 && wait.thread.0 == t
}

fn awaited_of(wait: Option<Wait>) -> Option<u16>
    ensures { result ≡ awaited_of wait }
{
    match wait {
        None => None,
        Some(wait) => awaited_thread(wait.awaits),
    }
}

fn awaited_thread(awaits: Awaited) -> Option<u16>
    ensures { result ≡ awaited_thread awaits }
{
    match awaits {
        Awaited::Mutex(_, t) | Awaited::Thread(t) => Some(t.0),
        Awaited::Semaphore(_) => None,
    }
}
