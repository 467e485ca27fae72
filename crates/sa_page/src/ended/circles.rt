// The circles of threads that wait for one another.
ghost use Rattle.std.specs.Prelude.{◌≡◌, ◌++◌, OnOk};
ghost use Rattle.std.specs.List.{flat_map};
ghost use Rattle.sa_page.specs.Ended.{spaced, awaiting, circle_line, circle_start, circle_return, circle_words, circle_if, circle_said};

use crate::ended::waits::push_number;
use sa_base::SpaceNo;
use sa_circles::circle_of;
use sa_text::print_number;
use sa_waits::Wait;
use std::alloc::{AllocError, Global};

/// Appends each circle among threads that wait, once.
pub(crate) fn push_circles(
    out: &mut Vec<u8>,
    alloc: Global,
    waits: &[Wait],
) -> Result<(), AllocError>
    ensures { OnOk result (out.new.items ≡ out.old.items ++ flat_map (circle_said waits.now) waits.now) }
{
    for wait in waits {
        push_circle(out, alloc, waits, wait)?;
    }
    Ok(())
}

// Appends the circle of which this thread is the least.
fn push_circle(
    out: &mut Vec<u8>,
    alloc: Global,
    waits: &[Wait],
    wait: &Wait,
) -> Result<(), AllocError>
    ensures { OnOk result (out.new.items ≡ out.old.items ++ circle_said waits.now wait.now) }
{
    match circle_of(alloc, waits, wait)? {
        None => Ok(()),
        Some(rest) => push_found(out, wait, &rest),
    }
}

fn push_found(out: &mut Vec<u8>, wait: &Wait, rest: &[u16]) -> Result<(), AllocError>
    ensures { OnOk result (out.new.items ≡ out.old.items
        ++ (circle_line wait.now.space wait.now.thread.0 rest.now
        ++ circle_words wait.now.space wait.now.thread.0 rest.now)) }
{
    push_line(out, wait.space, wait.thread.0, rest)?;
    push_words(out, wait.space, wait.thread.0, rest)
}

#[tactic(auto, unfolding(crate::specs::Ended::circle_line))]
fn push_line(out: &mut Vec<u8>, s: SpaceNo, home: u16, rest: &[u16]) -> Result<(), AllocError>
    ensures { OnOk result (out.new.items ≡ out.old.items ++ circle_line s home rest.now) }
{
    out.extend_from_slice(b"cycle ")?;
    print_number(u64::from(s.0), out)?;
    out.extend_from_slice(b" ")?;
    print_number(u64::from(home), out)?;
    push_spaced(out, rest)?;
    out.extend_from_slice(b"\n")
}

// Appends each number after a space.
fn push_spaced(out: &mut Vec<u8>, threads: &[u16]) -> Result<(), AllocError>
    ensures { OnOk result (out.new.items ≡ out.old.items ++ flat_map spaced threads.now) }
{
    for t in threads {
        push_one_spaced(out, *t)?;
    }
    Ok(())
}

fn push_one_spaced(out: &mut Vec<u8>, t: u16) -> Result<(), AllocError>
    ensures { OnOk result (out.new.items ≡ out.old.items ++ spaced t) }
{
    out.extend_from_slice(b" ")?;
    print_number(u64::from(t), out)
}

#[tactic(auto, unfolding(crate::specs::Ended::circle_words))]
fn push_words(out: &mut Vec<u8>, s: SpaceNo, home: u16, rest: &[u16]) -> Result<(), AllocError>
    ensures { OnOk result (out.new.items ≡ out.old.items ++ circle_words s home rest.now) }
{
    push_start(out, s)?;
    print_number(u64::from(home), out)?;
    push_awaiting(out, rest)?;
    push_return(out, home)
}

// Appends how the words of a circle in this space begin.
#[tactic(auto, unfolding(crate::specs::Ended::circle_start))]
fn push_start(out: &mut Vec<u8>, s: SpaceNo) -> Result<(), AllocError>
    ensures { OnOk result (out.new.items ≡ out.old.items ++ circle_start s) }
{
    push_number(out, b"A circle in space ", u64::from(s.0), b": thread ")
}

// Appends that it is waited for in turn.
#[tactic(auto, unfolding(crate::specs::Ended::circle_return))]
fn push_return(out: &mut Vec<u8>, home: u16) -> Result<(), AllocError>
    ensures { OnOk result (out.new.items ≡ out.old.items ++ circle_return home) }
{
    push_number(
        out,
        b" waits for thread ",
        u64::from(home),
        b". None of them can ever go on.\n",
    )
}

// Appends that the thread before waits for each of these in turn.
fn push_awaiting(out: &mut Vec<u8>, threads: &[u16]) -> Result<(), AllocError>
    ensures { OnOk result (out.new.items ≡ out.old.items ++ flat_map awaiting threads.now) }
{
    for t in threads {
        push_one_awaiting(out, *t)?;
    }
    Ok(())
}

#[tactic(auto, unfolding(crate::specs::Ended::awaiting))]
fn push_one_awaiting(out: &mut Vec<u8>, t: u16) -> Result<(), AllocError>
    ensures { OnOk result (out.new.items ≡ out.old.items ++ awaiting t) }
{
    push_number(out, b" waits for thread ", u64::from(t), b", which")
}
