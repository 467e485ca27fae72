// A kernel whose contexts are numbers, with its trace, and an entry that fits it.
ghost use Rattle.std.specs.Prelude.{◌<◌, IsTrue, IfSome};
ghost use Rattle.sa_kernel.specs.Kept.{kernel_of, processors};
ghost use Rattle.sa_kernel_model.specs.Entering.{MayEnter, MayInterruptOwn};
ghost use Rattle.tests_machine.specs.Asks.{AsksFor};
ghost use Rattle.tests_machine.specs.Plain.{IsAtWork, IsPlain};

use sa_base::{ProcNo, Stopped, ThreadNo, Trace};
use sa_kernel::{Entry, Kernel};

// Whether a context asks on the processor: it is owned, and its line is low.
fn asks(kernel: &Kernel<u64>, p: ProcNo) -> bool
    requires { p.0 < processors kernel.now }
    ensures { IsTrue result → AsksFor (kernel_of kernel.now) p }
{
    kernel.owner(p).is_some() && kernel.line(p).is_none()
}

// Whether the line of another processor of the space that asks is low.
fn can_interrupt(kernel: &Kernel<u64>, p: ProcNo, q: ProcNo) -> bool
    requires within { p.0 < processors kernel.now }
    requires asks { AsksFor (kernel_of kernel.now) p }
    ensures { IsTrue result → MayInterruptOwn (kernel_of kernel.now) p q }
{
    q.0 != p.0 && q.0 < kernel.processors() && asks(kernel, q) && kernel.owner(q) == kernel.owner(p)
}

// The context of a thread at work.
fn at_work() -> Stopped<u64>
    ensures { IsAtWork result }
{
    Stopped {
        ctx: 0,
        thread: Some(ThreadNo(0)),
        idle: false,
    }
}

// What the context on the processor asks for, by the event's number, if it may.
fn asked(kernel: &Kernel<u64>, event: u64, p: ProcNo) -> Option<Entry<u64>>
    requires within { p.0 < processors kernel.now }
    requires asks { AsksFor (kernel_of kernel.now) p }
    ensures fits { IfSome result (MayEnter (kernel_of kernel.now) p event) }
    ensures plain { IfSome result IsPlain }
{
    let seen = kernel.seen(p, event);
    let other = ProcNo((event % 3) as u16);
    match event % 7 {
        0..=2 if seen.demand < kernel.processors() => Some(Entry::More(1)),
        3 if seen.demand >= 1 => Some(Entry::Idle),
        4 if seen.taken >= 1 => Some(Entry::GiveBack),
        5 | 6 if can_interrupt(kernel, p, other) => Some(Entry::InterruptOwn(other)),
        _ => None,
    }
}

/// What enters the kernel on the processor: an interrupt or a completion where it is due, else what a context asks for.
pub(crate) fn choose(kernel: &Kernel<u64>, event: u64, p: ProcNo) -> Option<Entry<u64>>
    requires { p.0 < processors kernel.now }
    ensures fits { IfSome result (MayEnter (kernel_of kernel.now) p event) }
    ensures plain { IfSome result IsPlain }
{
    if kernel.line(p).is_some() {
        return match kernel.owner(p) {
            None => Some(Entry::Interrupt(None)),
            Some(_) => Some(Entry::Interrupt(Some(at_work()))),
        };
    }
    match kernel.due(event) {
        Some(io) => Some(Entry::Complete(io)),
        None if asks(kernel, p) => asked(kernel, event, p),
        None => None,
    }
}

/// A kernel and what it recorded.
#[derive(Drop)]
pub(crate) struct Bench {
    pub(crate) kernel: Kernel<u64>,
    pub(crate) trace: Trace,
}
