// A caller that relies on the kernel's contracts alone: its trace is a history, at each event of which the kernel's laws hold.
ghost use Rattle.std.specs.Prelude.{◌≡◌, ℕ, ◌<◌, ◌≤◌, [], None, IsTrue, IfOk, OnOk};
ghost use Rattle.sa_kernel.specs.Kept.{kernel_of, processors, scene};
ghost use Rattle.sa_kernel_model.specs.State.{line_of};
ghost use Rattle.sa_kernel_model.specs.Entering.{MayEnter};
ghost use Rattle.sa_laws.specs.History.{Test};
ghost use Rattle.tests_machine.specs.Plain.{GoesFrom, IsLawful, IsPlain, IsSameSlice};

use crate::fitting::{Bench, choose};
use sa_base::{Item, MAX_EVENTS, ProcNo, Record, Trace};
use sa_kernel::{Entry, Kernel};
use sa_kernel_laws::quiet_events_go_on;
use sa_spaces::Workload;
use sa_trace::kind_counts;
use sa_workload::read;
use std::alloc::{AllocError, Global};
use std::process::Abort;
use std::test::Fail;

const TURNS: u64 = 4000;

// Two spaces on three processors; the upcall page of one is absent at first.
const TEXT: &str =
    "workload 2\nprocessors 3\nfetch 3\nslice 50\nspaces 2\nspace 0 0 0 0 1\nprogram 1\nend\nspace 0 0 0 0 1\nabsent 0\nprogram 1\nend\nclose\n";

// An event of an entry.
fn enter(
    kernel: &mut Kernel<u64>,
    trace: &mut Trace,
    event: u64,
    p: ProcNo,
    entry: Entry<u64>,
) -> Result<(), AllocError>
    requires within { p.0 < processors kernel.old }
    requires later { kernel.old.last < event }
    requires event { event ≤ MAX_EVENTS }
    requires fit { MayEnter (kernel_of kernel.old) p event entry }
    requires plain { IsPlain entry }
    requires fetched { (kernel_of kernel.old).telling ≡ [] }
    ensures lawful { OnOk result ((slice last : ℕ) → GoesFrom slice last event (scene kernel.old trace.old) (scene kernel.new trace.new)) }
    ensures last { OnOk result (kernel.new.last ≡ event) }
{
    kernel.reserve(1)?;
    trace.reserve(kernel.need())?;
    kernel.evict(event);
    kernel.enter(p, event, entry, trace);
    Ok(())
}

// Whether no slice ends between the events.
fn is_same_slice(slice: u32, last: u64, event: u64) -> bool
    ensures { IsTrue result → IsSameSlice slice last event }
{
    slice == 0 || event / u64::from(slice) == last / u64::from(slice)
}

// An event in which nothing happens but a tick; the kernel hears of it only where a slice ends.
fn tick(
    kernel: &mut Kernel<u64>,
    trace: &mut Trace,
    slice: u32,
    last: u64,
    event: u64,
    p: ProcNo,
) -> Result<(), AllocError>
    requires within { p.0 < processors kernel.old }
    requires later { kernel.old.last < event }
    requires event { event ≤ MAX_EVENTS }
    requires low { line_of (kernel_of kernel.old) p ≡ None }
    requires fetched { (kernel_of kernel.old).telling ≡ [] }
    ensures lawful { OnOk result (GoesFrom slice last event (scene kernel.old trace.old) (scene kernel.new trace.new)) }
    ensures last { OnOk result (kernel.new.last ≤ event) }
{
    trace.reserve(1)?;
    kernel.evict(event);
    trace.say(event, p, Record::Tick);
    if is_same_slice(slice, last, event) {
        quiet_events_go_on::<u64>();
        return Ok(());
    }
    trace.reserve(kernel.need())?;
    kernel.slice_end(p, event, trace);
    Ok(())
}

// One turn: a notice is fetched, or else the kernel is entered where something fits, or a tick comes where nobody owns the
// processor. The last event is answered.
fn turn(
    kernel: &mut Kernel<u64>,
    trace: &mut Trace,
    slice: u32,
    last: u64,
    event: u64,
    p: ProcNo,
) -> Result<u64, AllocError>
    requires later { kernel.old.last < event }
    requires event { event ≤ MAX_EVENTS }
    ensures lawful { IfOk result (λ now. GoesFrom slice last now (scene kernel.old trace.old) (scene kernel.new trace.new)) }
    ensures last { OnOk result (kernel.new.last ≤ event) }
{
    if kernel.next_note().is_some() || p.0 >= kernel.processors() {
        return Ok(last);
    }
    if let Some(entry) = choose(kernel, event, p) {
        enter(kernel, trace, event, p, entry)?;
        return Ok(event);
    }
    if kernel.line(p).is_some() || kernel.owner(p).is_some() {
        return Ok(last);
    }
    tick(kernel, trace, slice, last, event, p)?;
    Ok(event)
}

// The turns of a run, from the opening on. The last event is answered.
fn go(kernel: &mut Kernel<u64>, trace: &mut Trace, slice: u32) -> Result<u64, AllocError>
    requires { kernel.old.last ≡ 0 }
    ensures { IfOk result (λ last. GoesFrom slice 0 last (scene kernel.old trace.old) (scene kernel.new trace.new)) }
{
    let mut last = 0;
    for event in 1..TURNS {
        let p = ProcNo((event % 5) as u16);
        last = turn(kernel, trace, slice, last, event, p)?;
    }
    Ok(last)
}

// A run from the opening.
fn run(alloc: Global, w: &Workload) -> Result<Bench, AllocError>
    ensures { IfOk result (λ b. (test : Test) → (last : ℕ) × IsLawful test w.now last (scene b.kernel b.trace)) }
{
    let mut trace = Trace::new(alloc);
    let mut kernel = Kernel::start(alloc, w, &mut trace)?;
    go(&mut kernel, &mut trace, w.slice())?;
    Ok(Bench { kernel, trace })
}

// There are records of the kinds that a caller of the kernel brings about.
fn has_kinds(rt: &impl Abort, items: &[Item]) {
    let counts = kind_counts(items);
    for kind in &[3, 11, 12, 13, 14, 15, 16, 17, 18, 19, 22] {
        assert!(rt; counts[*kind] > 0);
    }
}

#[test]
fn a_caller_keeps_the_laws(rt: HostRuntime) -> Result<(), Fail> {
    let w = read(rt.alloc(), TEXT.as_bytes())?;
    let bench = run(rt.alloc(), &w)?;
    has_kinds(&rt, bench.trace.items());
    Ok(())
}
