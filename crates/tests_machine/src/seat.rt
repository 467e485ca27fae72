// Runs on host threads, over FastThreads.
use sa_base::{End, ProcNo};
use sa_package::FastThreads;
use sa_seat::Closed;
use sa_workers::{Gate, HoldGate, Limits, run};
use sa_workload::read;
use std::alloc::Global;
use std::sync::Wait;
use std::sync::atomic::{AtomicU64, Ordering};
use std::test::Fail;
use std::thread::Threads;

// A gate that counts its arrivals.
#[derive(Drop)]
struct CountGate {
    arrivals: AtomicU64,
}

impl Gate for CountGate {
    fn arrive(&self, _p: ProcNo) {
        self.arrivals.fetch_add(1, Ordering::SeqCst);
    }
}

// One processor, whose thread computes forty times.
const STRAIGHT: &str = "workload 1\nprocessors 1\nfetch 10\nspaces 1\nspace 0 0 0 0 1\nprogram 41\n\
    compute\ncompute\ncompute\ncompute\ncompute\ncompute\ncompute\ncompute\n\
    compute\ncompute\ncompute\ncompute\ncompute\ncompute\ncompute\ncompute\n\
    compute\ncompute\ncompute\ncompute\ncompute\ncompute\ncompute\ncompute\n\
    compute\ncompute\ncompute\ncompute\ncompute\ncompute\ncompute\ncompute\n\
    compute\ncompute\ncompute\ncompute\ncompute\ncompute\ncompute\ncompute\n\
    end\nclose\n";

// Two processors, and a thread that ends at once.
const BESIDE: &str =
    "workload 1\nprocessors 2\nfetch 10\nspaces 1\nspace 0 0 0 0 1\nprogram 1\nend\nclose\n";

// A run of the workload of this text.
fn run_text<G: Gate, R: Threads + Wait + Sync>(
    rt: &R,
    alloc: Global,
    text: &str,
    gate: &G,
) -> Result<Closed, Fail> {
    let workload = read(alloc, text.as_bytes())?;
    let limits = Limits {
        budget: 100_000,
        burst: 16,
    };
    Ok(run::<FastThreads, R, G>(rt, alloc, workload, limits, gate)?)
}

#[test]
fn bursts_make_fewer_entries(rt: HostRuntime) -> Result<(), Fail> {
    let gate = CountGate {
        arrivals: AtomicU64::new(0),
    };
    let closed = run_text(&rt, rt.alloc(), STRAIGHT, &gate)?;
    let arrivals = gate.arrivals.load(Ordering::SeqCst);
    assert!(rt; closed.end() == Some(End::AllDone) && closed.turns()[0] == 45 && arrivals == 9);
    Ok(())
}

#[test]
fn workers_run_beside_each_other(rt: HostRuntime) -> Result<(), Fail> {
    let gate = HoldGate::new(ProcNo(0), ProcNo(1), 2_000_000_000);
    let closed = run_text(&rt, rt.alloc(), BESIDE, &gate)?;
    assert!(rt; closed.end() == Some(End::AllDone) && gate.met() == Some(true));
    Ok(())
}
