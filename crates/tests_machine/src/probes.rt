// The workload of a probe, which no command makes.
use sa_gen::probe;
use std::test::Fail;

#[test]
fn a_probe_is_made(rt: HostRuntime) -> Result<(), Fail> {
    let workload = probe(rt.alloc(), 2)?;
    assert!(rt;
        workload.processors() == 2 && workload.spaces().len() == 1 && workload.turns().len() == 28
    );
    Ok(())
}
