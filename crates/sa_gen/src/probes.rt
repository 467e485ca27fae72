ghost use Rattle.std.specs.Prelude.{◌≡◌, ◌≤◌, ◌++◌, OnOk, IfOk};
ghost use Rattle.sa_gen.specs.Probe.{probe_space, turns_of, probe_turns, probing};

use sa_base::ProcNo;
use sa_instr::{Instr, Program, Reg};
use sa_spaces::{SpaceDef, Workload};
use std::alloc::{AllocError, Global};

/// The greatest number of a probe.
pub const MAX_PROBE: u32 = 40;

/// The workload in which a fork is interrupted after `k` events of its list operation. Fails only where
/// memory runs out.
pub fn probe(alloc: Global, k: u32) -> Result<Workload, AllocError>
    requires { k ≤ MAX_PROBE }
    ensures { IfOk result (λ workload. workload ≡ probing k) }
{
    let spaces = vec![in alloc; space(alloc, k)?]?;
    let turns = turns(alloc, k)?;
    Ok(Workload::new(2, 10, spaces, Vec::new(alloc), turns).unwrap())
}

// Its space.
fn space(alloc: Global, k: u32) -> Result<SpaceDef, AllocError>
    requires { k ≤ MAX_PROBE }
    ensures { IfOk result (λ space. space ≡ probe_space k) }
{
    let forks = vec![in alloc;
        Instr::Fork(Reg::R0, 1),
        Instr::Fork(Reg::R1, 1),
        Instr::End,
    ]?;
    let io = vec![in alloc; Instr::Io(k + 1), Instr::End]?;
    let programs = vec![in alloc; Program::new(forks).unwrap(), Program::new(io).unwrap()]?;
    let none = Vec::new(alloc);
    Ok(SpaceDef::new(0, 0, Vec::new(alloc), 0, none, programs).unwrap())
}

// Its turns.
fn turns(alloc: Global, k: u32) -> Result<Vec<ProcNo>, AllocError>
    requires { k ≤ MAX_PROBE }
    ensures { IfOk result (λ turns. turns.items ≡ probe_turns k) }
{
    let mut turns = Vec::new(alloc);
    add_turns(&mut turns, 0, 9)?;
    add_turns(&mut turns, 1, 5)?;
    add_turns(&mut turns, 0, k)?;
    add_turns(&mut turns, 1, 1)?;
    add_turns(&mut turns, 0, 11)?;
    Ok(turns)
}

// So many more turns of a processor.
fn add_turns(turns: &mut Vec<ProcNo>, proc: u16, count: u32) -> Result<(), AllocError>
    ensures { OnOk result (turns.new.items ≡ turns.old.items ++ turns_of proc count) }
{
    turns.resize(turns.len() + count as usize, ProcNo(proc))
}
