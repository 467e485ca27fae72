ghost use Rattle.std.specs.Prelude.{◌≡◌, map, IfOk};
ghost use Rattle.std.specs.List.{range_with_len};
ghost use Rattle.sa_gen.specs.Generated.{main_program, worker_program, generated_space, generated};

use sa_instr::{Instr, Program, Reg};
use sa_spaces::{SpaceDef, Workload};
use std::alloc::{AllocError, Global};

/// The workload of the number `n`. Fails only where memory runs out.
pub fn workload(alloc: Global, n: u64) -> Result<Workload, AllocError>
    ensures { IfOk result (λ workload. workload ≡ generated n) }
{
    let processors = (1 + n % 16) as u16;
    let spaces = spaces(alloc, n, (1 + n / 16 % 4) as u16)?;
    let none = Vec::new(alloc);
    Ok(Workload::new(processors, 10, spaces, none, Vec::new(alloc)).unwrap())
}

// The spaces of that workload.
fn spaces(alloc: Global, n: u64, count: u16) -> Result<Vec<SpaceDef>, AllocError>
    ensures { IfOk result (λ spaces. spaces.items
        ≡ map (generated_space n) (range_with_len 0 count)) }
{
    let mut spaces = Vec::new(alloc);
    for k in 0..count {
        spaces.push(space(alloc, n, k)?)?;
    }
    Ok(spaces)
}

// Its space `k`.
fn space(alloc: Global, n: u64, k: u16) -> Result<SpaceDef, AllocError>
    ensures { IfOk result (λ space. space ≡ generated_space n k) }
{
    let main = main_program(alloc, 1 + n / 64 % 200)?;
    let worker = worker_program(alloc, 1 + n / 12_800 % 100)?;
    let programs = vec![in alloc; main, worker]?;
    let sems = vec![in alloc; 0]?;
    let priority = (k % 8) as u8;
    Ok(SpaceDef::new(priority, 1, sems, 1, Vec::new(alloc), programs).unwrap())
}

// The program of a space's first thread.
fn main_program(alloc: Global, workers: u64) -> Result<Program, AllocError>
    ensures { IfOk result (λ program. program ≡ main_program workers) }
{
    let instrs = vec![in alloc;
        Instr::Set(Reg::R1, 1),
        Instr::Set(Reg::R0, workers),
        Instr::Fork(Reg::R2, 1),
        Instr::Sub(Reg::R0, Reg::R1),
        Instr::Jnz(Reg::R0, 2),
        Instr::Set(Reg::R0, workers),
        Instr::Wait(0),
        Instr::Sub(Reg::R0, Reg::R1),
        Instr::Jnz(Reg::R0, 6),
        Instr::Load(Reg::R3, 0),
        Instr::Out(Reg::R3),
        Instr::End,
    ]?;
    Ok(Program::new(instrs).unwrap())
}

// The program of the threads that it forks.
fn worker_program(alloc: Global, rounds: u64) -> Result<Program, AllocError>
    ensures { IfOk result (λ program. program ≡ worker_program rounds) }
{
    let instrs = vec![in alloc;
        Instr::Set(Reg::R1, 1),
        Instr::Set(Reg::R0, rounds),
        Instr::Compute,
        Instr::Sub(Reg::R0, Reg::R1),
        Instr::Jnz(Reg::R0, 2),
        Instr::Io(7),
        Instr::Lock(0),
        Instr::Load(Reg::R2, 0),
        Instr::Add(Reg::R2, Reg::R1),
        Instr::Store(Reg::R2, 0),
        Instr::Unlock(0),
        Instr::Signal(0),
        Instr::End,
    ]?;
    Ok(Program::new(instrs).unwrap())
}
