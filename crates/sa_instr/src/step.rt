// The instructions that stay within their thread.
ghost use Rattle.std.specs.Prelude.{◌≡◌, ◌≢◌, ◌<◌, length};
ghost use Rattle.sa_instr.specs.Local.{instr_at, local_answer, pc_after, regs_after};

use crate::answer::Local;
use crate::instr::Instr;
use crate::program::Program;
use crate::regs::Regs;

/// Does the instruction at the place `pc` where it is `Compute`, `Set`, `Add`, `Sub` or `Jnz`, and says so
/// by `Went`. At any other instruction it changes nothing. It cannot fail for want of memory.
#[inline(always)]
pub fn local(program: &Program, regs: &mut Regs, pc: &mut u16) -> Local
    requires { pc.old < length program.now }
    ensures answer { result ≡ local_answer (instr_at program.now pc.old) }
    ensures pc { pc.new ≡ pc_after (instr_at program.now pc.old) pc.old regs.old }
    ensures regs { regs.new ≡ regs_after (instr_at program.now pc.old) regs.old }
    ensures within { pc.new < length program.now }
    ensures unchanged { result ≢ Local.Went → (pc.new ≡ pc.old) × (regs.new ≡ regs.old) }
{
    let instr = program.at(*pc);
    match instr {
        Instr::Compute => *pc += 1,
        Instr::Set(reg, n) => {
            regs.set(reg, n);
            *pc += 1;
        }
        Instr::Add(reg, other) => {
            regs.set(reg, regs.get(reg).wrapping_add(regs.get(other)));
            *pc += 1;
        }
        Instr::Sub(reg, other) => {
            regs.set(reg, regs.get(reg).wrapping_sub(regs.get(other)));
            *pc += 1;
        }
        Instr::Jnz(reg, place) => {
            *pc = if regs.get(reg) == 0 { *pc + 1 } else { place };
        }
        Instr::End => return Local::Ended,
        _ => return Local::NotLocal(instr),
    }
    Local::Went
}
