// Which program each thread runs, as far as the items of a trace tell.
ghost use Rattle.std.specs.Prelude.{◌≡◌, [], ◌∷◌, IfOk, OnOk};
ghost use Rattle.sa_programs.specs.Programs.{first_programs, program_of, instr_at, instr_in, with_program, programs_by};

use sa_base::{Record, SpaceNo, ThreadNo};
use sa_instr::Instr;
use sa_spaces::Workload;
use std::alloc::{AllocError, Global};
use std::marker::Model;

// The programs of the threads of one space, by their numbers.
#[derive(Drop)]
struct Threads {
    programs: Vec<u16>,
}

impl Model for Threads {
    ghost use Rattle.std.specs.Prelude.{ℕ, List};

    ghost Value = { List ℕ };

    ghost view = { λ x. x.programs.items };
}

/// Of each space the programs of its threads, by their numbers.
#[derive(Drop)]
pub struct Programs {
    spaces: Vec<Threads>,
}

impl Model for Programs {
    ghost use Rattle.std.specs.Prelude.{ℕ, List};

    ghost Value = { List (List ℕ) };

    ghost view = { λ x. x.spaces.items };
}

impl Programs {
    /// Before any item: each space has made thread 0, which runs program 0.
    pub fn new(alloc: Global, spaces: u16) -> Result<Programs, AllocError>
        ensures { IfOk result (λ programs. programs ≡ first_programs spaces) }
    {
        let mut rows = Vec::new(alloc);
        for _ in 0..spaces {
            rows.push(first_thread(alloc)?)?;
        }
        Ok(Programs { spaces: rows })
    }

    /// The instruction that the record runs, if it is known.
    pub fn instr(&self, workload: &Workload, what: &Record) -> Option<Instr>
        ensures { result ≡ instr_in workload.now self.now what.now }
    {
        match *what {
            Record::Ins(s, t, i) => instr_at(workload, s, self.program(s, t)?, i),
            _ => None,
        }
    }

    /// The program of a thread, if it was made.
    pub fn program(&self, s: SpaceNo, t: ThreadNo) -> Option<u16>
        ensures { result ≡ program_of self.now s t }
    {
        let threads = self.spaces.get(usize::from(s.0))?;
        threads.programs.get(usize::from(t.0)).copied()
    }

    /// Goes on after a record that runs this instruction.
    pub fn read(&mut self, what: &Record, instr: Option<Instr>) -> Result<(), AllocError>
        ensures { OnOk result (self.new ≡ programs_by self.old what.now instr) }
    {
        match (*what, instr) {
            (Record::Ins(s, _, _), Some(Instr::Fork(_, program))) => self.add(s, program),
            _ => Ok(()),
        }
    }

    // The space has one more thread, which runs this program.
    fn add(&mut self, s: SpaceNo, program: u16) -> Result<(), AllocError>
        ensures { OnOk result (self.new ≡ with_program self.old s program) }
    {
        if usize::from(s.0) >= self.spaces.len() {
            return Ok(());
        }
        self.spaces[usize::from(s.0)].programs.push(program)?;
        Ok(())
    }
}

fn first_thread(alloc: Global) -> Result<Threads, AllocError>
    ensures { IfOk result (λ threads. threads ≡ 0 ∷ []) }
{
    let mut programs = Vec::new(alloc);
    programs.push(0)?;
    Ok(Threads { programs })
}

// The instruction at a place of a program of the space, if there is one.
fn instr_at(workload: &Workload, s: SpaceNo, program: u16, pc: u16) -> Option<Instr>
    ensures { result ≡ instr_at workload.now s program pc }
{
    let def = workload.spaces().get(usize::from(s.0))?;
    let code = def.programs().get(usize::from(program))?;
    if pc < code.len() {
        Some(code.at(pc))
    } else {
        None
    }
}
