// The blocks of a space's threads.
ghost use Rattle.std.specs.Prelude.{◌≡◌, ◌<◌, ◌≤◌, ◌+◌, ℕ, count_by, cond, IfOk, length, replicate, take};
ghost use Rattle.sa_instr.specs.Local.{pc_after, regs_after};
ghost use Rattle.sa_instr.specs.Regs.{reg_value, with_reg};
ghost use Rattle.sa_fast.specs.Threads.{unmade, block_at, with_block, gone_to, moved_to, is_loaded, is_active, is_done};

use sa_base::{MAX_THREADS, ThreadNo};
use sa_instr::{Instr, MAX_INSTRUCTIONS, Reg, Regs};
use std::alloc::{AllocError, Global};
use std::marker::Model;

/// Where a thread is.
#[derive(Clone, Copy)]
pub enum KeptPlace {
    /// It was not made.
    Unmade,
    /// In a ready list.
    Ready,
    /// Carried by the context of an activation that runs, or was stopped, of which the space was not told.
    Running,
    /// Waiting for a mutex, a semaphore or another thread; or it was forked or woken, and is still to be made ready.
    Waiting,
    /// Blocked in the kernel; or unblocked, of which the space was not told.
    Blocked,
    /// Stopped or unblocked, and still to be made ready or to be continued.
    Carried,
    /// At its end.
    Done,
}

impl KeptPlace {
    // Whether a thread there is of its space's load.
    fn is_loaded(self) -> bool
        ensures { result ≡ is_loaded self }
    {
        matches!(self, KeptPlace::Ready | KeptPlace::Running)
    }

    // Whether a thread there is active.
    fn is_active(self) -> bool
        ensures { result ≡ is_active self }
    {
        matches!(
            self,
            KeptPlace::Ready | KeptPlace::Running | KeptPlace::Carried
        )
    }

    // Whether a thread there is at its end.
    fn is_done(self) -> bool
        ensures { result ≡ is_done self }
    {
        matches!(self, KeptPlace::Done)
    }
}

/// What a space keeps of one thread.
#[derive(Clone, Copy)]
pub struct Block {
    /// The number of its program in the space.
    pub program: u16,
    /// The place of its next instruction.
    pub pc: u16,
    pub regs: Regs,
    pub place: KeptPlace,
}

/// The blocks of the 512 threads that a space can have, by their numbers.
///
/// Each call but `new` takes constant time and cannot fail for want of memory.
#[derive(Drop)]
pub struct Threads {
    blocks: Vec<Block>,
    // how many are of the load, active, and done
    load: u16,
    active: u16,
    done: u16,
    // the blocks from here on are of threads that were not made
    used: u16,
}

impl Model for Threads {
    ghost use Rattle.std.specs.Prelude.{List};
    ghost use Rattle.sa_fast.specs.declared.threads.Block.{Block};
    ghost use Rattle.sa_fast.specs.Threads.{IsCounted};

    ghost Value = { List Block };

    ghost view = { λ t. t.blocks.items };

    ghost invariant = { λ t. IsCounted t.blocks.items t.load t.active t.done t.used };
}

impl Threads {
    /// No thread was made. Fails only where memory runs out.
    pub fn new(alloc: Global) -> Result<Threads, AllocError>
        ensures { IfOk result (λ threads. threads ≡ replicate MAX_THREADS unmade) }
    {
        let block = Block {
            program: 0,
            pc: 0,
            regs: Regs::zero(),
            place: KeptPlace::Unmade,
        };
        Ok(Threads {
            blocks: vec![in alloc; block; MAX_THREADS as usize]?,
            load: 0,
            active: 0,
            done: 0,
            used: 0,
        })
    }

    /// The block of a thread.
    pub fn block(&self, t: ThreadNo) -> Block
        requires { t.0 < MAX_THREADS }
        ensures { result ≡ block_at self.now t.0 }
    {
        self.blocks[t.0 as usize]
    }

    /// The block of a thread, where it is.
    pub(crate) fn at(&self, t: ThreadNo) -> &Block
        requires { t.0 < MAX_THREADS }
        ensures { result.now ≡ block_at self.now t.0 }
    {
        &self.blocks[t.0 as usize]
    }

    /// What is in a register of a thread.
    pub(crate) fn value(&self, t: ThreadNo, reg: Reg) -> u64
        requires { t.0 < MAX_THREADS }
        ensures { result ≡ reg_value (block_at self.now t.0).regs reg }
    {
        self.blocks[t.0 as usize].regs.get(reg)
    }

    /// Replaces the block of a thread.
    pub fn set(&mut self, t: ThreadNo, block: Block)
        requires { t.0 < MAX_THREADS }
        ensures { self.new ≡ with_block self.old t.0 block }
    {
        let old = self.blocks[t.0 as usize].place;
        self.load = moved(self.load, old.is_loaded(), block.place.is_loaded());
        self.active = moved(self.active, old.is_active(), block.place.is_active());
        self.done = moved(self.done, old.is_done(), block.place.is_done());
        self.used = self.used.max(t.0 + 1);
        self.blocks[t.0 as usize] = block;
    }

    /// A thread is at another place.
    pub fn set_place(&mut self, t: ThreadNo, place: KeptPlace)
        requires { t.0 < MAX_THREADS }
        ensures { self.new ≡ with_block self.old t.0 (moved_to (block_at self.old t.0) place) }
    {
        let old = self.blocks[t.0 as usize].place;
        self.load = moved(self.load, old.is_loaded(), place.is_loaded());
        self.active = moved(self.active, old.is_active(), place.is_active());
        self.done = moved(self.done, old.is_done(), place.is_done());
        self.used = self.used.max(t.0 + 1);
        self.blocks[t.0 as usize].place = place;
    }

    /// A thread does this instruction where it is local.
    pub(crate) fn go(&mut self, t: ThreadNo, instr: Instr)
        requires thread { t.0 < MAX_THREADS }
        requires next { (block_at self.old t.0).pc + 1 < MAX_INSTRUCTIONS }
        ensures { let b = block_at self.old t.0 in
            self.new ≡ with_block self.old t.0 (gone_to b (pc_after instr b.pc b.regs) (regs_after instr b.regs)) }
    {
        self.used = self.used.max(t.0 + 1);
        go_by(&mut self.blocks[t.0 as usize], instr);
    }

    /// A thread goes on at the next place.
    pub(crate) fn advance(&mut self, t: ThreadNo)
        requires thread { t.0 < MAX_THREADS }
        requires next { (block_at self.old t.0).pc + 1 < MAX_INSTRUCTIONS }
        ensures { let b = block_at self.old t.0 in
            self.new ≡ with_block self.old t.0 (gone_to b (b.pc + 1) b.regs) }
    {
        self.used = self.used.max(t.0 + 1);
        self.blocks[t.0 as usize].pc += 1;
    }

    /// A thread goes on at the next place, with a value in a register.
    pub(crate) fn take_value(&mut self, t: ThreadNo, reg: Reg, value: u64)
        requires thread { t.0 < MAX_THREADS }
        requires next { (block_at self.old t.0).pc + 1 < MAX_INSTRUCTIONS }
        ensures { let b = block_at self.old t.0 in
            self.new ≡ with_block self.old t.0 (gone_to b (b.pc + 1) (with_reg b.regs reg value)) }
    {
        self.used = self.used.max(t.0 + 1);
        go_with(&mut self.blocks[t.0 as usize], reg, value);
    }

    /// The blocks of the first threads; no thread after them was made.
    pub fn blocks(&self) -> &[Block]
        ensures first { result.now ≡ take (length result.now) self.now }
        ensures rest { (t : ℕ) → length result.now ≤ t → block_at self.now t ≡ unmade }
    {
        &self.blocks[..self.used as usize]
    }

    /// How many threads are ready or run.
    pub fn load(&self) -> u16
        ensures { result ≡ count_by (λ b. is_loaded b.place) self.now }
    {
        self.load
    }

    /// How many threads are ready, run, or were stopped or unblocked and are not yet ready again.
    pub fn active(&self) -> u16
        ensures { result ≡ count_by (λ b. is_active b.place) self.now }
    {
        self.active
    }

    /// How many threads are done.
    pub fn done(&self) -> u16
        ensures { result ≡ count_by (λ b. is_done b.place) self.now }
    {
        self.done
    }
}

// What an instruction makes of a thread's block where it is local; any other leaves it.
fn go_by(block: &mut Block, instr: Instr)
    requires { block.old.pc + 1 < MAX_INSTRUCTIONS }
    ensures { let b = block.old in
        block.new ≡ gone_to b (pc_after instr b.pc b.regs) (regs_after instr b.regs) }
{
    match instr {
        Instr::Compute => block.pc += 1,
        Instr::Set(reg, n) => go_with(block, reg, n),
        Instr::Add(reg, other) => {
            let sum = block.regs.get(reg).wrapping_add(block.regs.get(other));
            go_with(block, reg, sum);
        }
        Instr::Sub(reg, other) => {
            let difference = block.regs.get(reg).wrapping_sub(block.regs.get(other));
            go_with(block, reg, difference);
        }
        Instr::Jnz(reg, place) => {
            block.pc = if block.regs.get(reg) == 0 {
                block.pc + 1
            } else {
                place
            };
        }
        _ => {}
    }
}

// The thread goes on at the next place, with a value in a register.
fn go_with(block: &mut Block, reg: Reg, value: u64)
    requires { block.old.pc + 1 < MAX_INSTRUCTIONS }
    ensures { let b = block.old in
        block.new ≡ gone_to b (b.pc + 1) (with_reg b.regs reg value) }
{
    block.regs.set(reg, value);
    block.pc += 1;
}

// A count of things of which one changed: whether it counted, and whether it counts now.
fn moved(count: u16, counted: bool, counts: bool) -> u16
    requires some { cond counted 1 0 ≤ count }
    requires few { count ≤ MAX_THREADS }
    ensures { result + cond counted 1 0 ≡ count + cond counts 1 0 }
{
    match (counted, counts) {
        (true, false) => count - 1,
        (false, true) => count + 1,
        _ => count,
    }
}
