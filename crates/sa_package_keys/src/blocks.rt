// The bytes of threads' blocks.
ghost use Rattle.std.specs.Prelude.{◌≡◌, ◌≤◌, ◌<◌, ◌==◌, ◌&&◌, ◌++◌, length, take, slice_index, OnOk};
ghost use Rattle.std.specs.List.{list_all};
ghost use Rattle.sa_base.specs.declared.limits.TheConstants.{MAX_THREADS};
ghost use Rattle.sa_instr.specs.declared.limits.TheConstants.{REGISTERS};
ghost use Rattle.sa_fast.specs.Rest.{is_unmade};
ghost use Rattle.sa_package_keys.specs.Codes.{number, list, padded, trimmed};
ghost use Rattle.sa_package_keys.specs.Packages.{place_no, block_key, is_new, is_zero};

use crate::put_number;
use sa_base::MAX_THREADS;
use sa_fast::{Block, KeptPlace, Threads};
use sa_instr::{REGISTERS, Reg, Regs};
use std::alloc::AllocError;

/// Adds the bytes of all blocks. This and all below fail only where memory runs out.
pub(crate) fn put_all_blocks(threads: &Threads, key: &mut Vec<u8>) -> Result<(), AllocError>
    requires { length threads.now ≡ MAX_THREADS }
    ensures { OnOk result (key.new.items ≡ key.old.items ++ padded is_new block_key threads.now) }
{
    let blocks = threads.blocks();
    let kept = kept_blocks(blocks);
    put_number(key, u64::from(MAX_THREADS))?;
    put_blocks(&blocks[..kept], key)?;
    Ok(())
}

// How many blocks there are up to the last of a thread that was made.
fn kept_blocks(blocks: &[Block]) -> usize
    ensures within { result ≤ length blocks.now }
    ensures kept { trimmed is_new blocks.now ≡ take result blocks.now }
{
    for i in (0..blocks.len()).rev() {
        if !is_new(&blocks[i]) {
            return i + 1;
        }
    }
    0
}

// Whether a block is that of a thread that was not made.
fn is_new(block: &Block) -> bool
    ensures { result ≡ is_new block.now }
{
    is_unmade(block.place) && block.program == 0 && block.pc == 0 && are_zero(&block.regs)
}

// Whether a thread there was not made.
fn is_unmade(place: KeptPlace) -> bool
    ensures { result ≡ is_unmade place }
{
    matches!(place, KeptPlace::Unmade)
}

// Whether each register is 0.
fn are_zero(regs: &Regs) -> bool
    ensures { result ≡ (length regs.now == REGISTERS && list_all is_zero regs.now) }
{
    regs.ranges();
    *regs == Regs::zero()
}

// Adds the bytes of blocks.
#[tactic(auto, using(std::proofs::Common::append_assoc, crate::proofs::Loops::list_more), unfolding(crate::specs::Codes::list))]
fn put_blocks(blocks: &[Block], key: &mut Vec<u8>) -> Result<(), AllocError>
    ensures { OnOk result (key.new.items ≡ key.old.items ++ list block_key blocks.now) }
{
    put_number(key, blocks.len() as u64)?;
    for block in blocks {
        put_block(block, key)?;
    }
    Ok(())
}

// Adds the bytes of a block.
fn put_block(block: &Block, key: &mut Vec<u8>) -> Result<(), AllocError>
    ensures { OnOk result (key.new.items ≡ key.old.items ++ block_key block.now) }
{
    put_number(key, place_no(block.place))?;
    put_number(key, u64::from(block.program))?;
    put_number(key, u64::from(block.pc))?;
    put_registers(&block.regs, key)
}

// The number of a place.
fn place_no(place: KeptPlace) -> u64
    ensures { result ≡ place_no place }
{
    match place {
        KeptPlace::Unmade => 0,
        KeptPlace::Ready => 1,
        KeptPlace::Running => 2,
        KeptPlace::Waiting => 3,
        KeptPlace::Blocked => 4,
        KeptPlace::Carried => 5,
        KeptPlace::Done => 6,
    }
}

// Adds the bytes of registers.
fn put_registers(regs: &Regs, key: &mut Vec<u8>) -> Result<(), AllocError>
    ensures { OnOk result (key.new.items ≡ key.old.items ++ list number regs.now) }
{
    regs.ranges();
    put_number(key, REGISTERS as u64)?;
    for n in 0..REGISTERS as u8 {
        put_number(key, register(regs, n))?;
    }
    Ok(())
}

// What the register of a number holds.
fn register(regs: &Regs, n: u8) -> u64
    requires { n < REGISTERS }
    ensures { result ≡ slice_index regs.now n }
{
    regs.get(Reg::new(n).unwrap())
}
