// What instructions do.
ghost use Rattle.std.specs.Prelude.{◌≡◌};
ghost use Rattle.toga_explain.specs.Tables.{operation_text};

use sa_instr::Operation;

/// What the instructions of an operation do.
#[tactic(auto, unfolding(crate::specs::Tables::operation_text))]
pub(crate) fn operation_text(operation: Operation) -> &'static [u8]
    ensures { result.now ≡ operation_text operation }
{
    match operation {
        Operation::Compute => b"`compute` does nothing, for one event. It changes no register.",
        Operation::Set => b"`set rA N` puts the number N into rA.",
        Operation::Add => b"`add rA rB` puts rA + rB into rA, modulo 2^64. It leaves rB.",
        Operation::Sub => b"`sub rA rB` puts rA - rB into rA, modulo 2^64. It leaves rB.",
        Operation::Jnz =>
            b"`jnz rA LABEL` goes on at the label if rA is not 0, else at the next instruction. It changes no register.",
        Operation::Load => b"`load rA CELL` puts the value of the cell into rA.",
        Operation::Store => b"`store rA CELL` puts rA into the cell. It leaves rA.",
        Operation::Out =>
            b"`out rA` puts rA out: it stands in the trace and in the summary. It changes no register.",
        Operation::Fork =>
            b"`fork rA PROGRAM` makes a thread that runs the program, and overwrites rA with its number; if the space has made 512 threads already it makes none, and rA becomes 2^64 - 1.",
        Operation::Join =>
            b"`join rA` waits until thread number rA is done, and overwrites rA: with 1, or with 0 where there is no such thread, and then it does not wait. Keep the number elsewhere to use it again.",
        Operation::Lock =>
            b"`lock MUTEX` takes the mutex, or waits in its queue; also if the thread holds it itself, and then it waits for ever. It changes no register.",
        Operation::Unlock =>
            b"`unlock MUTEX` gives the mutex to the first in its queue, or frees it; it does nothing if the thread does not hold it. It changes no register.",
        Operation::Wait =>
            b"`wait SEMAPHORE` takes one from the count, or waits in its queue if that is 0. It changes no register.",
        Operation::Signal =>
            b"`signal SEMAPHORE` wakes the first in the queue, or adds one to the count if nobody waits. It changes no register.",
        Operation::Io =>
            b"`io N` blocks the thread in the kernel for N events, 1 to 1000000. It changes no register.",
        Operation::Touch =>
            b"`touch K` uses page K, 2 to 15; if it is absent the thread blocks in the kernel until it has come, and then runs the instruction again. It changes no register.",
        Operation::End =>
            b"`end` ends the thread and wakes all that join it; mutexes that it holds stay held.",
    }
}
