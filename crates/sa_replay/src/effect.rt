// What one instruction of a thread does to its space.
ghost use Rattle.std.specs.Prelude.{◌≡◌, ◌≢◌, ◌+◌, ◌^◌, ◌<◌, [], length, slice_set, vec_capacity};
ghost use Rattle.sa_instr.specs.Instr.{NamesDeclared};
ghost use Rattle.sa_instr.specs.Local.{pc_after, regs_after};
ghost use Rattle.sa_sync.specs.Sync.{WaitsNowhere, joiners_at, with_joiners};
ghost use Rattle.sa_laws.specs.Effect.{effect, effect_of, answered, fork_effect, join_effect, end_effect};
ghost use Rattle.sa_replay.specs.Running.{instr_in, IsAt};
ghost use Rattle.sa_replay.specs.Space.{space, named, CanDo, HasRoom};

use crate::table::Threads;
use crate::thread::ThreadState;
use sa_base::{MAX_THREADS, ThreadNo};
use sa_instr::{Instr, Reg};
use sa_laws::Place;
use sa_spaces::SpaceDef;
use sa_sync::{SyncAnswer, SyncState};

// What a fork gives where as many threads were made as a space can have.
const NOT_MADE: u64 = u64::MAX;

/// A thread's next instruction.
pub(crate) fn instr_at(def: &SpaceDef, thread: &ThreadState) -> Instr
    requires { IsAt def.now thread.now }
    ensures instr { result ≡ instr_in def.now thread.now }
    ensures next { result ≢ Instr.End → thread.now.pc + 1 < 2 ^ 16 }
    ensures named { NamesDeclared def.now.mutexes (length def.now.sems) def.now.cells
        (length def.now.programs) result }
{
    def.ranges();
    def.programs()[usize::from(thread.program())].at(thread.pc())
}

/// The effect of the next instruction of thread `t`. The threads that it forks or wakes are put, in order, into
/// the list, which is empty.
pub(crate) fn does(
    def: &SpaceDef,
    table: &mut Threads,
    sync: &mut SyncState,
    roused: &mut Vec<ThreadNo>,
    t: ThreadNo,
    thread: &ThreadState,
    instr: Instr,
)
    requires can { CanDo def.now (space table.old sync.old) t thread.now instr }
    requires room { HasRoom roused.old }
    ensures effect { effect (space table.new sync.new) roused.new.items
        ≡ effect_of (space table.old sync.old) t thread.now instr }
    ensures room { vec_capacity roused.new ≡ vec_capacity roused.old }
{
    match instr {
        Instr::Compute | Instr::Set(..) | Instr::Add(..) | Instr::Sub(..) | Instr::Jnz(..) => {
            go(def, table, t, thread)
        }
        Instr::Load(reg, cell) => table.set(t, &thread.next_with(reg, sync.load(cell))),
        Instr::Store(reg, cell) => {
            sync.store(cell, thread.regs().get(reg));
            table.set(t, &thread.next());
        }
        Instr::Out(_) | Instr::Io(_) | Instr::Touch(_) => table.set(t, &thread.next()),
        Instr::Fork(reg, program) => fork(table, roused, t, thread, reg, program),
        Instr::Join(reg) => join(table, sync, roused, t, thread, reg),
        Instr::Lock(mutex) => {
            let answer = sync.lock(t, mutex);
            tell(table, roused, t, &thread.next(), answer);
        }
        Instr::Unlock(mutex) => {
            let answer = sync.unlock(t, mutex);
            tell(table, roused, t, &thread.next(), answer);
        }
        Instr::Wait(semaphore) => {
            let answer = sync.wait(t, semaphore);
            tell(table, roused, t, &thread.next(), answer);
        }
        Instr::Signal(semaphore) => {
            let answer = sync.signal(semaphore);
            tell(table, roused, t, &thread.next(), answer);
        }
        Instr::End => end(table, sync, roused, t, thread),
    }
}

// The thread does an instruction that stays within it.
fn go(def: &SpaceDef, table: &mut Threads, t: ThreadNo, thread: &ThreadState)
    requires made { t.0 < length table.old }
    requires at { IsAt def.now thread.now }
    ensures { let instr = instr_in def.now thread.now in table.new ≡ slice_set table.old t.0 (record thread.now {
      pc = pc_after instr thread.now.pc thread.now.regs;
      regs = regs_after instr thread.now.regs;
    }) }
{
    let program = &def.programs()[usize::from(thread.program())];
    let mut after = *thread;
    after.run_local(program);
    table.set(t, &after);
}

// What an answer does to the calling thread, which goes on to the place after its instruction.
fn tell(
    table: &mut Threads,
    roused: &mut Vec<ThreadNo>,
    t: ThreadNo,
    thread: &ThreadState,
    answer: SyncAnswer,
)
    requires made { t.0 < length table.old }
    requires room { HasRoom roused.old }
    ensures effect { (sync : _) → effect (space table.new sync) roused.new.items
        ≡ answered (space table.old sync) t thread.now answer }
    ensures room { vec_capacity roused.new ≡ vec_capacity roused.old }
{
    match answer {
        SyncAnswer::Goes => table.set(t, thread),
        SyncAnswer::Waits => table.set(t, &thread.moved(Place::Waiting)),
        SyncAnswer::Wakes(woken) => {
            table.set(t, thread);
            roused.push_reserved(woken);
        }
    }
}

// A fork.
fn fork(
    table: &mut Threads,
    roused: &mut Vec<ThreadNo>,
    t: ThreadNo,
    thread: &ThreadState,
    reg: Reg,
    program: u16,
)
    requires made { t.0 < length table.old }
    requires next { thread.now.pc + 1 < 2 ^ 16 }
    requires room { HasRoom roused.old }
    ensures effect { (sync : _) → effect (space table.new sync) roused.new.items
        ≡ fork_effect (space table.old sync) t thread.now reg program }
    ensures room { vec_capacity roused.new ≡ vec_capacity roused.old }
{
    let made = table.len();
    if made < MAX_THREADS {
        table.set(t, &thread.next_with(reg, u64::from(made)));
        table.push(ThreadState::at_start(program, Place::Waiting));
        roused.push_reserved(ThreadNo(made));
    } else {
        table.set(t, &thread.next_with(reg, NOT_MADE));
    }
}

// A join.
fn join(
    table: &mut Threads,
    sync: &mut SyncState,
    roused: &mut Vec<ThreadNo>,
    t: ThreadNo,
    thread: &ThreadState,
    reg: Reg,
)
    requires made { t.0 < length table.old }
    requires next { thread.now.pc + 1 < 2 ^ 16 }
    requires nowhere { WaitsNowhere sync.old t.0 }
    requires room { HasRoom roused.old }
    ensures effect { effect (space table.new sync.new) roused.new.items
        ≡ join_effect (space table.old sync.old) t thread.now reg }
    ensures room { vec_capacity roused.new ≡ vec_capacity roused.old }
{
    let made = table.len();
    let other = thread.regs().get(reg);
    let known = if other < u64::from(made) { 1 } else { 0 };
    let answer = sync.join(t, other, made);
    tell(table, roused, t, &thread.next_with(reg, known), answer);
}

// The end of a thread.
fn end(
    table: &mut Threads,
    sync: &mut SyncState,
    roused: &mut Vec<ThreadNo>,
    t: ThreadNo,
    thread: &ThreadState,
)
    requires made { t.0 < length table.old }
    requires joiners { length sync.old.joiners ≡ MAX_THREADS }
    requires room { HasRoom roused.old }
    ensures effect { effect (space table.new sync.new) roused.new.items
        ≡ end_effect (space table.old sync.old) t thread.now }
    ensures room { vec_capacity roused.new ≡ vec_capacity roused.old }
{
    let _made = table.len();
    table.set(t, &thread.moved(Place::Done));
    sync.finish(t);
    wake_joiners(sync, roused, t);
}

// Takes the threads that join a thread, in the order in which they came.
fn wake_joiners(sync: &mut SyncState, roused: &mut Vec<ThreadNo>, t: ThreadNo)
    requires thread { t.0 < MAX_THREADS }
    requires joiners { length sync.old.joiners ≡ MAX_THREADS }
    requires room { HasRoom roused.old }
    ensures sync { sync.new ≡ with_joiners sync.old t.0 [] }
    ensures roused { roused.new.items ≡ named (joiners_at sync.old t.0) }
    ensures room { vec_capacity roused.new ≡ vec_capacity roused.old }
{
    sync.waits_once();
    while let Some(u) = sync.next_joiner(t) {
        roused.push_reserved(u);
    }
}
