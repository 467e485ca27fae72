// The effect of one instruction of a thread.
ghost use Rattle.std.specs.Prelude.{◌≡◌, ◌≢◌, ◌+◌, ◌<◌, ◌≤◌, ℕ, ◌++◌, [], length, Some, None};
ghost use Rattle.sa_base.specs.Items.{items_at};
ghost use Rattle.sa_instr.specs.Instr.{IsInRange, NamesDeclared};
ghost use Rattle.sa_lists.specs.ReadyView.{next_made};
ghost use Rattle.sa_sync.specs.Sync.{WaitsNowhere, Waits, with_joiners, joiners_at};
ghost use Rattle.sa_code.specs.Micro.{is_resident};
ghost use Rattle.sa_fast.specs.Threads.{block_at, moved_to};
ghost use Rattle.sa_fast.specs.Work.{with_name, added_all, IsUnlisted, IsWork};
ghost use Rattle.sa_fast.specs.Instruction.{outcome, outcome_of, told_by, forked, joins, blocks, touched, ended, next_of, value_in, says_of, instr_of, run, run_says, IsAt, CanRun};

use crate::shared::Shared;
use crate::threads::{Block, KeptPlace, Threads};
use crate::work::WorkLists;
use sa_base::{MAX_THREADS, PAGES, Record, Seen, SpaceNo, ThreadNo, Trace, has_page};
use sa_code::add_record;
use sa_instr::{Instr, MAX_INSTRUCTIONS, MAX_PROGRAMS, Reg, Regs};
use sa_spaces::SpaceDef;
use sa_sync::{SyncAnswer, SyncState};

/// What became of a thread with its instruction.
#[derive(Clone, Copy)]
pub enum Ran {
    /// It goes on.
    Goes,
    /// It waits, or is done.
    Leaves,
    /// It blocks for this many events, 1 to 1,000,000: for an I/O, or until this page, 2 to 15, is resident.
    Blocks { length: u32, page: Option<u16> },
}

/// What a fork gives where as many threads were made as a space can have.
pub const NOT_MADE: u64 = u64::MAX;

/// Runs the next instruction of thread `t`, whose context has the work list `work`, and adds its records, at most two,
/// for which the trace has room. The fetch of a page takes `fetch` events. It cannot fail for want of memory.
pub fn run(
    def: &SpaceDef,
    fetch: u32,
    shared: &mut Shared,
    work: &mut Option<ThreadNo>,
    t: ThreadNo,
    seen: &Seen,
    trace: &mut Trace,
) -> Ran
    requires can { CanRun def.now shared.old work.old t }
    requires room { 2 ≤ trace.old.spare }
    ensures shared { shared.new ≡ (run def.now fetch seen.now.pages shared.old work.old t).shared }
    ensures work { work.new ≡ (run def.now fetch seen.now.pages shared.old work.old t).work }
    ensures answer { result ≡ (run def.now fetch seen.now.pages shared.old work.old t).answer }
    ensures items { let says = run_says def.now seen.now.pages shared.old t in
        trace.new.items ≡ trace.old.items ++ items_at seen.now.event seen.now.proc says }
    ensures spare { let says = run_says def.now seen.now.pages shared.old t in
        trace.new.spare + length says ≡ trace.old.spare }
{
    let instr = instr_at(def, &shared.threads, t);
    tell_records(shared.state.space, t, &shared.threads, instr, seen, trace);
    does(def, fetch, shared, work, t, instr, seen)
}

// The instruction at which a thread stands, and what its space keeps to there.
fn instr_at(def: &SpaceDef, threads: &Threads, t: ThreadNo) -> Instr
    requires thread { t.0 < MAX_THREADS }
    requires at { IsAt def.now (block_at threads.now t.0) }
    ensures instr { result ≡ instr_of def.now (block_at threads.now t.0) }
    ensures next { result ≢ Instr.End → (block_at threads.now t.0).pc + 1 < MAX_INSTRUCTIONS }
    ensures range { IsInRange result }
    ensures named { NamesDeclared def.now.mutexes (length def.now.sems) def.now.cells
        (length def.now.programs) result }
    ensures few { length def.now.programs ≤ MAX_PROGRAMS }
{
    def.ranges();
    let block = threads.at(t);
    def.programs()[usize::from(block.program)].at(block.pc)
}

// Adds the records of an instruction.
fn tell_records(
    space: SpaceNo,
    t: ThreadNo,
    threads: &Threads,
    instr: Instr,
    seen: &Seen,
    trace: &mut Trace,
)
    requires thread { t.0 < MAX_THREADS }
    requires room { 2 ≤ trace.old.spare }
    requires range { IsInRange instr }
    ensures items { let says = says_of space t (block_at threads.now t.0) seen.now.pages instr in
        trace.new.items ≡ trace.old.items ++ items_at seen.now.event seen.now.proc says }
    ensures spare { let says = says_of space t (block_at threads.now t.0) seen.now.pages instr in
        trace.new.spare + length says ≡ trace.old.spare }
{
    let block = threads.at(t);
    let ran = Record::Ins(space, t, block.pc);
    match instr {
        Instr::Out(reg) => {
            add_record(trace, seen, ran);
            add_record(trace, seen, Record::Out(space, t, block.regs.get(reg)));
        }
        Instr::Touch(page) => {
            if has_page(seen.pages, page) {
                add_record(trace, seen, ran);
            }
        }
        _ => add_record(trace, seen, ran),
    }
}

// The effect of an instruction at which the thread stands. Its space is there for what the clauses say of it alone.
fn does(
    _def: &SpaceDef,
    fetch: u32,
    shared: &mut Shared,
    work: &mut Option<ThreadNo>,
    t: ThreadNo,
    instr: Instr,
    seen: &Seen,
) -> Ran
    requires can { CanRun _def.now shared.old work.old t }
    requires instr { instr ≡ instr_of _def.now (block_at shared.old.threads t.0) }
    requires next { instr ≢ Instr.End → (block_at shared.old.threads t.0).pc + 1 < MAX_INSTRUCTIONS }
    requires range { IsInRange instr }
    requires named { NamesDeclared _def.now.mutexes (length _def.now.sems) _def.now.cells
        (length _def.now.programs) instr }
    requires few { length _def.now.programs ≤ MAX_PROGRAMS }
    ensures { record { shared = shared.new; work = work.new; answer = result }
        ≡ outcome_of fetch seen.now.pages shared.old work.old t (block_at shared.old.threads t.0) instr }
{
    shared.sync.waits_once();
    match instr {
        Instr::Compute | Instr::Set(..) | Instr::Add(..) | Instr::Sub(..) | Instr::Jnz(..) => {
            shared.threads.go(t, instr);
            Ran::Goes
        }
        Instr::Load(reg, cell) => {
            let value = shared.sync.load(cell);
            shared.threads.take_value(t, reg, value);
            Ran::Goes
        }
        Instr::Store(reg, cell) => {
            let value = shared.threads.value(t, reg);
            shared.sync.store(cell, value);
            shared.threads.advance(t);
            Ran::Goes
        }
        Instr::Out(_) => {
            shared.threads.advance(t);
            Ran::Goes
        }
        Instr::Fork(reg, program) => fork(shared, work, t, reg, program),
        Instr::Join(reg) => join(shared, work, t, reg),
        Instr::Lock(m) => {
            let answer = shared.sync.lock(t, m);
            tell_next(shared, work, t, answer)
        }
        Instr::Unlock(m) => {
            let answer = shared.sync.unlock(t, m);
            tell_next(shared, work, t, answer)
        }
        Instr::Wait(k) => {
            let answer = shared.sync.wait(t, k);
            tell_next(shared, work, t, answer)
        }
        Instr::Signal(k) => {
            let answer = shared.sync.signal(k);
            tell_next(shared, work, t, answer)
        }
        Instr::Io(length) => io(shared, t, length),
        Instr::Touch(page) => touch(fetch, shared, t, page, seen),
        Instr::End => end(shared, work, t),
    }
}

// The block of a thread that goes on at the next place.
fn next(mut block: Block) -> Block
    requires { block.pc + 1 < MAX_INSTRUCTIONS }
    ensures { result ≡ next_of block }
{
    block.pc += 1;
    block
}

// The same, with a value in a register.
fn with_value(mut block: Block, reg: Reg, value: u64) -> Block
    requires { block.pc + 1 < MAX_INSTRUCTIONS }
    ensures { result ≡ value_in block reg value }
{
    block.regs.set(reg, value);
    block.pc += 1;
    block
}

// The same thread elsewhere.
fn moved(mut block: Block, place: KeptPlace) -> Block
    ensures { result ≡ moved_to block place }
{
    block.place = place;
    block
}

// What an answer of what the threads wait on does to the calling thread, whose block is that after its instruction.
fn tell(
    shared: &mut Shared,
    work: &mut Option<ThreadNo>,
    t: ThreadNo,
    block: Block,
    answer: SyncAnswer,
) -> Ran
    requires thread { t.0 < MAX_THREADS }
    requires work { IsWork shared.old.works work.old }
    requires woken { (u : _) → answer ≡ SyncAnswer.Wakes u → (u.0 < MAX_THREADS) × IsUnlisted shared.old.works u.0 }
    ensures { record { shared = shared.new; work = work.new; answer = result }
        ≡ told_by shared.old work.old t block answer }
{
    match answer {
        SyncAnswer::Goes => {
            shared.threads.set(t, block);
            Ran::Goes
        }
        SyncAnswer::Waits => {
            shared.threads.set(t, moved(block, KeptPlace::Waiting));
            Ran::Leaves
        }
        SyncAnswer::Wakes(woken) => {
            shared.threads.set(t, block);
            shared.works.add(work, woken);
            Ran::Goes
        }
    }
}

// The same, where the thread's block is that before its instruction.
fn tell_next(
    shared: &mut Shared,
    work: &mut Option<ThreadNo>,
    t: ThreadNo,
    answer: SyncAnswer,
) -> Ran
    requires thread { t.0 < MAX_THREADS }
    requires next { (block_at shared.old.threads t.0).pc + 1 < MAX_INSTRUCTIONS }
    requires work { IsWork shared.old.works work.old }
    requires woken { (u : _) → answer ≡ SyncAnswer.Wakes u → (u.0 < MAX_THREADS) × IsUnlisted shared.old.works u.0 }
    ensures { record { shared = shared.new; work = work.new; answer = result }
        ≡ told_by shared.old work.old t (next_of (block_at shared.old.threads t.0)) answer }
{
    let block = shared.threads.block(t);
    tell(shared, work, t, next(block), answer)
}

// A fork.
fn fork(
    shared: &mut Shared,
    work: &mut Option<ThreadNo>,
    t: ThreadNo,
    reg: Reg,
    program: u16,
) -> Ran
    requires thread { t.0 < MAX_THREADS }
    requires next { (block_at shared.old.threads t.0).pc + 1 < MAX_INSTRUCTIONS }
    requires work { IsWork shared.old.works work.old }
    requires threads { shared.old.state.lists.threads ≡ MAX_THREADS }
    requires unmade { IsUnlisted shared.old.works shared.old.state.lists.made }
    requires program { program < MAX_PROGRAMS }
    ensures { record { shared = shared.new; work = work.new; answer = result }
        ≡ forked shared.old work.old t (block_at shared.old.threads t.0) reg program
        (next_made shared.old.state.lists) }
{
    let block = shared.threads.block(t);
    shared.state.lists.are_apart();
    let Some(made) = shared.state.lists.make(program) else {
        shared.threads.set(t, with_value(block, reg, NOT_MADE));
        return Ran::Goes;
    };
    shared
        .threads
        .set(t, with_value(block, reg, u64::from(made.0)));
    let first = Block {
        program,
        pc: 0,
        regs: Regs::zero(),
        place: KeptPlace::Waiting,
    };
    shared.threads.set(made, first);
    shared.works.add(work, made);
    Ran::Goes
}

// A join.
fn join(shared: &mut Shared, work: &mut Option<ThreadNo>, t: ThreadNo, reg: Reg) -> Ran
    requires thread { t.0 < MAX_THREADS }
    requires next { (block_at shared.old.threads t.0).pc + 1 < MAX_INSTRUCTIONS }
    requires work { IsWork shared.old.works work.old }
    requires nowhere { WaitsNowhere shared.old.sync t.0 }
    requires threads { shared.old.state.lists.threads ≡ MAX_THREADS }
    ensures { record { shared = shared.new; work = work.new; answer = result }
        ≡ joins shared.old work.old t (block_at shared.old.threads t.0) reg shared.old.state.lists.made }
{
    let block = shared.threads.block(t);
    shared.state.lists.are_apart();
    let other = block.regs.get(reg);
    let made = shared.state.lists.made();
    let answer = shared.sync.join(t, other, made);
    let known = if other < u64::from(made) { 1 } else { 0 };
    tell(shared, work, t, with_value(block, reg, known), answer)
}

// The thread blocks; its block is the one after its instruction.
fn block_for(shared: &mut Shared, t: ThreadNo, block: Block, length: u32, page: Option<u16>) -> Ran
    requires { t.0 < MAX_THREADS }
    ensures { (w : _) → outcome shared.new w result ≡ blocks shared.old w t block length page }
{
    shared.threads.set(t, moved(block, KeptPlace::Blocked));
    Ran::Blocks { length, page }
}

// An I/O.
fn io(shared: &mut Shared, t: ThreadNo, length: u32) -> Ran
    requires thread { t.0 < MAX_THREADS }
    requires next { (block_at shared.old.threads t.0).pc + 1 < MAX_INSTRUCTIONS }
    ensures { let b = block_at shared.old.threads t.0 in
        (w : _) → outcome shared.new w result ≡ blocks shared.old w t (next_of b) length None }
{
    let block = shared.threads.block(t);
    block_for(shared, t, next(block), length, None)
}

// A touch of a page.
fn touch(fetch: u32, shared: &mut Shared, t: ThreadNo, page: u16, seen: &Seen) -> Ran
    requires thread { t.0 < MAX_THREADS }
    requires next { (block_at shared.old.threads t.0).pc + 1 < MAX_INSTRUCTIONS }
    requires page { page < PAGES }
    ensures { let b = block_at shared.old.threads t.0 in
        (w : _) → outcome shared.new w result
        ≡ touched shared.old w t b fetch page (is_resident seen.now.pages page) }
{
    if has_page(seen.pages, page) {
        shared.threads.advance(t);
        Ran::Goes
    } else {
        let block = shared.threads.block(t);
        block_for(shared, t, block, fetch, Some(page))
    }
}

// The end of a thread.
fn end(shared: &mut Shared, work: &mut Option<ThreadNo>, t: ThreadNo) -> Ran
    requires thread { t.0 < MAX_THREADS }
    requires work { IsWork shared.old.works work.old }
    requires waiting { (u : ℕ) → Waits shared.old.sync u → IsUnlisted shared.old.works u }
    requires joiners { length shared.old.sync.joiners ≡ MAX_THREADS }
    ensures { record { shared = shared.new; work = work.new; answer = result }
        ≡ ended shared.old work.old t (block_at shared.old.threads t.0) }
{
    shared.threads.set_place(t, KeptPlace::Done);
    shared.sync.finish(t);
    wake_joiners(&mut shared.sync, &mut shared.works, work, t);
    Ran::Leaves
}

// Puts the threads that join a thread into the work list, in the order in which they came.
fn wake_joiners(
    sync: &mut SyncState,
    works: &mut WorkLists,
    work: &mut Option<ThreadNo>,
    t: ThreadNo,
)
    requires thread { t.0 < MAX_THREADS }
    requires work { IsWork works.old work.old }
    requires waiting { (u : ℕ) → Waits sync.old u → IsUnlisted works.old u }
    requires joiners { length sync.old.joiners ≡ MAX_THREADS }
    ensures sync { sync.new ≡ with_joiners sync.old t.0 [] }
    ensures works { with_name works.new work.new
        ≡ added_all (with_name works.old work.old) (joiners_at sync.old t.0) }
{
    sync.waits_once();
    while let Some(u) = sync.next_joiner(t) {
        sync.waits_once();
        works.add(work, u);
    }
}
