// Instructions of a context's thread: one, or a run of local ones.
ghost use Rattle.std.specs.Prelude.{◌≡◌, ◌+◌, ◌≤◌, ◌<◌, ◌++◌, [], Some, is_some, false, true, length, replicate};
ghost use Rattle.sa_base.specs.Items.{items_at, items_from};
ghost use Rattle.sa_base.specs.declared.limits.TheConstants.{MAX_THREADS};
ghost use Rattle.sa_fast.specs.Work.{work_of};
ghost use Rattle.sa_instr.specs.Local.{local_answer};
ghost use Rattle.sa_fast.specs.Threads.{block_at};
ghost use Rattle.sa_fast.specs.Instruction.{IsAt, run_says};
ghost use Rattle.sa_package_model.specs.Step.{block_after, says_between};
ghost use Rattle.sa_driven_model.specs.Threads.{with_all};
ghost use Rattle.sa_driven_model.specs.Conditions.{IsAlone, CanIns, CanGo};
ghost use Rattle.sa_driven_model.specs.Step.{page_of, after_run, run_of, is_within_thread, is_next_local, ran_by, ran, went_at};
ghost use Rattle.sa_driven.specs.Does.{Does};

use crate::driven::Driven;
use crate::effects::faults;
use sa_abstract::Step;
use sa_base::{MAX_EVENTS, PACKAGE_PAGE, Record, Seen, SpaceNo, ThreadNo, Trace};
use sa_driven_model::{DrivenContext, DrivenSpace, ThreadSet};
use sa_fast::{Block, Ran, WorkLists, run};
use sa_instr::{Instr, Program, local};

impl Driven {
    /// The next instruction of the context's thread.
    pub(crate) fn do_ins(
        &mut self,
        seen: &Seen,
        ctx: &mut DrivenContext,
        thread: ThreadNo,
        trace: &mut Trace,
    ) -> Step
        requires can { CanIns self.old seen.now thread }
        requires room { 2 ≤ trace.old.spare }
        ensures { Does (ran self.old seen.now ctx.old (Some thread)) seen.now trace.old
            self.new ctx.new result trace.new }
    {
        let local = self.is_next_local(thread);
        let ran = run_thread(&mut self.space, ctx, thread, seen, trace);
        self.end_ins(seen, ctx, ran, local)
    }

    // The thread's next instruction stays within it.
    fn is_next_local(&self, thread: ThreadNo) -> bool
        requires below { thread.0 < MAX_THREADS }
        requires at { IsAt self.now.base.def (block_at self.now.base.shared.threads thread.0) }
        ensures { result ≡ is_next_local self.now thread }
    {
        let block = self.space.base.shared.threads.block(thread);
        let program = &self.space.base.def.programs()[usize::from(block.program)];
        is_within_thread(program.at(block.pc))
    }

    // The end of an instruction of the context's thread, which was local or not.
    fn end_ins(&self, seen: &Seen, ctx: &mut DrivenContext, ran: Ran, local: bool) -> Step
        ensures ctx { (says : _) → ctx.new ≡ (ran_by self.now seen.now ctx.old local ran says).ctx }
        ensures answer { (says : _) → result ≡ (ran_by self.now seen.now ctx.old local ran says).answer }
    {
        match ran {
            Ran::Goes => {
                if !local {
                    self.go_on(ctx);
                }
                Step::Did
            }
            Ran::Leaves => {
                ctx.thread = None;
                self.settle(seen, ctx);
                Step::Did
            }
            Ran::Blocks { length, page } => Step::Block {
                length,
                page: first_page(faults(seen, ctx), page),
            },
        }
    }

    /// The context's thread runs `n` local instructions, one in each event from `seen.event` on.
    pub fn went(&mut self, seen: &Seen, ctx: &DrivenContext, n: u16, trace: &mut Trace)
        requires can { CanGo self.old ctx.now }
        requires out { ctx.now.inside ≡ false }
        requires thread { is_some ctx.now.thread ≡ true }
        requires room { n ≤ trace.old.spare }
        requires events { seen.now.event + n ≤ MAX_EVENTS + 1 }
        ensures user { self.new ≡ (went_at self.old ctx.now n ctx.now.inside ctx.now.thread).user }
        ensures items { let says = (went_at self.old ctx.now n ctx.now.inside ctx.now.thread).says in
            trace.new.items ≡ trace.old.items ++ items_from seen.now.event seen.now.proc says }
        ensures spare { trace.new.spare + n ≡ trace.old.spare }
    {
        if let Some(thread) = ctx.thread {
            let mut block = self.space.base.shared.threads.block(thread);
            let program = &self.space.base.def.programs()[usize::from(block.program)];
            run_on(
                program,
                self.space.base.shared.state.space,
                thread,
                &mut block,
                seen,
                n,
                trace,
            );
            self.space.base.shared.threads.set(thread, block);
        }
    }
}

// The instruction stays within its thread.
fn is_within_thread(instr: Instr) -> bool
    ensures { result ≡ is_within_thread (local_answer instr) }
{
    matches!(
        instr,
        Instr::Compute | Instr::Set(..) | Instr::Add(..) | Instr::Sub(..) | Instr::Jnz(..)
    )
}

// Runs the next instruction of a thread, and hands out the threads that it forks or wakes: what became of the thread.
fn run_thread(
    space: &mut DrivenSpace,
    ctx: &mut DrivenContext,
    thread: ThreadNo,
    seen: &Seen,
    trace: &mut Trace,
) -> Ran
    requires can { CanIns space.old seen.now thread }
    requires room { 2 ≤ trace.old.spare }
    ensures space { space.new ≡ after_run space.old (run_of space.old seen.now thread) }
    ensures ctx { let o = run_of space.old seen.now thread in
        ctx.new ≡ record ctx.old { hand = with_all ctx.old.hand (work_of o.shared.works o.work) } }
    ensures ran { result ≡ (run_of space.old seen.now thread).answer }
    ensures items { let says = run_says space.old.base.def seen.now.pages space.old.base.shared thread in
        trace.new.items ≡ trace.old.items ++ items_at seen.now.event seen.now.proc says }
    ensures spare { let says = run_says space.old.base.def seen.now.pages space.old.base.shared thread in
        trace.new.spare + length says ≡ trace.old.spare }
{
    let mut work = None;
    let ran = run(
        &space.base.def,
        space.base.fetch,
        &mut space.base.shared,
        &mut work,
        thread,
        seen,
        trace,
    );
    hand_out(
        &mut space.base.shared.works,
        work,
        &mut ctx.hand,
        &mut space.handed,
    );
    ran
}

// Takes all threads out of the only work list that has some, in order, into two sets.
fn hand_out(
    works: &mut WorkLists,
    work: Option<ThreadNo>,
    hand: &mut ThreadSet,
    handed: &mut ThreadSet,
)
    requires { IsAlone works.old work }
    ensures works { works.new ≡ replicate MAX_THREADS [] }
    ensures hand { hand.new ≡ with_all hand.old (work_of works.old work) }
    ensures handed { handed.new ≡ with_all handed.old (work_of works.old work) }
{
    let mut left = work;
    while let Some(first) = left {
        works.take_first(&mut left, first);
        hand.add(first);
        handed.add(first);
    }
}

// The page of a block: the package's first, where a fault of the context would be for that.
fn first_page(first: bool, page: Option<u16>) -> Option<u16>
    ensures { result ≡ page_of first page }
{
    match page {
        Some(page) => Some(if first { PACKAGE_PAGE } else { page }),
        None => None,
    }
}

// A thread runs `n` instructions of its program, each of which is local.
fn run_on(
    program: &Program,
    space: SpaceNo,
    thread: ThreadNo,
    block: &mut Block,
    seen: &Seen,
    n: u16,
    trace: &mut Trace,
)
    requires place { block.old.pc < length program.now }
    requires room { n ≤ trace.old.spare }
    requires events { seen.now.event + n ≤ MAX_EVENTS + 1 }
    ensures block { block.new ≡ block_after program.now n block.old }
    ensures items { let says = says_between space thread program.now n block.old in
        trace.new.items ≡ trace.old.items ++ items_from seen.now.event seen.now.proc says }
    ensures spare { trace.new.spare + n ≡ trace.old.spare }
{
    for done in 0..n {
        let event = seen.event + u64::from(done);
        trace.say(event, seen.proc, Record::Ins(space, thread, block.pc));
        local(program, &mut block.regs, &mut block.pc);
    }
}
