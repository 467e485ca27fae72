// Runs of local instructions.
ghost use Rattle.std.specs.Prelude.{◌≡◌, ◌+◌, ◌≤◌, ◌<◌, ◌++◌, length};
ghost use Rattle.sa_base.specs.Items.{items_from};
ghost use Rattle.sa_package_model.specs.Conditions.{CanGo};
ghost use Rattle.sa_package_model.specs.Step.{went, block_after, says_between};

use crate::package::FastThreads;
use sa_base::{MAX_EVENTS, ProcNo, Record, Seen, SpaceNo, ThreadNo, Trace};
use sa_fast::Block;
use sa_instr::{Program, local};
use sa_package_model::{Context, ContextState};

impl FastThreads {
    /// The context's thread runs `n` local instructions, one in each event from `seen.event` on. It cannot fail
    /// for want of memory.
    pub fn went(&mut self, seen: &Seen, ctx: &Context, n: u16, trace: &mut Trace)
        requires can { CanGo self.old ctx.now }
        requires room { n ≤ trace.old.spare }
        requires events { seen.now.event + n ≤ MAX_EVENTS + 1 }
        ensures user { self.new ≡ (went self.old seen.now ctx.now n).user }
        ensures items { let says = (went self.old seen.now ctx.now n).says in
            trace.new.items ≡ trace.old.items ++ items_from seen.now.event seen.now.proc says }
        ensures spare { trace.new.spare + n ≡ trace.old.spare }
    {
        if let ContextState::User(thread) = ctx.state {
            let mut block = self.package.shared.threads.block(thread);
            let program = &self.package.def.programs()[usize::from(block.program)];
            run_on(
                program,
                self.package.shared.state.space,
                thread,
                &mut block,
                seen,
                n,
                trace,
            );
            self.package.shared.threads.set(thread, block);
        }
    }
}

// A thread runs `n` instructions of its program, each of which is local.
fn run_on(
    program: &Program,
    space: SpaceNo,
    thread: ThreadNo,
    block: &mut Block,
    seen: &Seen,
    n: u16,
    trace: &mut Trace,
)
    requires place { block.old.pc < length program.now }
    requires room { n ≤ trace.old.spare }
    requires events { seen.now.event + n ≤ MAX_EVENTS + 1 }
    ensures block { block.new ≡ block_after program.now n block.old }
    ensures items { let says = says_between space thread program.now n block.old in
        trace.new.items ≡ trace.old.items ++ items_from seen.now.event seen.now.proc says }
    ensures spare { trace.new.spare + n ≡ trace.old.spare }
{
    for done in 0..n {
        let event = seen.event + u64::from(done);
        trace.say(event, seen.proc, Record::Ins(space, thread, block.pc));
        local(program, &mut block.regs, &mut block.pc);
    }
}
