// The step of a context.
ghost use Rattle.std.specs.Prelude.{◌≡◌, ◌≤◌, true};
ghost use Rattle.sa_fast.specs.Work.{IsWork};
ghost use Rattle.sa_abstract.specs.Keeps.{IsStep};
ghost use Rattle.sa_package_model.specs.Conditions.{CanBeDue};
ghost use Rattle.sa_package_model.specs.Context.{carried_by};
ghost use Rattle.sa_prio_model.specs.Conditions.{CanRank, Steps};
ghost use Rattle.sa_prio_model.specs.Stands.{prio_stands};
ghost use Rattle.sa_prio_model.specs.Step.{left_on, goes, gives_way, urged, again, served, stepped};
ghost use Rattle.sa_prio_model.specs.Urge.{came_out, may_settle};

use crate::threads::PrioThreads;
use sa_abstract::Step;
use sa_base::{Record, Seen, ThreadNo, Trace};
use sa_package_model::ContextState;
use sa_prio_model::PrioContext;

impl PrioThreads {
    /// One step of a context: what it does, and what it asks of the kernel. It adds at most 2 records.
    pub fn step(&mut self, seen: &Seen, ctx: &mut PrioContext, trace: &mut Trace) -> Step
        requires turn { IsStep prio_stands self.old seen.now ctx.old }
        requires room { 2 ≤ trace.old.spare }
        ensures { Steps (stepped self.old seen.now ctx.old) seen.now trace.old self.new ctx.new result trace.new }
    {
        self.settle_again(seen, ctx);
        self.serve(seen, ctx, trace)
    }

    // Where a hint is no longer owed, or the activations to give back are too few by now, the context settles; one with the
    // mark does not.
    fn settle_again(&self, seen: &Seen, ctx: &mut PrioContext)
        requires { CanRank self.now }
        ensures { ctx.new ≡ again self.now seen.now ctx.old }
    {
        if ctx.urge {
            return;
        }
        if !may_settle(ctx.base.state) {
            return;
        }
        let before = ctx.base.state;
        self.base.settle_again(seen, &mut ctx.base);
        ctx.urge = came_out(before, ctx.base.state) && self.has_pair(seen);
    }

    // The step of a context that has settled.
    fn serve(&mut self, seen: &Seen, ctx: &mut PrioContext, trace: &mut Trace) -> Step
        requires turn { IsStep prio_stands self.old seen.now ctx.old }
        requires room { 2 ≤ trace.old.spare }
        ensures { Steps (served self.old seen.now ctx.old) seen.now trace.old self.new ctx.new result trace.new }
    {
        if ctx.urge {
            self.urge(seen, ctx, trace)
        } else {
            self.go(seen, ctx, trace)
        }
    }

    // A context with the mark serves a pair: its own thread gives way, or another processor is interrupted. Where no pair is
    // left, it settles without an event, and goes on.
    #[inline(never)]
    fn urge(&mut self, seen: &Seen, ctx: &mut PrioContext, trace: &mut Trace) -> Step
        requires turn { IsStep prio_stands self.old seen.now ctx.old }
        requires mark { ctx.old.urge ≡ true }
        requires room { 2 ≤ trace.old.spare }
        ensures { Steps (urged self.old seen.now ctx.old.base) seen.now trace.old self.new ctx.new result trace.new }
    {
        if self.outranked(seen, seen.proc).is_some() {
            return self.give_way(seen, ctx, trace);
        }
        if let Some(other) = self.lowest(seen) {
            return Step::InterruptOwn(other.proc);
        }
        let thread = ctx.base.state.thread();
        self.base.settle(seen, &mut ctx.base, thread);
        ctx.urge = false;
        self.go(seen, ctx, trace)
    }

    // The context's thread comes last in its work list, and the context settles.
    fn give_way(&mut self, seen: &Seen, ctx: &mut PrioContext, trace: &mut Trace) -> Step
        requires work { IsWork self.old.base.shared.works ctx.old.base.work }
        requires thread { CanBeDue self.old.base.shared (carried_by ctx.old.base.state) }
        requires room { 1 ≤ trace.old.spare }
        ensures { Steps (gives_way self.old seen.now ctx.old.base) seen.now trace.old self.new ctx.new result trace.new }
    {
        let thread = ctx.base.state.thread();
        let back = Record::Back(self.base.space(), thread);
        trace.say(seen.event, seen.proc, back);
        self.base.put_last(&mut ctx.base, thread);
        self.base.settle(seen, &mut ctx.base, None);
        ctx.urge = false;
        self.set_on(seen.proc, None);
        Step::Did
    }

    // A step of FastThreads. After it the context may have come to an instruction or a look where a pair exists.
    #[inline(always)]
    fn go(&mut self, seen: &Seen, ctx: &mut PrioContext, trace: &mut Trace) -> Step
        requires turn { IsStep prio_stands self.old seen.now ctx.old }
        requires room { 2 ≤ trace.old.spare }
        ensures { Steps (goes self.old seen.now ctx.old.base) seen.now trace.old self.new ctx.new result trace.new }
    {
        let before = ctx.base.state;
        let answer = self.base.step(seen, &mut ctx.base, trace);
        self.set_on(seen.proc, left_on(answer, ctx.base.state));
        ctx.urge = came_out(before, ctx.base.state) && self.has_pair(seen);
        answer
    }
}

// The thread on the processor of a context in this state after this answer: none after a block.
fn left_on(answer: Step, state: ContextState) -> Option<ThreadNo>
    ensures { result ≡ left_on answer state }
{
    match answer {
        Step::Block { .. } => None,
        _ => state.thread(),
    }
}

// Whether a context came to an instruction or a look from elsewhere.
fn came_out(before: ContextState, after: ContextState) -> bool
    ensures { result ≡ came_out before after }
{
    match (before, after) {
        (ContextState::User(_), ContextState::User(_))
        | (ContextState::Look(_), ContextState::Look(_)) => false,
        _ => !after.is_inside(),
    }
}

// Whether a context in this state may settle without an event; one in another state stays as it is.
fn may_settle(state: ContextState) -> bool
    ensures { result ≡ may_settle state }
{
    matches!(state, ContextState::Hint(_) | ContextState::Return)
}
