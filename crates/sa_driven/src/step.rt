// The step of a context.
ghost use Rattle.std.specs.Prelude.{◌≡◌, ◌+◌, ◌≤◌, ◌<◌, ◌^◌, Some, true, nat_lt};
ghost use Rattle.sa_package_model.specs.Conditions.{IsThread};
ghost use Rattle.sa_driven_model.specs.Conditions.{CanStep};
ghost use Rattle.sa_driven_model.specs.Reply.{can, can_want};
ghost use Rattle.sa_driven_model.specs.Step.{idles, did, faults, faulted, ran, runs, readies, conts, backs, wants, done, done_if, stepped};
ghost use Rattle.sa_driven.specs.Does.{Does};

use crate::driven::Driven;
use crate::effects::{add_some, faults};
use sa_abstract::Step;
use sa_base::{PACKAGE_PAGE, ProcNo, Record, Seen, ThreadNo, Trace};
use sa_driven_model::{DrivenContext, Reply};
use sa_fast::KeptPlace;

impl Driven {
    /// One step of a context: the reply, where there is one that can be done; else the context says that it is idle. It
    /// adds at most 2 records.
    pub fn step(&mut self, seen: &Seen, ctx: &mut DrivenContext, trace: &mut Trace) -> Step
        requires can { CanStep self.old seen.now ctx.old }
        requires room { 2 ≤ trace.old.spare }
        ensures { Does (stepped self.old seen.now ctx.old) seen.now trace.old self.new ctx.new result trace.new }
    {
        match self.space.reply.take() {
            Some(reply) => self.do_if_possible(seen, ctx, reply, trace),
            None => self.idle(seen, ctx, trace),
        }
    }

    // The reply, where it can be done.
    fn do_if_possible(
        &mut self,
        seen: &Seen,
        ctx: &mut DrivenContext,
        reply: Reply,
        trace: &mut Trace,
    ) -> Step
        requires can { CanStep self.old seen.now ctx.old }
        requires room { 2 ≤ trace.old.spare }
        ensures { Does (done_if self.old seen.now ctx.old (Some reply)) seen.now trace.old self.new ctx.new result trace.new }
    {
        if self.is_possible(seen, ctx, reply) {
            self.do_reply(seen, ctx, reply, trace)
        } else {
            self.idle(seen, ctx, trace)
        }
    }

    // A reply that can be done.
    fn do_reply(
        &mut self,
        seen: &Seen,
        ctx: &mut DrivenContext,
        reply: Reply,
        trace: &mut Trace,
    ) -> Step
        requires can { CanStep self.old seen.now ctx.old }
        requires reply { can self.old seen.now ctx.old reply ≡ true }
        requires room { 2 ≤ trace.old.spare }
        ensures { Does (done self.old seen.now ctx.old reply) seen.now trace.old self.new ctx.new result trace.new }
    {
        match reply {
            Reply::Ins => match ctx.thread {
                Some(thread) => self.do_ins(seen, ctx, thread, trace),
                None => self.idle(seen, ctx, trace),
            },
            Reply::Run(t) => self.do_run(seen, ctx, t, trace),
            Reply::Ready(t) => self.do_ready(seen, ctx, t, trace),
            Reply::Cont(t) => self.do_cont(seen, ctx, t, trace),
            Reply::Back => self.do_back(seen, ctx, trace),
            Reply::Take(list) => self.do_take(seen, ctx, list, trace),
            Reply::Free(list) => self.do_free(seen, ctx, list, trace),
            Reply::Spin(list) => self.end_with(seen, ctx, Record::Spin(list), trace),
            Reply::Idle => self.idle(seen, ctx, trace),
            Reply::Want(n) => want(seen, ctx, n),
            Reply::GiveBack => Step::GiveBack,
            Reply::Line(q) => Step::InterruptOwn(q),
        }
    }

    // The context says that it is idle.
    fn idle(&self, seen: &Seen, ctx: &mut DrivenContext, trace: &mut Trace) -> Step
        requires room { 1 ≤ trace.old.spare }
        ensures { Does (idles self.now ctx.old) seen.now trace.old self.now ctx.new result trace.new }
    {
        self.say_idle(ctx);
        trace.say(seen.event, seen.proc, Record::Idle);
        Step::Did
    }

    // The end of a step that asks for nothing and adds this record.
    fn end_with(
        &self,
        seen: &Seen,
        ctx: &mut DrivenContext,
        what: Record,
        trace: &mut Trace,
    ) -> Step
        requires room { 1 ≤ trace.old.spare }
        ensures { Does (did self.now seen.now ctx.old what) seen.now trace.old self.now ctx.new result trace.new }
    {
        self.settle(seen, ctx);
        trace.say(seen.event, seen.proc, what);
        Step::Did
    }

    // The block for the package's page.
    fn fault(&mut self, ctx: &DrivenContext) -> Step
        requires { IsThread ctx.now.thread }
        ensures user { self.new ≡ (faulted self.old ctx.now).user }
        ensures answer { result ≡ (faulted self.old ctx.now).answer }
    {
        self.move_to(ctx.thread, KeptPlace::Blocked);
        Step::Block {
            length: self.space.base.fetch,
            page: Some(PACKAGE_PAGE),
        }
    }

    // A ready thread runs.
    fn do_run(
        &mut self,
        seen: &Seen,
        ctx: &mut DrivenContext,
        t: ThreadNo,
        trace: &mut Trace,
    ) -> Step
        requires thread { IsThread (Some t) }
        requires carried { IsThread ctx.old.thread }
        requires room { 1 ≤ trace.old.spare }
        ensures { Does (runs self.old seen.now ctx.old t (faults seen.now ctx.old)) seen.now trace.old self.new ctx.new result trace.new }
    {
        if faults(seen, ctx) {
            return self.fault(ctx);
        }
        self.move_to(Some(t), KeptPlace::Running);
        ctx.thread = Some(t);
        let run = Record::Run(self.space.base.shared.state.space, t);
        self.end_with(seen, ctx, run, trace)
    }

    // A thread is ready.
    fn do_ready(
        &mut self,
        seen: &Seen,
        ctx: &mut DrivenContext,
        t: ThreadNo,
        trace: &mut Trace,
    ) -> Step
        requires thread { IsThread (Some t) }
        requires carried { IsThread ctx.old.thread }
        requires room { 1 ≤ trace.old.spare }
        ensures { Does (readies self.old seen.now ctx.old t (faults seen.now ctx.old)) seen.now trace.old self.new ctx.new result trace.new }
    {
        if faults(seen, ctx) {
            return self.fault(ctx);
        }
        self.pick_up(Some(t), KeptPlace::Ready);
        ctx.hand.remove(t);
        let ready = Record::Ready(self.space.base.shared.state.space, t);
        self.end_with(seen, ctx, ready, trace)
    }

    // What was interrupted is continued.
    fn do_cont(
        &mut self,
        seen: &Seen,
        ctx: &mut DrivenContext,
        thread: Option<ThreadNo>,
        trace: &mut Trace,
    ) -> Step
        requires thread { IsThread thread }
        requires room { 1 ≤ trace.old.spare }
        ensures { Does (conts self.old seen.now ctx.old thread) seen.now trace.old self.new ctx.new result trace.new }
    {
        self.pick_up(thread, KeptPlace::Running);
        ctx.thread = thread;
        ctx.continues = true;
        let cont = Record::Cont(self.space.base.shared.state.space, thread);
        self.end_with(seen, ctx, cont, trace)
    }

    // What was continued is over.
    fn do_back(&mut self, seen: &Seen, ctx: &mut DrivenContext, trace: &mut Trace) -> Step
        requires carried { IsThread ctx.old.thread }
        requires room { 1 ≤ trace.old.spare }
        ensures { Does (backs self.old seen.now ctx.old) seen.now trace.old self.new ctx.new result trace.new }
    {
        let thread = ctx.thread;
        self.hand_over(thread);
        add_some(&mut ctx.hand, thread);
        ctx.thread = None;
        ctx.continues = false;
        let back = Record::Back(self.space.base.shared.state.space, thread);
        self.end_with(seen, ctx, back, trace)
    }

    // The lock of a list is taken.
    fn do_take(
        &mut self,
        seen: &Seen,
        ctx: &mut DrivenContext,
        list: ProcNo,
        trace: &mut Trace,
    ) -> Step
        requires locks { ctx.old.locks + 1 < 2 ^ 32 }
        requires room { 1 ≤ trace.old.spare }
        ensures { Does (done self.old seen.now ctx.old (Reply.Take list)) seen.now trace.old self.new ctx.new result trace.new }
    {
        ctx.locks += 1;
        let take = Record::Take(self.space.base.shared.state.space, list, ctx.thread);
        self.end_with(seen, ctx, take, trace)
    }

    // The lock of a list is freed.
    fn do_free(
        &mut self,
        seen: &Seen,
        ctx: &mut DrivenContext,
        list: ProcNo,
        trace: &mut Trace,
    ) -> Step
        requires room { 1 ≤ trace.old.spare }
        ensures { Does (done self.old seen.now ctx.old (Reply.Free list)) seen.now trace.old self.new ctx.new result trace.new }
    {
        ctx.locks = ctx.locks.saturating_sub(1);
        let free = Record::Free(self.space.base.shared.state.space, list, ctx.thread);
        self.end_with(seen, ctx, free, trace)
    }
}

// The hint that the space wants so many processors.
fn want(seen: &Seen, ctx: &mut DrivenContext, n: u16) -> Step
    ensures ctx { (u : _) → ctx.new ≡ (wants u seen.now ctx.old n (nat_lt seen.now.demand n)).ctx }
    ensures answer { (u : _) → result ≡ (wants u seen.now ctx.old n (nat_lt seen.now.demand n)).answer }
{
    if seen.demand < n {
        return Step::More(n - seen.demand);
    }
    ctx.lowers = true;
    Step::Idle
}
