// The step of a context.
ghost use Rattle.std.specs.Prelude.{◌≡◌, ◌+◌, ◌<◌, ◌≤◌, length, Some, None, slice_get};
ghost use Rattle.sa_copies.specs.Copies.{package_ops};
ghost use Rattle.sa_lists.specs.ReadyView as ready;
ghost use Rattle.sa_fast.specs.Work.{IsWork};
ghost use Rattle.sa_fast.specs.Instruction.{CanRun};
ghost use Rattle.sa_package_model.specs.Conditions.{CanBeDue, CanCode, CanStep, CanWork, IsThread};
ghost use Rattle.sa_package_model.specs.Context.{carried_by};
ghost use Rattle.sa_package_model.specs.Rules.{own_list, Steps, moved_by, context_after, coded, continued, pushing, used, is_idle, popping, looked};
ghost use Rattle.sa_package_model.specs.Step.{resettled, stepped, stepped_at, worked};

use crate::package::FastThreads;
use crate::settling::place;
use sa_abstract::Step;
use sa_base::{BULK_RETURN, MAX_THREADS, PACKAGE_PAGE, ProcNo, Record, Seen, ThreadNo, Trace};
use sa_code::{Frame, MicroDone, Op, micro};
use sa_fast::{KeptPlace, Ran, Shared, idle_owed, run};
use sa_instr::MAX_PATIENCE;
use sa_package_model::{Context, ContextState};

// Where the routines of the package's code begin.
const PUSH: u16 = 0;

const POP: u16 = 4;

impl FastThreads {
    /// One step of a context: what it does, and what it asks of the kernel. It adds at most 2 records.
    pub fn step(&mut self, seen: &Seen, ctx: &mut Context, trace: &mut Trace) -> Step
        requires can { CanStep self.old seen.now ctx.old }
        requires room { 2 ≤ trace.old.spare }
        ensures { Steps (stepped self.old seen.now ctx.old) seen.now trace.old self.new ctx.new result trace.new }
    {
        self.settle_again(seen, ctx);
        self.act(seen, ctx, trace)
    }

    /// Where a hint is no longer owed, or the activations to give back are too few by now, the context settles.
    pub fn settle_again(&self, seen: &Seen, ctx: &mut Context)
        ensures { ctx.new ≡ resettled self.now seen.now ctx.old ctx.old.state }
    {
        match ctx.state {
            ContextState::Hint(thread) => {
                if self.owed(seen).is_none() {
                    self.settle(seen, ctx, thread);
                }
            }
            ContextState::Return => {
                if seen.taken < BULK_RETURN {
                    self.settle(seen, ctx, None);
                }
            }
            _ => {}
        }
    }

    // The step of a context that has settled.
    fn act(&mut self, seen: &Seen, ctx: &mut Context, trace: &mut Trace) -> Step
        requires can { CanStep self.old seen.now ctx.old }
        requires room { 2 ≤ trace.old.spare }
        ensures { Steps (stepped_at self.old seen.now ctx.old ctx.old.state) seen.now trace.old
            self.new ctx.new result trace.new }
    {
        match ctx.state {
            ContextState::Code(frame) => self.do_code(seen, ctx, frame, trace),
            ContextState::Work(_) => self.do_work(seen, ctx, trace),
            ContextState::Hint(_) => match self.owed(seen) {
                Some(more) => Step::More(more),
                None => Step::Did,
            },
            ContextState::Return => Step::GiveBack,
            ContextState::User(thread) => self.do_thread(seen, ctx, thread, trace),
            ContextState::Look(looks) => self.look(seen, ctx, looks, trace),
        }
    }

    // A context with something left to do: its first section, or its first thread to make ready.
    fn do_work(&mut self, seen: &Seen, ctx: &mut Context, trace: &mut Trace) -> Step
        requires code { self.old.shared.state.code ≡ package_ops }
        requires threads { self.old.shared.state.lists.threads ≡ MAX_THREADS }
        requires proc { (own_list self.old seen.now.proc).0 < length self.old.shared.state.lists.lists }
        requires work { IsWork self.old.shared.works ctx.old.work }
        requires can { CanWork self.old ctx.old (carried_by ctx.old.state) }
        requires room { 1 ≤ trace.old.spare }
        ensures { Steps (worked self.old seen.now ctx.old (slice_get ctx.old.sections 0) ctx.old.work)
            seen.now trace.old self.new ctx.new result trace.new }
    {
        if let Some(frame) = ctx.sections.first() {
            return self.go_on_with(seen, ctx, frame, trace);
        }
        match ctx.work {
            Some(first) => self.begin_push(seen, ctx, first, trace),
            None => Step::Did,
        }
    }

    // The first section is continued in its copy, with its thread. A thread that is carried comes last in the work list.
    fn go_on_with(
        &mut self,
        seen: &Seen,
        ctx: &mut Context,
        frame: Frame,
        trace: &mut Trace,
    ) -> Step
        requires some { 0 < length ctx.old.sections }
        requires thread { IsThread frame.thread }
        requires work { IsWork self.old.shared.works ctx.old.work }
        requires carries { CanBeDue self.old.shared (carried_by ctx.old.state) }
        requires room { 1 ≤ trace.old.spare }
        ensures { Steps (continued self.old ctx.old frame) seen.now trace.old self.new ctx.new result trace.new }
    {
        self.put_last(ctx, ctx.state.thread());
        place(&mut self.package.shared, frame.thread, KeptPlace::Running);
        ctx.sections.remove_first();
        ctx.state = ContextState::Code(frame);
        let cont = Record::Cont(self.package.shared.state.space, frame.thread);
        trace.say(seen.event, seen.proc, cont);
        Step::Did
    }

    // The list that counts as a processor's own.
    fn own_list(&self, p: ProcNo) -> ProcNo
        ensures { result ≡ own_list self.now p }
    {
        self.package.shared.state.lists.home(p)
    }

    // The take of the push of a thread on the list of the processor.
    fn begin_push(
        &mut self,
        seen: &Seen,
        ctx: &mut Context,
        first: ThreadNo,
        trace: &mut Trace,
    ) -> Step
        requires threads { self.old.shared.state.lists.threads ≡ MAX_THREADS }
        requires proc { (own_list self.old seen.now.proc).0 < length self.old.shared.state.lists.lists }
        requires first { ctx.old.work ≡ Some first }
        requires work { IsWork self.old.shared.works ctx.old.work }
        requires unlisted { ready.IsUnlisted self.old.shared.state.lists first.0 }
        requires code { self.old.shared.state.code ≡ package_ops }
        requires room { 1 ≤ trace.old.spare }
        ensures { Steps (pushing self.old seen.now ctx.old first) seen.now trace.old
            self.new ctx.new result trace.new }
    {
        let list = self.own_list(seen.proc);
        let mut frame = Frame {
            pc: PUSH,
            list: Some(list),
            own: list.0 == seen.proc.0,
            pushed: Some(first),
            thread: ctx.state.thread(),
        };
        if let MicroDone::Did = micro(&mut self.package.shared.state, &mut frame, seen, trace) {
            self.package.shared.works.take_first(&mut ctx.work, first);
            ctx.state = ContextState::Code(frame);
        }
        Step::Did
    }

    // The next instruction of the context's thread.
    fn do_thread(
        &mut self,
        seen: &Seen,
        ctx: &mut Context,
        thread: ThreadNo,
        trace: &mut Trace,
    ) -> Step
        requires can { CanRun self.old.def self.old.shared ctx.old.work thread }
        requires room { 2 ≤ trace.old.spare }
        ensures { Steps (used self.old seen.now ctx.old thread) seen.now trace.old self.new ctx.new result trace.new }
    {
        let ran = run(
            &self.package.def,
            self.package.fetch,
            &mut self.package.shared,
            &mut ctx.work,
            thread,
            seen,
            trace,
        );
        match ran {
            Ran::Goes => {
                if ctx.work.is_some() {
                    self.settle(seen, ctx, Some(thread));
                } else {
                    ctx.state = ContextState::User(thread);
                }
                Step::Did
            }
            Ran::Leaves => {
                self.settle(seen, ctx, None);
                Step::Did
            }
            Ran::Blocks { length, page } => Step::Block { length, page },
        }
    }

    // A look at the ready lists.
    fn look(&mut self, seen: &Seen, ctx: &mut Context, looks: u16, trace: &mut Trace) -> Step
        requires proc { (own_list self.old seen.now.proc).0 < length self.old.shared.state.lists.lists }
        requires code { self.old.shared.state.code ≡ package_ops }
        requires few { looks ≤ MAX_PATIENCE }
        requires room { 1 ≤ trace.old.spare }
        ensures { Steps (looked self.old seen.now ctx.old looks) seen.now trace.old self.new ctx.new result trace.new }
    {
        let own = self.own_list(seen.proc);
        if let Some(list) = self.package.shared.state.lists.seek(own) {
            return self.begin_pop(seen, ctx, list, trace);
        }
        if self.is_idle(seen, looks) {
            return Step::Idle;
        }
        ctx.state = ContextState::Look((looks + 1).min(MAX_PATIENCE));
        trace.say(seen.event, seen.proc, Record::Idle);
        Step::Did
    }

    // Whether a processor that looked so often is to be offered to the kernel.
    fn is_idle(&self, seen: &Seen, looks: u16) -> bool
        ensures { result ≡ is_idle self.now seen.now looks }
    {
        self.package.def.patience() <= looks && idle_owed(seen.demand, self.load())
    }

    // The take of the pop on a list.
    fn begin_pop(&mut self, seen: &Seen, ctx: &mut Context, list: ProcNo, trace: &mut Trace) -> Step
        requires list { list.0 < length self.old.shared.state.lists.lists }
        requires code { self.old.shared.state.code ≡ package_ops }
        requires room { 1 ≤ trace.old.spare }
        ensures { Steps (popping self.old seen.now ctx.old list.0) seen.now trace.old
            self.new ctx.new result trace.new }
    {
        let mut frame = Frame {
            pc: POP,
            list: Some(list),
            own: list.0 == seen.proc.0,
            pushed: None,
            thread: None,
        };
        if let MicroDone::Did = micro(&mut self.package.shared.state, &mut frame, seen, trace) {
            ctx.state = ContextState::Code(frame);
        }
        Step::Did
    }

    // A context in the package's code: the operation at its place.
    fn do_code(&mut self, seen: &Seen, ctx: &mut Context, frame: Frame, trace: &mut Trace) -> Step
        requires code { self.old.shared.state.code ≡ package_ops }
        requires threads { self.old.shared.state.lists.threads ≡ MAX_THREADS }
        requires work { IsWork self.old.shared.works ctx.old.work }
        requires can { CanCode self.old frame }
        requires room { 1 ≤ trace.old.spare }
        ensures { Steps (coded self.old seen.now ctx.old frame) seen.now trace.old self.new ctx.new result trace.new }
    {
        self.package.shared.state.lists.are_apart();
        let op = self.package.shared.state.code.at(frame.pc);
        let mut next = frame;
        match micro(&mut self.package.shared.state, &mut next, seen, trace) {
            MicroDone::Did => {
                move_thread(&mut self.package.shared, op, frame, next);
                self.go_on(seen, ctx, next);
                Step::Did
            }
            MicroDone::Spun => Step::Did,
            MicroDone::Faulted => {
                place(&mut self.package.shared, frame.thread, KeptPlace::Blocked);
                Step::Block {
                    length: self.package.fetch,
                    page: Some(PACKAGE_PAGE),
                }
            }
            MicroDone::Left => {
                self.settle(seen, ctx, frame.thread);
                Step::Did
            }
            MicroDone::Yielded => {
                self.put_last(ctx, frame.thread);
                self.settle(seen, ctx, None);
                Step::Did
            }
        }
    }

    // The context goes on in the code, or settles at the end of a routine.
    fn go_on(&self, seen: &Seen, ctx: &mut Context, next: Frame)
        ensures { ctx.new ≡ context_after self.now seen.now ctx.old next
            (slice_get self.now.shared.state.code next.pc) }
    {
        match self.package.shared.state.code.at(next.pc) {
            Some(Op::Leave) => self.settle(seen, ctx, next.thread),
            _ => ctx.state = ContextState::Code(next),
        }
    }
}

// The effects of a push and of a pop move a thread.
fn move_thread(shared: &mut Shared, op: Option<Op>, before: Frame, after: Frame)
    requires pushed { IsThread before.pushed }
    requires carried { IsThread after.thread }
    ensures { shared.new ≡ moved_by shared.old op before after }
{
    match op {
        Some(Op::Push) => place(shared, before.pushed, KeptPlace::Ready),
        Some(Op::Pop) => place(shared, after.thread, KeptPlace::Running),
        _ => {}
    }
}
