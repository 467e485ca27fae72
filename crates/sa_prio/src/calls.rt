// The other calls.
ghost use Rattle.std.specs.Prelude.{◌≡◌, IfSome};
ghost use Rattle.std.specs.Option.{option_map};
ghost use Rattle.sa_package_model.specs.Conditions.{CanBeTold, CanTakeOver, IsThread};
ghost use Rattle.sa_package_model.specs.Context.{carried_by};
ghost use Rattle.sa_package_model.specs.Step as fast;
ghost use Rattle.sa_prio_model.specs.Conditions.{CanRank};
ghost use Rattle.sa_prio_model.specs.Prio.{with_base};
ghost use Rattle.sa_prio_model.specs.Step.{begun, base_of, told, answered, local};
ghost use Rattle.sa_prio_model.specs.Urge.{settles};

use crate::threads::PrioThreads;
use sa_abstract::SeatState;
use sa_base::{Note, Seen, Stopped};
use sa_package_model::Context;
use sa_prio_model::PrioContext;

impl PrioThreads {
    /// The context of a fresh activation, which carries no thread.
    pub fn begin(&mut self, seen: &Seen) -> PrioContext
        ensures { (self.new, result) ≡ begun self.old seen.now }
    {
        self.set_on(seen.proc, None);
        PrioContext::unmarked(Context::new())
    }

    /// The context is told a notice of its upcall. With `Preempted` and `Unblocked` comes the context that was stopped or
    /// unblocked, which it takes over. It cannot fail for want of memory.
    pub fn told(&mut self, ctx: &mut PrioContext, note: Note, held: Option<Stopped<PrioContext>>)
        requires { CanBeTold self.old.base ctx.old.base note (option_map base_of held) }
        ensures { (self.new, ctx.new) ≡ told self.old ctx.old note held }
    {
        match note {
            Note::Add(_) | Note::Blocked(_) => {}
            Note::Preempted(_) => self.told_of(ctx, held),
            Note::Unblocked(_) => self.told_of(ctx, held),
        }
    }

    // The context is told of another one, if one comes with the notice.
    fn told_of(&mut self, ctx: &mut PrioContext, held: Option<Stopped<PrioContext>>)
        requires { IfSome (option_map base_of held) (λ s. CanTakeOver self.old.base ctx.old.base s.ctx) }
        ensures user { self.new ≡ with_base self.old (fast.told_of self.old.base ctx.old.base (option_map base_of held)).user }
        ensures ctx { ctx.new ≡ record ctx.old { base = (fast.told_of self.old.base ctx.old.base (option_map base_of held)).ctx } }
    {
        if let Some(held) = held {
            self.base.take_over(&mut ctx.base, &held.ctx.base);
        }
    }

    /// The context goes on after the last notice of its upcall, or after an entry of the kernel that it asked for: it
    /// settles, where it is between routines or was to serve a pair. A processor that was offered as idle looks on.
    pub fn answered(&mut self, seen: &Seen, ctx: &mut PrioContext)
        requires { CanRank self.old }
        ensures { (self.new, ctx.new) ≡ answered self.old seen.now ctx.old }
    {
        if ctx.urge || ctx.base.state.is_between() {
            self.settle(seen, ctx);
        }
    }

    // The context settles, and is to serve a pair where it comes to an instruction or a look and there is one.
    fn settle(&self, seen: &Seen, ctx: &mut PrioContext)
        requires { CanRank self.now }
        ensures { ctx.new ≡ settles self.now seen.now ctx.old.base }
    {
        let thread = ctx.base.state.thread();
        self.base.settle(seen, &mut ctx.base, thread);
        ctx.urge = !ctx.base.state.is_inside() && self.has_pair(seen);
    }

    /// Where the context is, as far as its processor can go on by itself.
    pub fn local(&self, ctx: &PrioContext) -> SeatState
        requires { IsThread (carried_by ctx.now.base.state) }
        ensures { result ≡ local self.now ctx.now }
    {
        if ctx.urge {
            SeatState::Away
        } else {
            self.base.local(&ctx.base)
        }
    }
}
