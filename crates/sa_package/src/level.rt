// FastThreads as a user level.
ghost use Rattle.std.specs.Prelude.{◌≡◌};
ghost use Rattle.sa_abstract.specs.Keeps.{IsTelling};

use crate::package::FastThreads;
use sa_abstract::{SeatState, Step, Tally, UserLevel};
use sa_base::{Note, Seen, SpaceNo, Stopped, ThreadNo, Trace};
use sa_package_model::Context;
use sa_spaces::SpaceDef;
use std::alloc::{AllocError, Global};

impl UserLevel for FastThreads {
    ghost use Rattle.sa_package_model.specs.Step.{fast_calls};
    ghost use Rattle.sa_package_model.specs.Stands.{fast_stands};
    ghost use Rattle.sa_package_model.proofs.Keeping.{fast_keeps};

    type Ctx = Context;

    ghost calls = { fast_calls };

    ghost stands = { fast_stands };

    ghost keeps = { fast_keeps };

    fn start(
        alloc: Global,
        space: SpaceNo,
        def: SpaceDef,
        processors: u16,
        fetch: u32,
    ) -> Result<FastThreads, AllocError> {
        FastThreads::start(alloc, space, def, processors, fetch)
    }

    fn begin(&mut self, _seen: &Seen) -> Context {
        Context::new()
    }

    fn told(&mut self, ctx: &mut Context, note: Note, held: Option<Stopped<Context>>)
        requires { IsTelling ⟦<FastThreads as UserLevel>⟧.stands self.old ctx.old note held }
        ensures { (self.new, ctx.new)
            ≡ ⟦<FastThreads as UserLevel>⟧.calls.told self.old ctx.old note held }
    {
        self.told(ctx, note, held);
    }

    fn answered(&mut self, seen: &Seen, ctx: &mut Context) {
        self.answered(seen, ctx);
    }

    fn step(&mut self, seen: &Seen, ctx: &mut Context, trace: &mut Trace) -> Step {
        self.step(seen, ctx, trace)
    }

    fn thread(&self, ctx: &Context) -> Option<ThreadNo> {
        ctx.state.thread()
    }

    fn idle(&self, ctx: &Context) -> bool {
        ctx.state.is_idle()
    }

    fn owes(&self, ctx: &Context) -> bool {
        ctx.state.is_inside()
    }

    fn in_section(&self, ctx: &Context) -> Option<u16> {
        self.in_section(ctx)
    }

    fn local(&self, ctx: &Context) -> SeatState {
        self.local(ctx)
    }

    fn went(&mut self, seen: &Seen, ctx: &mut Context, n: u16, trace: &mut Trace) {
        self.went(seen, ctx, n, trace);
    }

    fn tally(&self) -> Tally {
        self.tally()
    }
}
