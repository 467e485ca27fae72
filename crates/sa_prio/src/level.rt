// The package with thread priorities as a user level.
ghost use Rattle.std.specs.Prelude.{◌≡◌};
ghost use Rattle.sa_abstract.specs.Keeps.{IsTelling};

use crate::threads::PrioThreads;
use sa_abstract::{SeatState, Step, Tally, UserLevel};
use sa_base::{Note, Seen, SpaceNo, Stopped, ThreadNo, Trace};
use sa_prio_model::PrioContext;
use sa_spaces::SpaceDef;
use std::alloc::{AllocError, Global};

impl UserLevel for PrioThreads {
    ghost use Rattle.sa_prio_model.specs.Step.{prio_calls};
    ghost use Rattle.sa_prio_model.specs.Stands.{prio_stands};
    ghost use Rattle.sa_prio_model.proofs.Keeping.{prio_keeps};

    type Ctx = PrioContext;

    ghost calls = { prio_calls };

    ghost stands = { prio_stands };

    ghost keeps = { prio_keeps };

    fn start(
        alloc: Global,
        space: SpaceNo,
        def: SpaceDef,
        processors: u16,
        fetch: u32,
    ) -> Result<PrioThreads, AllocError> {
        PrioThreads::start(alloc, space, def, processors, fetch)
    }

    fn begin(&mut self, seen: &Seen) -> PrioContext {
        self.begin(seen)
    }

    fn told(&mut self, ctx: &mut PrioContext, note: Note, held: Option<Stopped<PrioContext>>)
        requires { IsTelling ⟦<PrioThreads as UserLevel>⟧.stands self.old ctx.old note held }
        ensures { (self.new, ctx.new)
            ≡ ⟦<PrioThreads as UserLevel>⟧.calls.told self.old ctx.old note held }
    {
        self.told(ctx, note, held);
    }

    fn answered(&mut self, seen: &Seen, ctx: &mut PrioContext) {
        self.answered(seen, ctx);
    }

    fn step(&mut self, seen: &Seen, ctx: &mut PrioContext, trace: &mut Trace) -> Step {
        self.step(seen, ctx, trace)
    }

    fn thread(&self, ctx: &PrioContext) -> Option<ThreadNo> {
        ctx.base.state.thread()
    }

    fn idle(&self, ctx: &PrioContext) -> bool {
        ctx.base.state.is_idle() && !ctx.urge
    }

    fn owes(&self, ctx: &PrioContext) -> bool {
        ctx.base.state.is_inside() || ctx.urge
    }

    fn in_section(&self, ctx: &PrioContext) -> Option<u16> {
        self.base.in_section(&ctx.base)
    }

    fn local(&self, ctx: &PrioContext) -> SeatState {
        self.local(ctx)
    }

    fn went(&mut self, seen: &Seen, ctx: &mut PrioContext, n: u16, trace: &mut Trace) {
        self.base.went(seen, &ctx.base, n, trace);
    }

    fn tally(&self) -> Tally {
        self.base.tally()
    }
}
