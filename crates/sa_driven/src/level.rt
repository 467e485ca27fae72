// The driven user level as a user level.
ghost use Rattle.std.specs.Prelude.{◌≡◌};
ghost use Rattle.sa_abstract.specs.Keeps.{IsTelling};

use crate::driven::Driven;
use sa_abstract::{SeatState, Step, Tally, UserLevel};
use sa_base::{Note, Seen, SpaceNo, Stopped, ThreadNo, Trace};
use sa_driven_model::DrivenContext;
use sa_spaces::SpaceDef;
use std::alloc::{AllocError, Global};

impl UserLevel for Driven {
    ghost use Rattle.sa_driven_model.specs.Step.{driven_calls};
    ghost use Rattle.sa_driven_model.specs.Stands.{driven_stands};
    ghost use Rattle.sa_driven_model.proofs.Keeping.{driven_keeps};

    type Ctx = DrivenContext;

    ghost calls = { driven_calls };

    ghost stands = { driven_stands };

    ghost keeps = { driven_keeps };

    fn start(
        alloc: Global,
        space: SpaceNo,
        def: SpaceDef,
        processors: u16,
        fetch: u32,
    ) -> Result<Driven, AllocError> {
        Driven::start(alloc, space, def, processors, fetch)
    }

    fn begin(&mut self, _seen: &Seen) -> DrivenContext {
        DrivenContext::new()
    }

    fn told(&mut self, ctx: &mut DrivenContext, note: Note, held: Option<Stopped<DrivenContext>>)
        requires { IsTelling ⟦<Driven as UserLevel>⟧.stands self.old ctx.old note held }
        ensures { (self.new, ctx.new)
            ≡ ⟦<Driven as UserLevel>⟧.calls.told self.old ctx.old note held }
    {
        self.told(ctx, note, held);
    }

    fn answered(&mut self, seen: &Seen, ctx: &mut DrivenContext) {
        self.answered(seen, ctx);
    }

    fn step(&mut self, seen: &Seen, ctx: &mut DrivenContext, trace: &mut Trace) -> Step {
        self.step(seen, ctx, trace)
    }

    fn thread(&self, ctx: &DrivenContext) -> Option<ThreadNo> {
        ctx.thread
    }

    fn idle(&self, ctx: &DrivenContext) -> bool {
        !ctx.inside && ctx.thread.is_none()
    }

    fn owes(&self, ctx: &DrivenContext) -> bool {
        ctx.inside
    }

    fn in_section(&self, _ctx: &DrivenContext) -> Option<u16> {
        None
    }

    fn local(&self, ctx: &DrivenContext) -> SeatState {
        self.local(ctx)
    }

    fn went(&mut self, seen: &Seen, ctx: &mut DrivenContext, n: u16, trace: &mut Trace) {
        self.went(seen, ctx, n, trace);
    }

    fn tally(&self) -> Tally {
        self.tally()
    }
}
