// The calls but for the step.
ghost use Rattle.std.specs.Prelude.{◌≡◌, ◌+◌, ◌<◌, ◌^◌, IfOk};
ghost use Rattle.sa_abstract.specs.Setting.{Setting, IsSetting};
ghost use Rattle.sa_fast.specs.Rest.{is_ready};
ghost use Rattle.sa_package_model.specs.Conditions.{IsThread};
ghost use Rattle.sa_package_model.specs.Step.{tally};
ghost use Rattle.sa_driven_model.specs.Threads.{with_some, without_some};
ghost use Rattle.sa_driven_model.specs.Conditions.{CanBeTold, CanTakeOver};
ghost use Rattle.sa_driven_model.specs.Step.{started, told, told_of, handed_over, took_over, answered, local_at};

use crate::driven::Driven;
use crate::effects::add_some;
use sa_abstract::{SeatState, Tally};
use sa_base::{Note, Seen, SpaceNo, Stopped};
use sa_driven_model::{DrivenContext, DrivenSpace};
use sa_spaces::SpaceDef;
use std::alloc::{AllocError, Global};

impl Driven {
    /// The user level of a space at its opening: thread 0 is ready, and there is no reply. The space has this many processors
    /// at most, 1 to 16, and the fetch of a page takes `fetch` events, 1 to 1,000. Fails only where memory runs out; no other
    /// call can fail so.
    pub fn start(
        alloc: Global,
        space: SpaceNo,
        def: SpaceDef,
        processors: u16,
        fetch: u32,
    ) -> Result<Driven, AllocError>
        requires { IsSetting (record { space = space; def = def; processors = processors; fetch = fetch }) }
        ensures { let setting : Setting = record {
          space = space;
          def = def;
          processors = processors;
          fetch = fetch;
        } in IfOk result (λ user. user ≡ started setting) }
    {
        let space = DrivenSpace::open(alloc, space, def, processors, fetch)?;
        Ok(Driven { space })
    }

    /// The context is told a notice of its upcall. With `Preempted` and `Unblocked` comes the context that was stopped or
    /// unblocked, which it takes over.
    pub fn told(
        &mut self,
        ctx: &mut DrivenContext,
        note: Note,
        held: Option<Stopped<DrivenContext>>,
    )
        requires { CanBeTold ctx.old held }
        ensures { (self.new, ctx.new) ≡ told self.old ctx.old note held }
    {
        match note {
            Note::Add(_) | Note::Blocked(_) => {}
            Note::Preempted(_) => self.told_of(ctx, held),
            Note::Unblocked(_) => self.told_of(ctx, held),
        }
    }

    // The context is told of another one, if one comes with the notice.
    fn told_of(&mut self, ctx: &mut DrivenContext, held: Option<Stopped<DrivenContext>>)
        requires { CanBeTold ctx.old held }
        ensures { (self.new, ctx.new) ≡ told_of self.old ctx.old held }
    {
        if let Some(held) = held {
            self.hand_over(held.ctx.thread);
            take_over(ctx, &held.ctx);
        }
    }

    /// The context goes on after the last notice of its upcall, or after an entry of the kernel that it asked for.
    pub fn answered(&mut self, seen: &Seen, ctx: &mut DrivenContext)
        ensures { (self.new, ctx.new) ≡ answered self.old seen.now ctx.old }
    {
        if ctx.lowers {
            ctx.lowers = false;
            self.say_idle(ctx);
        } else {
            self.settle(seen, ctx);
        }
    }

    /// Where the context is, as far as its processor can go on by itself.
    pub fn local(&self, ctx: &DrivenContext) -> SeatState
        requires { IsThread ctx.now.thread }
        ensures { result ≡ local_at self.now ctx.now.inside ctx.now.thread }
    {
        if ctx.inside {
            return SeatState::Away;
        }
        match ctx.thread {
            None => SeatState::Away,
            Some(thread) => {
                let block = self.space.base.shared.threads.block(thread);
                SeatState::Local {
                    space: self.space.base.shared.state.space,
                    thread,
                    program: block.program,
                    pc: block.pc,
                    regs: block.regs,
                }
            }
        }
    }

    /// How many threads there are.
    pub fn tally(&self) -> Tally
        ensures { result ≡ tally self.now.base }
    {
        let shared = &self.space.base.shared;
        Tally {
            made: shared.state.lists.made(),
            done: shared.threads.done(),
            active: shared.threads.active(),
        }
    }
}

// The context gets the locks, the hand and the thread of another one.
fn take_over(ctx: &mut DrivenContext, other: &DrivenContext)
    requires { CanTakeOver ctx.old other.now }
    ensures { ctx.new ≡ took_over ctx.old other.now }
{
    ctx.locks += other.locks;
    ctx.hand.add_all(&other.hand);
    add_some(&mut ctx.hand, other.thread);
}
