// The check of a notice.
ghost use Rattle.std.specs.Prelude.{◌≡◌, IfSome};
ghost use Rattle.sa_copies.specs.Copies.{package_ops};
ghost use Rattle.sa_package_model.specs.Conditions.{CanTakeOver, CanBeTold};
ghost use Rattle.sa_package_model.specs.Step.{told, told_of};
ghost use Rattle.sa_package_model.specs.Context.{section_in};
ghost use Rattle.sa_package_model.specs.Rules.{pair, thread_alone, took_over};

use crate::package::FastThreads;
use crate::settling::place;
use sa_base::{Note, Stopped, ThreadNo};
use sa_code::{Code, Frame};
use sa_copies::copy_place;
use sa_fast::KeptPlace;
use sa_package_model::{Context, ContextState};

impl FastThreads {
    /// The context is told a notice of its upcall. With `Preempted` and `Unblocked` comes the context that was stopped or
    /// unblocked, which it takes over. It cannot fail for want of memory.
    pub fn told(&mut self, ctx: &mut Context, note: Note, held: Option<Stopped<Context>>)
        requires { CanBeTold self.old ctx.old note held }
        ensures { (self.new, ctx.new) ≡ told self.old ctx.old note held }
    {
        match note {
            Note::Add(_) | Note::Blocked(_) => {}
            Note::Preempted(_) => self.told_of(ctx, held),
            Note::Unblocked(_) => self.told_of(ctx, held),
        }
    }

    // The context is told of another one, if one comes with the notice.
    fn told_of(&mut self, ctx: &mut Context, held: Option<Stopped<Context>>)
        requires { IfSome held (λ s. CanTakeOver self.old ctx.old s.ctx) }
        ensures { pair self.new ctx.new ≡ told_of self.old ctx.old held }
    {
        if let Some(held) = held {
            self.take_over(ctx, &held.ctx);
        }
    }

    /// The context takes over what another one, which was stopped or blocked, had to do: its critical section and those
    /// that it had to continue, its work list, and, where it is in no section, its thread (SOSP 1991, section 3.3).
    pub fn take_over(&mut self, ctx: &mut Context, other: &Context)
        requires { CanTakeOver self.old ctx.old other.now }
        ensures { pair self.new ctx.new ≡ took_over self.old ctx.old other.now }
    {
        let thread = other.state.thread();
        place(&mut self.package.shared, thread, KeptPlace::Carried);
        let own = section_of(&self.package.shared.state.code, other.state);
        if let Some(frame) = own {
            ctx.sections.add(frame);
        }
        ctx.sections.append(&other.sections);
        self.package.shared.works.append(&mut ctx.work, other.work);
        self.put_last(ctx, thread_alone(own, thread));
    }
}

// The section in which a context is, or in whose copy, at the place of the copy.
fn section_of(code: &Code, state: ContextState) -> Option<Frame>
    requires { code.now ≡ package_ops }
    ensures { result ≡ section_in state }
{
    match state {
        ContextState::Code(mut frame) => {
            frame.pc = copy_place(code, frame.pc)?;
            Some(frame)
        }
        _ => None,
    }
}

// The thread of a context that is in no section.
fn thread_alone(own: Option<Frame>, thread: Option<ThreadNo>) -> Option<ThreadNo>
    ensures { result ≡ thread_alone own thread }
{
    if own.is_some() { None } else { thread }
}
