// What comes next for a context.
ghost use Rattle.std.specs.Prelude.{◌≡◌, ◌<◌, Some, None};
ghost use Rattle.sa_fast.specs.Work.{IsWork};
ghost use Rattle.sa_package_model.specs.Conditions.{CanBeDue, IsThread};
ghost use Rattle.sa_package_model.specs.Context.{settled_to, is_left};
ghost use Rattle.sa_package_model.specs.Rules.{pair, load, owed, settled, placed, put_last};

use crate::package::FastThreads;
use sa_base::{BULK_RETURN, Seen, ThreadNo};
use sa_fast::{KeptPlace, Shared, more_owed};
use sa_package_model::{Context, ContextState};

impl FastThreads {
    /// How many threads are ready or run.
    pub(crate) fn load(&self) -> u32
        ensures { result ≡ load self.now }
    {
        u32::from(self.package.shared.threads.load())
    }

    /// How many more processors the space can use than it announced.
    pub(crate) fn owed(&self, seen: &Seen) -> Option<u16>
        ensures { result ≡ owed self.now seen.now }
    {
        more_owed(seen.demand, self.package.processors, self.load())
    }

    /// The context, which carries this thread, settles: it is decided what comes next for it.
    pub fn settle(&self, seen: &Seen, ctx: &mut Context, thread: Option<ThreadNo>)
        ensures { ctx.new ≡ settled self.now seen.now ctx.old thread }
    {
        let left = is_left(ctx);
        let owed = self.owed(seen).is_some();
        ctx.state = settled_to(thread, left, owed, seen.taken >= BULK_RETURN);
    }

    /// The context's thread, if there is one, comes last in its work list.
    pub fn put_last(&mut self, ctx: &mut Context, thread: Option<ThreadNo>)
        requires work { IsWork self.old.shared.works ctx.old.work }
        requires thread { CanBeDue self.old.shared thread }
        ensures { pair self.new ctx.new ≡ put_last self.old ctx.old thread }
    {
        place(&mut self.package.shared, thread, KeptPlace::Carried);
        if let Some(t) = thread {
            self.package.shared.works.add(&mut ctx.work, t);
        }
    }
}

// Whether the context has sections to continue, or threads to make ready.
fn is_left(ctx: &Context) -> bool
    ensures { result ≡ is_left ctx.now }
{
    ctx.sections.has_some() || ctx.work.is_some()
}

// What comes next for a context with this thread, where something is left to do, where a hint is owed, and where many
// activations are taken.
fn settled_to(thread: Option<ThreadNo>, left: bool, owed: bool, bulk: bool) -> ContextState
    ensures { result ≡ settled_to thread left owed bulk }
{
    match (thread, left, owed, bulk) {
        (_, true, _, _) => ContextState::Work(thread),
        (_, false, true, _) => ContextState::Hint(thread),
        (Some(t), false, false, _) => ContextState::User(t),
        (None, false, false, true) => ContextState::Return,
        (None, false, false, false) => ContextState::Look(0),
    }
}

/// A thread is elsewhere, if there is one.
pub(crate) fn place(shared: &mut Shared, thread: Option<ThreadNo>, place: KeptPlace)
    requires { IsThread thread }
    ensures { shared.new ≡ placed shared.old thread place }
{
    if let Some(t) = thread {
        shared.threads.set_place(t, place);
    }
}
