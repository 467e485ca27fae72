// What the calls have in common.
ghost use Rattle.std.specs.Prelude.{◌≡◌};
ghost use Rattle.sa_fast.specs.declared.threads.KeptPlace.TheVariants.{Blocked};
ghost use Rattle.sa_package_model.specs.Conditions.{IsThread};
ghost use Rattle.sa_driven_model.specs.Threads.{with_some, without_some};
ghost use Rattle.sa_driven_model.specs.Context.{has_hand, is_bound, hints, settled, goes_on, says_idle};
ghost use Rattle.sa_driven_model.specs.Step.{moved, handed_over, picked_up, faults};

use crate::driven::Driven;
use sa_base::{BULK_RETURN, PACKAGE_PAGE, Seen, ThreadNo, has_page};
use sa_driven_model::{DrivenContext, ThreadSet};
use sa_fast::{KeptPlace, more_owed};

impl Driven {
    /// A thread is elsewhere, if there is one.
    pub(crate) fn move_to(&mut self, thread: Option<ThreadNo>, place: KeptPlace)
        requires { IsThread thread }
        ensures { self.new ≡ moved self.old thread place }
    {
        if let Some(t) = thread {
            self.space.base.shared.threads.set_place(t, place);
        }
    }

    /// A thread is put down, if there is one: it can be made ready.
    pub(crate) fn hand_over(&mut self, thread: Option<ThreadNo>)
        requires { IsThread thread }
        ensures { self.new ≡ handed_over self.old thread }
    {
        self.move_to(thread, KeptPlace::Carried);
        add_some(&mut self.space.handed, thread);
    }

    /// A thread is elsewhere, if there is one, and can no longer be made ready.
    pub(crate) fn pick_up(&mut self, thread: Option<ThreadNo>, place: KeptPlace)
        requires { IsThread thread }
        ensures { self.new ≡ picked_up self.old thread place }
    {
        self.move_to(thread, place);
        if let Some(t) = thread {
            self.space.handed.remove(t);
        }
    }

    /// At the end of a step it is decided what comes next.
    pub(crate) fn settle(&self, seen: &Seen, ctx: &mut DrivenContext)
        ensures { ctx.new ≡ settled self.now seen.now ctx.old }
    {
        ctx.inside = self.has_hand(ctx) || is_bound(ctx) || self.hints(seen, ctx);
    }

    /// The same after an instruction after which the thread runs on: no hint counts.
    pub(crate) fn go_on(&self, ctx: &mut DrivenContext)
        ensures { ctx.new ≡ goes_on self.now ctx.old }
    {
        ctx.inside = self.has_hand(ctx) || is_bound(ctx);
    }

    /// The context says that it is idle.
    pub(crate) fn say_idle(&self, ctx: &mut DrivenContext)
        ensures { ctx.new ≡ says_idle self.now ctx.old }
    {
        ctx.inside = self.has_hand(ctx);
    }

    // Whether some thread of its hand can be made ready.
    fn has_hand(&self, ctx: &DrivenContext) -> bool
        ensures { result ≡ has_hand self.now ctx.now }
    {
        ctx.hand.shares(&self.space.handed)
    }

    // Whether the space announced less than it can use; or there is no thread, and many activations are taken.
    fn hints(&self, seen: &Seen, ctx: &DrivenContext) -> bool
        ensures { result ≡ hints self.now seen.now ctx.now }
    {
        let load = u32::from(self.space.base.shared.threads.load());
        more_owed(seen.demand, self.space.base.processors, load).is_some()
            || (ctx.thread.is_none() && BULK_RETURN <= seen.taken)
    }
}

// Whether the context has a lock, or continues what was interrupted.
fn is_bound(ctx: &DrivenContext) -> bool
    ensures { result ≡ is_bound ctx.now }
{
    0 < ctx.locks || ctx.continues
}

/// Whether what touches the ready lists is a block for the package's page.
pub(crate) fn faults(seen: &Seen, ctx: &DrivenContext) -> bool
    ensures { result ≡ faults seen.now ctx.now }
{
    0 < ctx.locks && !has_page(seen.pages, PACKAGE_PAGE)
}

/// Puts a thread into a set, if there is one.
pub(crate) fn add_some(set: &mut ThreadSet, thread: Option<ThreadNo>)
    requires { IsThread thread }
    ensures { set.new ≡ with_some set.old thread }
{
    if let Some(t) = thread {
        set.add(t);
    }
}
