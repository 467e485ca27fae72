// Which replies can be done.
ghost use Rattle.std.specs.Prelude.{◌≡◌};
ghost use Rattle.sa_driven_model.specs.Reply.{is_held, can_cont, can_want, can_interrupt, can};
ghost use Rattle.sa_fast.specs.Rest.{is_ready, place_at};

use crate::driven::Driven;
use sa_base::{ProcNo, Seen, ThreadNo, has_bit};
use sa_driven_model::{DrivenContext, Reply};
use sa_fast::KeptPlace;

impl Driven {
    /// Whether the needs of a reply are met.
    pub(crate) fn is_possible(&self, seen: &Seen, ctx: &DrivenContext, reply: Reply) -> bool
        ensures { result ≡ can self.now seen.now ctx.now reply }
    {
        match reply {
            Reply::Ins => ctx.thread.is_some(),
            Reply::Run(t) => ctx.thread.is_none() && self.is_ready(t),
            Reply::Ready(t) => self.space.handed.has(t),
            Reply::Cont(t) => ctx.thread.is_none() && self.can_cont(t),
            Reply::Back | Reply::Idle => true,
            Reply::Take(list) | Reply::Free(list) | Reply::Spin(list) => {
                list.0 < self.space.base.processors
            }
            Reply::Want(n) => self.can_want(seen, n),
            Reply::GiveBack => 0 < seen.taken,
            Reply::Line(q) => self.can_interrupt(seen, q),
        }
    }

    // Where a thread is; one past all counts as not made.
    fn place(&self, t: ThreadNo) -> KeptPlace
        ensures { result ≡ place_at self.now.base.shared t.0 }
    {
        let blocks = self.space.base.shared.threads.blocks();
        if usize::from(t.0) < blocks.len() {
            blocks[usize::from(t.0)].place
        } else {
            KeptPlace::Unmade
        }
    }

    // Whether a thread is ready.
    fn is_ready(&self, t: ThreadNo) -> bool
        ensures { result ≡ is_ready (place_at self.now.base.shared t.0) }
    {
        matches!(self.place(t), KeptPlace::Ready)
    }

    // Whether a thread can be continued, if there is one.
    fn can_cont(&self, t: Option<ThreadNo>) -> bool
        ensures { result ≡ can_cont self.now t }
    {
        match t {
            None => true,
            Some(t) => self.is_held(t),
        }
    }

    // Whether a thread was stopped or unblocked, of which the space was told.
    fn is_held(&self, t: ThreadNo) -> bool
        ensures { result ≡ is_held (place_at self.now.base.shared t.0) }
    {
        matches!(self.place(t), KeptPlace::Carried)
    }

    // Whether a hint can announce so many processors.
    fn can_want(&self, seen: &Seen, n: u16) -> bool
        ensures { result ≡ can_want self.now seen.now n }
    {
        (seen.demand < n && n <= self.space.base.processors)
            || u32::from(n) + 1 == u32::from(seen.demand)
    }

    // Whether a processor can be interrupted.
    fn can_interrupt(&self, seen: &Seen, q: ProcNo) -> bool
        ensures { result ≡ can_interrupt self.now seen.now q.0 }
    {
        q.0 != seen.proc.0 && q.0 < self.space.base.processors && has_bit(seen.low, q.0)
    }
}
