// What a turn asks of a user level that does what replies say.
ghost use Rattle.std.specs.Prelude.{◌≡◌, ◌<◌, length};
ghost use Rattle.sa_asked.specs.Questions.{steps_in, question, can_reply, put_reply};
ghost use Rattle.sa_core.specs.View.{machine};

use crate::run::Core;
use sa_abstract::UserLevel;
use sa_asked::{Asked, Question};
use sa_base::{ProcNo, SpaceNo};

impl<U: UserLevel> Core<U> {
    // The space of which the turn of the processor is a step, if it is one.
    fn steps_in(&self, p: ProcNo) -> Option<SpaceNo>
        requires { p.0 < (machine self.now).workload.processors }
        ensures { result ≡ steps_in (machine self.now) p }
    {
        let kernel = &self.machine.kernel;
        if kernel.line(p).is_some() || kernel.due(self.machine.events + 1).is_some() {
            return None;
        }
        kernel.owner(p)
    }

    /// What the turn of the processor asks: `None` exactly where it is no step of a context, but an interrupt, the end
    /// of an I/O or a tick.
    pub fn asks(&self, p: ProcNo) -> Option<Question>
        requires { p.0 < (machine self.now).workload.processors }
        ensures { result ≡ question U.calls (machine self.now) p }
    {
        let space = self.steps_in(p)?;
        let kernel = &self.machine.kernel;
        let act = kernel.life(p)?;
        let ctx = self.running(p)?;
        Some(Question {
            space,
            act,
            thread: self.user(space).thread(ctx),
            demand: kernel.demands()[usize::from(space.0)],
            taken: kernel.taken(space),
        })
    }
}

impl<U: Asked> Core<U> {
    /// Whether the step of the processor's turn can do a reply; `false` where the turn is no step.
    pub fn can(&self, p: ProcNo, reply: U::Reply) -> bool
        requires { p.0 < (machine self.now).workload.processors }
        ensures { result ≡ can_reply U.replies (machine self.now) p reply }
    {
        let Some(s) = self.steps_in(p) else {
            return false;
        };
        let Some(ctx) = self.running(p) else {
            return false;
        };
        let seen = self.machine.kernel.seen(p, self.machine.events + 1);
        self.machine.users.can(s, &seen, ctx, reply)
    }

    /// Puts the reply that the next step of the space does. It changes nothing else, and takes no memory.
    pub fn put(&mut self, s: SpaceNo, reply: U::Reply)
        requires { s.0 < length (machine self.old).users }
        ensures machine { machine self.new ≡ put_reply U.replies s reply (machine self.old) }
        ensures budget { self.new.budget ≡ self.old.budget }
        ensures spare { self.new.spare ≡ self.old.spare }
    {
        self.machine.users.put(s, reply);
    }
}
