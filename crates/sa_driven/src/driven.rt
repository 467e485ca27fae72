// The user level.
ghost use Rattle.std.specs.Prelude.{◌≡◌, Some};
ghost use Rattle.sa_driven_model.specs.Reply.{can};

use sa_base::Seen;
use sa_driven_model::{DrivenContext, DrivenSpace, Reply};
use std::marker::Model;

/// The user level of one address space that is driven from outside.
#[derive(Drop)]
pub struct Driven {
    pub(crate) space: DrivenSpace,
}

impl Model for Driven {
    ghost use Rattle.sa_driven_model.specs.declared.space.DrivenSpace.{DrivenSpace};

    ghost Value = { DrivenSpace };

    ghost view = { λ u. u.space };
}

impl Driven {
    /// What it keeps.
    pub fn space(&self) -> &DrivenSpace
        ensures { result.now ≡ self.now }
    {
        &self.space
    }

    /// Puts the reply that the next step does.
    pub fn put(&mut self, reply: Reply)
        ensures { self.new ≡ record self.old { reply = Some reply } }
    {
        self.space.reply = Some(reply);
    }

    /// Whether a context can do a reply in its next step.
    pub fn can(&self, seen: &Seen, ctx: &DrivenContext, reply: Reply) -> bool
        ensures { result ≡ can self.now seen.now ctx.now reply }
    {
        self.is_possible(seen, ctx, reply)
    }
}
