// The driven user level as one that does what replies say.
use crate::driven::Driven;
use sa_asked::Asked;
use sa_base::Seen;
use sa_driven_model::{DrivenContext, Reply};

impl Asked for Driven {
    ghost use Rattle.sa_driven.specs.Replies.{driven_replies, are_alike};
    ghost use Rattle.sa_driven.specs.RepliesKeep.{driven_keeps_replies};

    type Reply = Reply;

    ghost replies = { driven_replies };

    ghost alike = { are_alike };

    ghost keeps_replies = { driven_keeps_replies };

    fn put(&mut self, reply: Reply) {
        self.put(reply);
    }

    fn can(&self, seen: &Seen, ctx: &DrivenContext, reply: Reply) -> bool {
        self.can(seen, ctx, reply)
    }
}
