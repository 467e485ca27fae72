// User levels that do what replies say.
ghost use Rattle.std.specs.Prelude.{◌≡◌};
ghost use Rattle.sa_asked.specs.Replies.{Replies, KeepsReplies};

use sa_abstract::UserLevel;
use sa_base::Seen;

/// A user level that is asked before each step of a context, and does in that step what the reply says.
pub trait Asked: UserLevel {
    /// What a step is told to do.
    type Reply: Copy;

    /// What a reply changes, and which can be done.
    ghost replies: { Replies Self Self.Ctx Self.Reply };

    /// Two values are the same but for the replies.
    ghost alike: { Self → Self → Type 0 };

    /// Puts the reply that the next step of the space does.
    fn put(&mut self, reply: Self::Reply)
        ensures { self.new ≡ replies.put self.old reply };

    /// Whether the next step of a context can do a reply. It does not look at the pages.
    fn can(&self, seen: &Seen, ctx: &Self::Ctx, reply: Self::Reply) -> bool
        ensures { result ≡ replies.can self.now seen.now ctx.now reply };

    /// A reply leaves all else as it is.
    ghost keeps_replies: { KeepsReplies Self.calls Self.stands replies alike };
}
