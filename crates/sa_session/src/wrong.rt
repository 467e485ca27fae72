// Why a reply is refused.
ghost use Rattle.std.specs.Prelude.{◌≡◌};
ghost use Rattle.sa_session.specs.Answer.{wrong_number};

use sa_base::Cause;

/// The first thing that is wrong with a reply.
#[derive(Clone, Copy)]
pub enum Wrong {
    /// The line is no reply, for this cause.
    Bad(Cause),
    /// The reply's needs do not hold: it is no step of the machine.
    NoStep,
}

impl Wrong {
    /// The number of the cause: 1 to 9, and 10 if the reply is no step.
    pub fn number(self) -> u8
        ensures { result ≡ wrong_number self }
    {
        match self {
            Wrong::Bad(cause) => cause.number(),
            Wrong::NoStep => 10,
        }
    }
}
