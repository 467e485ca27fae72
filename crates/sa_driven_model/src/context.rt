// What an activation runs.
ghost use Rattle.std.specs.Prelude.{◌≡◌};
ghost use Rattle.sa_driven_model.specs.Context.{fresh};

use crate::threads::ThreadSet;
use sa_base::ThreadNo;

/// What an activation of a driven space runs.
#[derive(Drop)]
pub struct DrivenContext {
    /// The thread that it carries.
    pub thread: Option<ThreadNo>,
    /// How many locks of lists it has.
    pub locks: u32,
    /// It continues what was interrupted, and is not over with it.
    pub continues: bool,
    /// The threads that it is to make ready. Of these only those count that can be made ready.
    pub hand: ThreadSet,
    /// Its last step was the hint that its processor is idle.
    pub lowers: bool,
    /// It has something left to do, by what was so at the end of its last step.
    pub inside: bool,
}

impl DrivenContext {
    /// The context of a fresh activation.
    pub fn new() -> DrivenContext
        ensures { result ≡ fresh }
    {
        DrivenContext {
            thread: None,
            locks: 0,
            continues: false,
            hand: ThreadSet::new(),
            lowers: false,
            inside: false,
        }
    }
}
