// What is credited to a processor, and the number that hands it over.
ghost use Rattle.std.specs.Prelude.{◌≡◌, ◌≤◌};
ghost use Rattle.sa_lines.specs.Credit.{fresh_account, credited, number_of};
ghost use Rattle.sa_base.specs.declared.limits.TheConstants.{MAX_EVENTS};

use sa_base::{End, MAX_EVENTS};

/// What was credited to a processor.
#[derive(Clone, Copy)]
pub struct Account {
    /// How many turns, 0 to 1,000,000.
    pub count: u64,
    /// How the run ended, once that is told.
    pub end: Option<End>,
}

/// What the keeper hands over to a poller.
#[derive(Clone, Copy)]
pub enum Credit {
    /// So many turns, 1 to 1,000,000.
    Turns(u64),
    /// The end of the run.
    End(End),
}

impl Account {
    /// An account to which nothing was credited.
    pub(crate) fn new() -> Account
        ensures { result ≡ fresh_account }
    {
        Account {
            count: 0,
            end: None,
        }
    }

    /// Applies a credit.
    pub(crate) fn apply(&mut self, what: Credit)
        requires { (credited what self.old).count ≤ MAX_EVENTS }
        ensures { self.new ≡ credited what self.old }
    {
        match what {
            Credit::Turns(n) => self.count += n,
            Credit::End(end) => self.end = Some(end),
        }
    }
}

impl Credit {
    /// The number that stands for the credit in a credit word.
    pub(crate) fn number(self) -> u64
        ensures { result ≡ number_of self }
    {
        match self {
            Credit::Turns(n) => n,
            Credit::End(End::AllDone) => MAX_EVENTS + 1,
            Credit::End(End::Stuck) => MAX_EVENTS + 2,
            Credit::End(End::Budget) => MAX_EVENTS + 3,
        }
    }
}
