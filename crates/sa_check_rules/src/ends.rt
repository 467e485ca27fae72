// The end: the law of the moment after an event.
ghost use Rattle.std.specs.Prelude.{◌↔◌, IsTrue};
ghost use Rattle.sa_laws.specs.Ends.{GoesOn, IsToldEnd};
ghost use Rattle.sa_check_moment.specs.Seen.{seen};

use sa_base::End;
use sa_check_moment::Moment;

/// The run goes on: some thread is not done, and something can happen.
#[inline(always)]
pub fn run_goes_on(moment: &Moment) -> bool
    ensures { IsTrue result ↔ GoesOn (seen moment.now).readings }
{
    !moment.are_all_done() && !moment.is_stuck()
}

/// This end is the one that comes here; the budget's, where the run would go on.
pub fn is_told_end(moment: &Moment, end: End) -> bool
    ensures { IsTrue result ↔ IsToldEnd (seen moment.now).readings end }
{
    match end {
        End::AllDone => moment.are_all_done(),
        End::Stuck => moment.is_stuck(),
        End::Budget => run_goes_on(moment),
    }
}
