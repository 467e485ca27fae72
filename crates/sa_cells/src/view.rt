// What a moment shows, beside what the threads of each space wait on.
ghost use Rattle.std.specs.Prelude.{◌≡◌, IfOk};
ghost use Rattle.sa_laws.specs.Step.{Needs};
ghost use Rattle.sa_check_moment.specs.Seen.{seen, opened, at_event, behind_record};

use sa_base::{ProcNo, Record, RulesName};
use sa_check_moment::Moment;
use sa_replay::Replay;
use sa_spaces::Workload;
use std::alloc::{AllocError, Global};

/// What is read of a history at a moment: the moment, and the abstract machine of threads beside it.
#[derive(Drop)]
pub struct View {
    /// The moment.
    pub moment: Moment,
    /// What the threads of each space wait on at this moment, and the cells that they share.
    pub replay: Replay,
    pub ghost same_state: { replay.state ≡ (seen moment).readings.state },
    pub ghost same_workload: { replay.workload ≡ (seen moment).workload },
}

impl View {
    /// Before any record of a trace of this workload. Fails only where memory runs out.
    pub fn start(alloc: Global, rules: RulesName, workload: &Workload) -> Result<View, AllocError>
        ensures { IfOk result (λ view. seen view.moment ≡ opened rules workload.now) }
    {
        Ok(View {
            moment: Moment::start(alloc, rules, workload)?,
            replay: Replay::start(alloc, workload)?,
        })
    }

    /// An event of this number and processor begins.
    pub fn begin(self, number: u64, p: ProcNo) -> View
        ensures { seen result.moment ≡ at_event number p (seen self.moment) }
    {
        let View { mut moment, replay } = self;
        moment.begin(number, p);
        View { moment, replay }
    }

    /// Reads a record of an event of this number and processor, which the abstract machine can take. Fails where
    /// `Moment::read` fails.
    pub fn read(self, number: u64, p: ProcNo, what: &Record) -> Result<View, AllocError>
        requires { Needs (seen self.moment).workload p (seen self.moment).readings what.now }
        ensures { IfOk result (λ view. seen view.moment ≡ behind_record number p what.now (seen self.moment)) }
    {
        let View { moment, mut replay } = self;
        replay.change(p, what)?;
        let moment = moment.read(number, p, what)?;
        Ok(View { moment, replay })
    }
}
