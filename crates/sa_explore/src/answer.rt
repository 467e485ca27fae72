// What a search that stopped answers.
ghost use Rattle.std.specs.Prelude.{◌≤◌, IfOk};
ghost use Rattle.sa_keys.specs.Key.{key_of};
ghost use Rattle.sa_explore_runs.specs.Runs.{IsBegun};
ghost use Rattle.sa_explore.specs.Doing.{HasStopped, IsEndlessBy};
ghost use Rattle.sa_explore.specs.Explored.{IsExplored};

use crate::expand::StoppedSearch;
use crate::search::{Scope, Search};
use sa_explore_model::{Explored, Extent, Found};
use sa_keys::Keyed;
use sa_states::{MAX_STATES, answer, endless};
use std::alloc::{AllocError, Global};

impl Search {
    // What was found of the states from which no order of turns ends, where all were looked at. Fails only where memory runs out.
    fn endless<U: Keyed>(
        &self,
        alloc: Global,
        scope: &Scope,
        stopped: &StoppedSearch,
    ) -> Result<Option<Found>, AllocError>
        requires stopped { HasStopped U.calls U.plain (key_of U.value_key U.context_key)
            scope.now stopped.now.extent self.now stopped.now.at }
        requires few { scope.now.most ≤ MAX_STATES }
        ensures { IfOk result (IsEndlessBy stopped.now.extent scope.now self.now) }
    {
        match stopped.extent {
            Extent::Part => Ok(None),
            Extent::All => endless(
                alloc,
                scope.begun.as_slice(),
                scope.workload.processors(),
                self.store.states(),
                self.nexts.as_slice(),
            ),
        }
    }

    /// What is answered of all runs. Fails only where memory runs out.
    pub(crate) fn answer<U: Keyed>(
        &self,
        alloc: Global,
        scope: &Scope,
        stopped: &StoppedSearch,
    ) -> Result<Explored, AllocError>
        requires begins { IsBegun U.calls scope.now.workload scope.now.begun.items }
        requires stopped { HasStopped U.calls U.plain (key_of U.value_key U.context_key)
            scope.now stopped.now.extent self.now stopped.now.at }
        requires few { scope.now.most ≤ MAX_STATES }
        ensures { IfOk result (IsExplored U.calls U.plain scope.now.workload scope.now.most) }
    {
        scope.workload.ranges();
        let endless = self.endless::<U>(alloc, scope, stopped)?;
        let states = self.store.states();
        let at = stopped.at as usize;
        let mut explored = answer(alloc, scope.begun.as_slice(), states, stopped.extent, at)?;
        explored.endless = endless;
        Ok(explored)
    }
}
