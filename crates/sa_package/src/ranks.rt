// The ranks of threads.
ghost use Rattle.std.specs.Prelude.{◌≡◌, ◌<◌, length};
ghost use Rattle.std.specs.Option.{option_map};
ghost use Rattle.sa_lists.specs.ReadyView.{newest};
ghost use Rattle.sa_fast.specs.Threads.{block_at};

use crate::package::FastThreads;
use sa_base::{MAX_THREADS, ProcNo, SpaceNo, ThreadNo};

impl FastThreads {
    /// The rank of a thread: the number of its program.
    pub fn rank(&self, t: ThreadNo) -> u16
        requires { t.0 < MAX_THREADS }
        ensures { result ≡ (block_at self.now.shared.threads t.0).program }
    {
        self.package.shared.threads.block(t).program
    }

    /// The rank of the first thread in list 0, which none of that list outranks where they are in the order of their ranks: `None`
    /// exactly where that list is empty. It takes constant time.
    pub fn first_rank(&self) -> Option<u16>
        requires list { 0 < length self.now.shared.state.lists.lists }
        requires threads { self.now.shared.state.lists.threads ≡ MAX_THREADS }
        ensures { result ≡ option_map (λ n. (block_at self.now.shared.threads n).program)
            (newest self.now.shared.state.lists 0) }
    {
        let first = self.package.shared.state.lists.first(ProcNo(0))?;
        Some(self.rank(first))
    }

    /// The space whose threads these are.
    pub fn space(&self) -> SpaceNo
        ensures { result ≡ self.now.shared.state.space }
    {
        self.package.shared.state.space
    }
}
