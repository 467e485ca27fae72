// A replay that follows a trace.
ghost use Rattle.std.specs.Prelude.{◌≡◌, length, OnOk};
ghost use Rattle.sa_laws.specs.State.{opening_state};
ghost use Rattle.sa_debug.specs.Reached.{CanPlay};
ghost use Rattle.sa_debug.specs.Views.{view_in, IsBehind};

use crate::script::View;
use sa_base::{Item, SpaceNo, ThreadNo};
use sa_replay::Replay;
use std::alloc::AllocError;
use std::marker::Model;

/// The abstract machine of threads after the first items of a trace.
pub(crate) struct Follower {
    replay: Replay,
    // how many items it has taken
    taken: usize,
}

impl Model for Follower {
    ghost use Rattle.sa_debug.specs.Views.{Followed};

    ghost Value = { Followed };

    ghost view = { λ f. record { workload = f.replay.workload; state = f.replay.state; taken = f.taken } };
}

impl Follower {
    /// Before any item.
    pub(crate) fn new(replay: Replay) -> Follower
        ensures workload { result.workload ≡ replay.workload }
        ensures state { result.state ≡ replay.state }
        ensures taken { result.taken ≡ 0 }
    {
        Follower { replay, taken: 0 }
    }

    /// Lets go of the follower, with its replay.
    pub(crate) fn discard(self) {
        let Follower { replay, taken: _ } = self;
        replay.discard();
    }

    /// Takes the items that are new. Where memory runs out it has taken some of them.
    pub(crate) fn follow(&mut self, items: &[Item]) -> Result<(), AllocError>
        requires behind { IsBehind self.old items.now }
        requires plays { CanPlay self.old.workload (opening_state self.old.workload) items.now }
        ensures ok { OnOk result (self.new.taken ≡ length items.now) }
        ensures behind { IsBehind self.new items.now }
        ensures workload { self.new.workload ≡ self.old.workload }
    {
        while self.taken < items.len() {
            let item = &items[self.taken];
            self.replay.change(item.proc, &item.what)?;
            self.taken += 1;
        }
        Ok(())
    }

    /// The thread; `None` exactly where it was not made.
    pub(crate) fn view(&self, s: SpaceNo, t: ThreadNo) -> Option<View>
        ensures { result ≡ view_in self.now.state s t }
    {
        if t.0 >= self.replay.made(s) {
            return None;
        }
        let thread = self.replay.thread(s, t);
        Some(View {
            place: thread.place(),
            pc: thread.pc(),
            regs: thread.regs(),
        })
    }
}
