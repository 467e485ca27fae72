// A whole turn, and how a run ends.
ghost use Rattle.std.specs.Prelude.{◌≡◌, ℕ, ◌+◌, ◌≤◌, ◌<◌, ◌^◌, length, map, slice_index_or};
ghost use Rattle.std.specs.List.{range_with_len};
ghost use Rattle.std.specs.Option.{option_map};
ghost use Rattle.sa_base.specs.declared.limits.TheConstants.{MAX_SPACES};
ghost use Rattle.sa_devices.specs.Ios.{due_of, io_no};
ghost use Rattle.sa_vp_model.specs.Turn.{after_evictions, acts, counted, loss, turned, has_had_its_turn};
ghost use Rattle.sa_vp_model.specs.Needs.{CanAct, CanLose};
ghost use Rattle.sa_vp_model.specs.End.{is_done, is_stuck};
ghost use Rattle.sa_vp.specs.View.{board_of};
ghost use Rattle.sa_vp.specs.Room.{Spends};
ghost use Rattle.sa_vp.specs.Waits.{BlocksByIos, CountsWork};

use crate::board::{EVENT_ITEMS, Parts};
use sa_base::{ActNo, ProcNo, SpaceNo, Trace};
use sa_replay::Replay;

/// How many steps a virtual processor makes at most while others wait.
pub(crate) const QUANTUM: u32 = 100;

impl Parts {
    // Whether the virtual processor has made its steps while others wait.
    fn has_had_its_turn(&self, a: ActNo) -> bool
        requires inside { a.0 < length self.now.steps.items }
        requires queue { 1 ≤ length self.now.queue.lists }
        ensures { result ≡ has_had_its_turn (board_of self.now) a }
    {
        self.steps[a.0 as usize] >= QUANTUM && !self.queue.is_empty(0)
    }

    // What happens in an event whose evictions are done: the first that applies of four.
    fn act(&mut self, p: ProcNo)
        requires can { CanAct p (board_of self.old) }
        requires counted { CountsWork (board_of self.old) }
        requires io { 1 ≤ self.old.devices.ios.spare }
        requires room { EVENT_ITEMS ≤ self.old.trace.spare }
        ensures board { board_of self.new ≡ acts p (option_map io_no (due_of self.old.number self.old.devices.ios.under_way)) (board_of self.old) }
        ensures room { Spends self.old self.new }
    {
        if let Some(io) = self.devices.due(self.number) {
            self.complete(p, io);
            return;
        }
        let Some(a) = self.placed_on(p) else {
            self.place_first(p);
            return;
        };
        if self.has_had_its_turn(a) {
            self.relieve(p, a);
        } else {
            self.step(p, a);
        }
    }

    // The end of an event: each space loses as many of its ready threads as it has blocked virtual processors, and none where
    // no I/O is under way.
    fn count(&mut self)
        requires can { CanLose (board_of self.old) }
        requires ios { BlocksByIos (board_of self.old) }
        requires number { self.old.number < 2 ^ 63 }
        ensures board { board_of self.new ≡ counted (board_of self.old) }
        ensures trace { self.new.trace ≡ self.old.trace }
        ensures devices { self.new.devices ≡ self.old.devices }
    {
        self.number += 1;
        if self.devices.busy() {
            add_losses(&mut self.lost, &self.blocked, &self.replay);
        }
    }

    /// One event of the processor.
    pub(crate) fn turn(&mut self, p: ProcNo)
        requires can { CanAct p (after_evictions (board_of self.old)) }
        requires counted { CountsWork (board_of self.old) }
        requires few { (acts p (option_map io_no (due_of self.old.number self.old.devices.ios.under_way)) (after_evictions (board_of self.old))).number < 2 ^ 63 }
        requires lose { CanLose (acts p (option_map io_no (due_of self.old.number self.old.devices.ios.under_way)) (after_evictions (board_of self.old))) }
        requires ios { BlocksByIos (acts p (option_map io_no (due_of self.old.number self.old.devices.ios.under_way)) (after_evictions (board_of self.old))) }
        requires io { 1 ≤ self.old.devices.ios.spare }
        requires room { EVENT_ITEMS ≤ self.old.trace.spare }
        ensures board { board_of self.new ≡ turned p (board_of self.old) }
        ensures room { Spends self.old self.new }
    {
        self.devices.evict(self.number);
        self.act(p);
        self.count();
    }

    /// Whether each thread that was made is done.
    pub(crate) fn is_done(&self) -> bool
        ensures { result ≡ is_done (board_of self.now) }
    {
        self.replay.are_all_done()
    }

    /// The trace, and what each space has lost.
    pub(crate) fn into_losses(self) -> (Trace, Vec<u64>)
        ensures trace { result.0 ≡ self.trace }
        ensures lost { result.1 ≡ self.lost }
    {
        let Parts {
            replay,
            devices: _devices,
            queue: _queue,
            placed: _placed,
            threads: _threads,
            steps: _steps,
            ready: _ready,
            work: _work,
            due: _,
            blocked: _blocked,
            lost,
            trace,
            number: _,
        } = self;
        replay.discard();
        (trace, lost)
    }

    /// Whether nothing can happen any more.
    pub(crate) fn is_stuck(&self) -> bool
        ensures { result ≡ is_stuck (board_of self.now) }
    {
        self.replay.are_all_at_rest() && self.due == 0 && !self.devices.busy()
    }
}

// Adds to the losses of each space as many of its ready threads as it has blocked virtual processors.
fn add_losses(lost: &mut Vec<u64>, blocked: &Vec<u32>, replay: &Replay)
    requires spaces { length lost.old.items ≤ MAX_SPACES }
    requires same { length blocked.now.items ≡ length lost.old.items }
    requires few { (s : ℕ) → slice_index_or lost.old.items s 0 < 2 ^ 63 }
    ensures { lost.new.items ≡ map (λ s. slice_index_or lost.old.items s 0 + loss replay.now.state blocked.now.items s)
        (range_with_len 0 (length lost.old.items)) }
{
    for s in 0..lost.len() {
        lost[s] += loss(blocked, replay, s);
    }
}

// What a space loses in an event.
fn loss(blocked: &Vec<u32>, replay: &Replay, s: usize) -> u64
    requires inside { s < length blocked.now.items }
    requires few { s < MAX_SPACES }
    ensures loss { result ≡ loss replay.now.state blocked.now.items s }
    ensures small { result < 2 ^ 32 }
{
    if blocked[s] == 0 {
        return 0;
    }
    let ready = replay.ready_threads(SpaceNo(s as u16));
    u64::from(blocked[s]).min(u64::from(ready))
}
