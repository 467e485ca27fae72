// The closing of an event.
ghost use Rattle.std.specs.Prelude.{◌≡◌, ◌+◌, ◌*◌, ◌≤◌, ◌<◌, ◌&&◌, length, is_some, Some, None, IfSome, slice_index_or};
ghost use Rattle.std.specs.List.{list_any};
ghost use Rattle.sa_assign.specs.Aims.{aimed, least_below};
ghost use Rattle.sa_base.specs.Recorded.{Adds};

use crate::parts::{Parts, is_owner};
use arrayvec::ArrayVec;
use sa_assign::AIM_ITEMS;
use sa_base::{Item, MAX_SPACES, Note, ProcNo, Record, SpaceNo, Trace};
use sa_share::Claim;

/// The most items that a closing says: a want and a line of each space, and the new aims.
pub(crate) const CLOSING_ITEMS: usize = 2 * MAX_SPACES + AIM_ITEMS;

impl<C: Drop> Parts<C> {
    ghost use Rattle.sa_kernel.specs.View.{state_of, scene_of, Spends};
    ghost use Rattle.sa_kernel.specs.Needs.{HasProc, HasSpace};
    ghost use Rattle.sa_kernel_model.specs.Sound.{HasSizes};
    ghost use Rattle.sa_kernel_model.specs.Closing.{calls_for, must_want, want_for, wants, claim_of, claims, first_space, aims, is_told_by, has_low_line, must_interrupt, interrupt_for, lines, closed};

    // Whether the space must be told this even where it wants no processor.
    fn calls_for(&self, note: Note) -> bool
        ensures { result ≡ calls_for (state_of self.now) note }
    {
        match note {
            Note::Add(_) => false,
            Note::Preempted(a) => match self.acts.held(a) {
                None => true,
                Some(held) => !held.idle,
            },
            Note::Blocked(_) => false,
            Note::Unblocked(_) => true,
        }
    }

    /// Whether the space must be told some of this even where it wants no processor.
    pub(crate) fn some_calls(&self, notes: &[Note]) -> bool
        ensures { result ≡ list_any (calls_for (state_of self.now)) notes.now }
    {
        for note in notes {
            if self.calls_for(*note) {
                return true;
            }
        }
        false
    }

    // Whether the space wants no processor, and must be told something.
    fn must_want(&self, s: SpaceNo) -> bool
        requires { HasSpace (state_of self.now) s }
        ensures { result ≡ must_want (state_of self.now) s.0 }
    {
        self.demands[usize::from(s.0)] == 0 && self.some_calls(self.notices.untold(s))
    }

    // A space that must be told something wants one processor.
    fn want_one(&mut self, event: u64, p: ProcNo, s: SpaceNo, trace: &mut Trace)
        requires space { HasSpace (state_of self.old) s }
        requires trace { 1 ≤ trace.old.spare }
        ensures exact { scene_of self.new trace.new ≡ want_for event p s.0 (scene_of self.old trace.old) }
        ensures sizes { HasSizes (state_of self.new) }
        ensures spaces { length self.new.demands.items ≡ length self.old.demands.items }
        ensures room { Spends self.old self.new 0 0 0 }
        ensures items { Adds 1 trace.old trace.new }
    {
        if self.must_want(s) {
            self.demands[usize::from(s.0)] = 1;
            trace.say(event, p, Record::Want(s, 1));
        }
    }

    // What the space claims.
    fn claim(&self, s: SpaceNo) -> Claim
        requires { HasSpace (state_of self.now) s }
        ensures { result ≡ claim_of (state_of self.now) s.0 }
    {
        let demand = self.demands[usize::from(s.0)];
        Claim {
            priority: self.priorities[usize::from(s.0)],
            want: if self.devices.fetching(s) {
                demand.min(self.assign.aimed(s) as u16)
            } else {
                demand
            },
        }
    }

    // What each space claims.
    fn claims(&self) -> ArrayVec<Claim, MAX_SPACES>
        requires { HasSizes (state_of self.now) }
        ensures { result.items ≡ claims (state_of self.now) }
    {
        let mut claims = ArrayVec::new();
        for s in 0..self.demands.len() {
            claims.push(self.claim(SpaceNo(s as u16)));
        }
        claims
    }

    /// The space whose turn it is to be served first.
    pub(crate) fn first_space(&self, event: u64) -> u16
        requires { HasSizes (state_of self.now) }
        ensures is { result ≡ first_space (state_of self.now) event }
        ensures within { result < length self.now.demands.items }
    {
        if self.slice == 0 {
            return 0;
        }
        (event / u64::from(self.slice) % self.demands.len() as u64) as u16
    }

    // Each space that must be told something wants a processor.
    fn want_all(&mut self, event: u64, p: ProcNo, trace: &mut Trace)
        requires sizes { HasSizes (state_of self.old) }
        requires trace { MAX_SPACES ≤ trace.old.spare }
        ensures exact { scene_of self.new trace.new ≡ wants event p (scene_of self.old trace.old) }
        ensures sizes { HasSizes (state_of self.new) }
        ensures room { Spends self.old self.new 0 0 0 }
        ensures items { Adds MAX_SPACES trace.old trace.new }
    {
        for s in 0..self.demands.len() {
            self.want_one(event, p, SpaceNo(s as u16), trace);
        }
    }

    // The aims follow the shares.
    fn aim(&mut self, event: u64, p: ProcNo, trace: &mut Trace)
        requires sizes { HasSizes (state_of self.old) }
        requires trace { AIM_ITEMS ≤ trace.old.spare }
        ensures exact { scene_of self.new trace.new ≡ aims event p (scene_of self.old trace.old) }
        ensures sizes { HasSizes (state_of self.new) }
        ensures room { Spends self.old self.new 0 0 0 }
        ensures items { Adds AIM_ITEMS trace.old trace.new }
    {
        let claims = self.claims();
        let first = self.first_space(event);
        let item = Item {
            event,
            proc: p,
            what: Record::Tick,
        };
        self.assign.reaim(&claims, first, item, trace);
    }

    // Whether this processor of the space, with a raised line, is aimed at it.
    fn is_told_by(&self, s: SpaceNo, q: ProcNo) -> bool
        requires { HasProc (state_of self.now) q }
        ensures { result ≡ is_told_by (state_of self.now) s.0 q.0 }
    {
        is_owner(self.assign.owner(q), s)
            && is_owner(self.assign.aim(q), s)
            && self.assign.line(q).is_some()
    }

    /// Whether the space owns this processor, whose line is low.
    pub(crate) fn has_low_line(&self, s: SpaceNo, q: ProcNo) -> bool
        requires { HasProc (state_of self.now) q }
        ensures { result ≡ has_low_line (state_of self.now) s.0 q.0 }
    {
        is_owner(self.assign.owner(q), s) && self.assign.line(q).is_none()
    }

    // Whether a processor of the space is to be interrupted by which it is told.
    fn is_told(&self, s: SpaceNo) -> bool
        requires { HasSizes (state_of self.now) }
        ensures { result ≡ is_some (least_below (length self.now.lives.items) (is_told_by (state_of self.now) s.0)) }
    {
        for q in 0..self.assign.processors() {
            if self.is_told_by(s, ProcNo(q)) {
                return true;
            }
        }
        false
    }

    // The lowest-numbered processor of the space with a low line.
    fn first_low(&self, s: SpaceNo) -> Option<u16>
        requires { HasSizes (state_of self.now) }
        ensures is { result ≡ least_below (length self.now.lives.items) (has_low_line (state_of self.now) s.0) }
        ensures low { IfSome result (λ q. (q < length self.now.lives.items)
            × (slice_index_or self.now.assign.lines q None ≡ None)) }
    {
        for q in 0..self.assign.processors() {
            if self.has_low_line(s, ProcNo(q)) {
                return Some(q);
            }
        }
        None
    }

    // Whether the space has something to be told and would not be told it.
    fn must_interrupt(&self, s: SpaceNo) -> bool
        requires { HasSpace (state_of self.now) s }
        ensures { result ≡ must_interrupt (state_of self.now) s.0 }
    {
        self.notices.has_untold(s) && !self.devices.fetching(s) && !self.is_told(s)
    }

    // A processor of a space is interrupted, if the space must be told something.
    fn interrupt_for(&mut self, event: u64, p: ProcNo, s: SpaceNo, trace: &mut Trace)
        requires space { HasSpace (state_of self.old) s }
        requires trace { 1 ≤ trace.old.spare }
        ensures exact { scene_of self.new trace.new ≡ interrupt_for event p s.0 (scene_of self.old trace.old) }
        ensures sizes { HasSizes (state_of self.new) }
        ensures spaces { length self.new.demands.items ≡ length self.old.demands.items }
        ensures room { Spends self.old self.new 0 0 0 }
        ensures items { Adds 1 trace.old trace.new }
    {
        if self.must_interrupt(s) {
            if let Some(q) = self.first_low(s) {
                self.raise(event, p, ProcNo(q), trace);
            }
        }
    }

    // Each space that must be told something has a processor interrupted.
    fn interrupt_all(&mut self, event: u64, p: ProcNo, trace: &mut Trace)
        requires sizes { HasSizes (state_of self.old) }
        requires trace { MAX_SPACES ≤ trace.old.spare }
        ensures exact { scene_of self.new trace.new ≡ lines event p (scene_of self.old trace.old) }
        ensures sizes { HasSizes (state_of self.new) }
        ensures room { Spends self.old self.new 0 0 0 }
        ensures items { Adds MAX_SPACES trace.old trace.new }
    {
        for s in 0..self.demands.len() {
            self.interrupt_for(event, p, SpaceNo(s as u16), trace);
        }
    }

    /// The closing of an event.
    pub(crate) fn close(&mut self, event: u64, p: ProcNo, trace: &mut Trace)
        requires sizes { HasSizes (state_of self.old) }
        requires trace { CLOSING_ITEMS ≤ trace.old.spare }
        ensures exact { scene_of self.new trace.new ≡ closed event p (scene_of self.old trace.old) }
        ensures room { Spends self.old self.new 0 0 0 }
        ensures items { Adds CLOSING_ITEMS trace.old trace.new }
    {
        self.want_all(event, p, trace);
        self.aim(event, p, trace);
        self.interrupt_all(event, p, trace);
    }
}
