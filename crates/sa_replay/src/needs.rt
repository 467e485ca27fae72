// Which records the abstract machine can do.
ghost use Rattle.std.specs.Prelude.{◌≡◌, ◌<◌, ◌↔◌, true, Some, None, IsTrue, is_some};
ghost use Rattle.sa_laws.specs.State.{instr_of, next_instr, owner_at};
ghost use Rattle.sa_laws.specs.Step.{IsRunner, NobodyRuns, StandsIn, IsValueOf, IsBehindOut, CanBeReady};
ghost use Rattle.sa_replay.specs.Needs.{IsTouchedIn, IsMissedIn, IsFaultingIn, CanInsWith, HasCauseIn, CanBlockWith, CanUnblockWith, NeedsWith, CanChange, length_before, locks_one_of};

use crate::beyond::{Beyond, LifeSeen};
use crate::replay::Replay;
use sa_base::{PACKAGE_PAGE, ProcNo, Record, SpaceNo, ThreadNo, has_page};
use sa_instr::{Instr, Regs};
use sa_laws::Place;

impl Replay {
    /// Whether the needs of a record of processor `p` hold.
    #[inline(always)]
    pub fn allows(&self, p: ProcNo, what: &Record, beyond: &Beyond) -> bool
        ensures needs { IsTrue result ↔ NeedsWith self.now.workload p self.now.state beyond.now what.now }
        ensures change { IsTrue result → CanChange self.now.workload p self.now.state what.now }
    {
        match *what {
            Record::Ins(s, t, place) => self.can_ins(p, s, t, place, beyond.pages),
            Record::Out(s, t, value) => self.can_out(p, s, t, value, beyond.last),
            Record::Stop(s, t, _) => self.is_owned(p, s) && self.is_runner(p, s, t),
            Record::Block(s, t, _, _) => self.can_block(p, s, t, beyond),
            Record::Unblock(s, t, _) => self.can_unblock(s, t, beyond),
            Record::Cont(s, t) => {
                self.is_owned(p, s) && self.nobody_runs(p) && self.stands_in(Place::Carried, s, t)
            }
            Record::Back(s, t) => self.is_owned(p, s) && self.is_runner(p, s, t),
            Record::Run(s, t) => {
                self.is_owned(p, s)
                    && self.nobody_runs(p)
                    && self.stands_in(Place::Ready, s, Some(t))
            }
            Record::Ready(s, t) => self.is_owned(p, s) && self.can_be_ready(s, t),
            Record::Move(old, _) => self.owner(p) == old && self.nobody_runs(p),
            _ => true,
        }
    }

    /// Whether the thread can run the instruction at this place on the processor, with these pages of its space resident.
    #[inline(always)]
    pub fn can_ins(&self, p: ProcNo, s: SpaceNo, t: ThreadNo, place: u16, pages: u16) -> bool
        ensures { IsTrue result ↔ CanInsWith self.now.workload p self.now.state s t place pages }
    {
        let thread = self.thread(s, t);
        self.is_owned(p, s)
            && thread.place() == Place::Running(p)
            && thread.pc() == place
            && place < self.program_len(s, t)
            && is_touched(self.instr_of(s, t, place), pages)
    }

    /// Whether an `out` of the thread comes directly before, with this value, on a processor that its space owns.
    pub fn can_out(
        &self,
        p: ProcNo,
        s: SpaceNo,
        t: ThreadNo,
        value: u64,
        last: Option<Record>,
    ) -> bool
        ensures { IsTrue result ↔ ((owner_at self.now.state p ≡ Some s)
            × IsBehindOut self.now.workload self.now.state s t value last) }
    {
        self.is_owned(p, s) && self.is_behind_out(s, t, value, last)
    }

    /// Whether the thread, or none, which runs on the processor, can block.
    pub fn can_block(&self, p: ProcNo, s: SpaceNo, t: Option<ThreadNo>, beyond: &Beyond) -> bool
        ensures { IsTrue result ↔ CanBlockWith self.now.workload p self.now.state s t beyond.now }
    {
        self.is_owned(p, s) && self.is_runner(p, s, t) && self.has_cause(s, t, beyond)
    }

    /// Whether the life is blocked, and this thread, or none, is that of its block.
    pub fn can_unblock(&self, s: SpaceNo, t: Option<ThreadNo>, beyond: &Beyond) -> bool
        ensures { IsTrue result ↔ CanUnblockWith self.now.state s t beyond.now }
    {
        let Some(life) = beyond.life else {
            return false;
        };
        life.space == s && life.thread == t && beyond.has_io && self.stands_in(Place::Blocked, s, t)
    }

    /// Whether the thread is carried, or is due.
    pub fn can_be_ready(&self, s: SpaceNo, t: ThreadNo) -> bool
        ensures { IsTrue result ↔ CanBeReady self.now.state s t }
    {
        self.thread(s, t).place() == Place::Carried || self.is_due(s, t)
    }

    /// Whether the space owns the processor.
    pub fn is_owned(&self, p: ProcNo, s: SpaceNo) -> bool
        ensures { IsTrue result ↔ (owner_at self.now.state p ≡ Some s) }
    {
        self.owner(p) == Some(s)
    }

    /// Whether this thread runs on the processor; or, where no thread is given, none.
    #[inline(always)]
    pub fn is_runner(&self, p: ProcNo, s: SpaceNo, t: Option<ThreadNo>) -> bool
        ensures { IsTrue result ↔ IsRunner self.now.state p s t }
    {
        match (self.runner(p), t) {
            (None, None) => true,
            (Some(runner), Some(t)) => runner.space() == s && runner.thread() == t,
            _ => false,
        }
    }

    /// Whether no thread runs on the processor.
    pub fn nobody_runs(&self, p: ProcNo) -> bool
        ensures { IsTrue result ↔ NobodyRuns self.now.state p }
    {
        self.runner(p).is_none()
    }

    /// Whether the thread, if one is given, is in this place.
    pub fn stands_in(&self, place: Place, s: SpaceNo, t: Option<ThreadNo>) -> bool
        ensures { IsTrue result ↔ StandsIn place self.now.state s t }
    {
        match t {
            None => true,
            Some(t) => self.thread(s, t).place() == place,
        }
    }

    // Whether the record directly before is that of an `out` of this thread with this value.
    fn is_behind_out(&self, s: SpaceNo, t: ThreadNo, value: u64, last: Option<Record>) -> bool
        ensures { IsTrue result ↔ IsBehindOut self.now.workload self.now.state s t value last }
    {
        let Some(Record::Ins(of, u, place)) = last else {
            return false;
        };
        of == s
            && u == t
            && is_value_of(&self.thread(s, t).regs(), self.instr_of(s, t, place), value)
    }

    // Whether there is what a block is for.
    fn has_cause(&self, s: SpaceNo, t: Option<ThreadNo>, beyond: &Beyond) -> bool
        ensures { IsTrue result ↔ HasCauseIn self.now.workload self.now.state s t beyond.now }
    {
        self.is_behind_io(s, t, beyond.last)
            || self.is_faulting(s, t, beyond.pages)
            || (locks_one(beyond.life) && !has_page(beyond.pages, PACKAGE_PAGE))
    }

    // Whether the record directly before is that of an `io` of this thread.
    fn is_behind_io(&self, s: SpaceNo, t: Option<ThreadNo>, last: Option<Record>) -> bool
        ensures { result ≡ is_some (length_before self.now.workload self.now.state s t last) }
    {
        let Some(Record::Ins(of, u, place)) = last else {
            return false;
        };
        of == s && t == Some(u) && matches!(self.instr_of(of, u, place), Instr::Io(_))
    }

    // Whether the thread touches a page that is not among these.
    fn is_faulting(&self, s: SpaceNo, t: Option<ThreadNo>, pages: u16) -> bool
        ensures { IsTrue result ↔ IsFaultingIn self.now.workload self.now.state s t pages }
    {
        match t {
            None => false,
            Some(t) => is_missed(self.next_instr(s, t), pages),
        }
    }
}

// Whether the life has locked a ready list.
fn locks_one(life: Option<LifeSeen>) -> bool
    ensures { result ≡ locks_one_of life }
{
    match life {
        None => false,
        Some(life) => life.locks_one,
    }
}

// Whether the page of a `touch` is among these.
fn is_touched(instr: Instr, pages: u16) -> bool
    ensures { IsTrue result ↔ IsTouchedIn pages instr }
{
    match instr {
        Instr::Touch(page) => has_page(pages, page),
        _ => true,
    }
}

// Whether the instruction is a `touch` of a page that is not among these.
fn is_missed(instr: Instr, pages: u16) -> bool
    ensures { IsTrue result ↔ IsMissedIn pages instr }
{
    match instr {
        Instr::Touch(page) => !has_page(pages, page),
        _ => false,
    }
}

// Whether the instruction gives this value to the outside.
fn is_value_of(regs: &Regs, instr: Instr, value: u64) -> bool
    ensures { IsTrue result ↔ IsValueOf regs.now instr value }
{
    match instr {
        Instr::Out(reg) => value == regs.get(reg),
        _ => false,
    }
}
