// A moment at the end of an event.
#![tactic(auto, unfolding(crate::specs::Seen::seen))]

ghost use Rattle.std.specs.Prelude.{◌≡◌, ◌+◌, IfOk, OnOk};
ghost use Rattle.sa_laws.specs.Readings.{Readings, running_of, life_if};
ghost use Rattle.sa_instr.specs.Local.{local_answer};
ghost use Rattle.sa_laws.specs.Any.{is_within_thread, begins_local, is_tied, is_hint_due};
ghost use Rattle.sa_check_lives.specs.View.{lives_of};
ghost use Rattle.sa_base.specs.declared.package.RulesName.TheVariants.{Priorities};
ghost use Rattle.sa_check_moment.specs.Seen.{seen, event, at_end, lowers};
ghost use Rattle.sa_check_moment.specs.Urged.{asks_last};
ghost use Rattle.sa_check_moment.specs.Ending.{IsOver, is_inside_at, owes_pair, idles_by, is_in_any, is_in, is_in_if, settles_by, scan_by, step_by, up_by, stepped_if, arisen_if};

use crate::has_entry;
use crate::moment::{Moment, Parts};
use crate::start::Start;
use sa_base::{ActNo, ProcNo, Record, RulesName};
use sa_check_lives::{KeptLife, Lives, Scan, Stepped};
use sa_check_shapes::{closing_part, has_up, is_step};
use sa_instr::Instr;
use sa_laws::Place;
use std::alloc::AllocError;

impl Moment {
    /// What the end of an event of the processor with these records will need of the moment before it.
    #[inline(always)]
    pub fn before(&self, p: ProcNo, records: &[Record]) -> Start
        ensures running { result.running ≡ running_of (seen self.now).readings p }
        ensures lowers { result.lowers ≡ lowers (seen self.now).readings records.now }
    {
        Start {
            running: self.running(p),
            lowers: match records {
                [Record::Want(s, n), ..] => *n < self.demand(*s),
                _ => false,
            },
        }
    }

    /// The event of this number and processor with these records is over; `start` is what was seen before it, and `urged`
    /// tells whether a pair existed where pairs are asked for before its last record. Fails where memory runs out, and where a count would not fit 64 bits.
    #[inline(always)]
    pub fn finish(
        mut self,
        number: u64,
        p: ProcNo,
        records: &[Record],
        start: Start,
        urged: bool,
    ) -> Result<Moment, AllocError>
        ensures { (before : Readings) → start.running ≡ running_of before p → start.lowers ≡ lowers before records.now
            → IsOver before (event number p records.now) urged (seen self)
            → IfOk result (λ m. seen m ≡ at_end before number p records.now (seen self)) }
    {
        let _event = number;
        let step = self.step_by(records, start, urged);
        let up = self.up_by(p, records, start, urged);
        let parts: &mut Parts = &mut self.parts;
        parts.number = end_event(&mut parts.lives, parts.number, start.running, step, p, up)?;
        parts.last = None;
        parts.moved = None;
        Ok(self)
    }

    // What becomes of the life that ran before the event, if the event is a step of it.
    #[inline(always)]
    fn step_by(&self, records: &[Record], start: Start, urged: bool) -> Option<Stepped>
        ensures { result ≡ step_by (seen self.now) start.lowers start.running urged records.now }
    {
        match records {
            [] => None,
            [first, ..] => {
                if is_step(*first) {
                    let settled = self.settles_by(start.lowers, first);
                    Some(Stepped {
                        freed: matches!(*first, Record::Free(..)),
                        scan: scan_by(start.lowers, first),
                        inside: self.is_in_if(start.lowers, settled, start.running, records, urged),
                    })
                } else {
                    None
                }
            }
        }
    }

    // Whether the life of the event's up is in, if there is one.
    #[inline(always)]
    fn up_by(&self, p: ProcNo, records: &[Record], start: Start, urged: bool) -> Option<bool>
        ensures { result ≡ up_by (seen self.now) start.lowers p urged records.now }
    {
        if has_up(records) {
            Some(self.is_in_if(start.lowers, true, self.running(p), records, urged))
        } else {
            None
        }
    }

    // The step settles its life.
    #[inline(always)]
    fn settles_by(&self, lowers: bool, first: &Record) -> bool
        ensures { result ≡ settles_by lowers (seen self.now).readings first.now }
    {
        match *first {
            Record::Ins(s, t, _) => {
                !matches!(
                    self.thread(s, t).place(),
                    Place::Running(_) | Place::Blocked
                )
            }
            Record::Want(..) => !lowers,
            Record::Idle | Record::Block(..) => false,
            _ => true,
        }
    }

    // The life of this number is in, if it is in use, at the end of an own event with these records that settled it or
    // did not.
    #[inline(always)]
    fn is_in_if(
        &self,
        lowers: bool,
        settled: bool,
        a: Option<ActNo>,
        records: &[Record],
        urged: bool,
    ) -> bool
        ensures { result ≡ is_in_if (seen self.now) lowers settled records.now urged
            (life_if (seen self.now).readings a) }
    {
        match a {
            None => false,
            Some(a) => match self.life(a) {
                None => false,
                Some(life) => self.is_in(lowers, settled, life, records, urged),
            },
        }
    }

    // The life is in, by the rules by which the trace is judged.
    #[inline(always)]
    fn is_in(
        &self,
        lowers: bool,
        settled: bool,
        life: &KeptLife,
        records: &[Record],
        urged: bool,
    ) -> bool
        ensures { result ≡ is_in (seen self.now) lowers settled records.now urged life.now }
    {
        match self.rules() {
            RulesName::FastThreads => self.is_inside(settled, life),
            RulesName::Priorities => {
                self.is_inside(settled, life) || (settled && self.owes_pair(life, records, urged))
            }
            RulesName::Any => self.is_in_any(lowers, settled, life, records),
        }
    }

    // The life is in by the test of any user level.
    fn is_in_any(&self, lowers: bool, settled: bool, life: &KeptLife, records: &[Record]) -> bool
        ensures { result ≡ is_in_any (seen self.now) lowers settled records.now life.now }
    {
        if settled {
            self.has_heard_hand(life) || is_tied(life) || self.is_hint_due(life)
        } else if self.begins_local(records) {
            life.inside()
        } else {
            self.has_heard_hand(life) || (!idles_by(lowers, records) && is_tied(life))
        }
    }

    // The demand is below what the load can use, or no thread is carried while many lives are taken.
    fn is_hint_due(&self, life: &KeptLife) -> bool
        ensures { let m = seen self.now in result ≡ is_hint_due m.workload m.readings life.now }
    {
        self.demand(life.space()) < self.usable(life.space())
            || (self.carried(life.proc()).is_none() && self.many_taken(life.space()))
    }

    // The records begin with a local instruction.
    fn begins_local(&self, records: &[Record]) -> bool
        ensures { let m = seen self.now in result ≡ begins_local m.workload m.readings records.now }
    {
        match records {
            [Record::Ins(s, t, place), ..] => is_within_thread(self.instr_of(*s, *t, *place)),
            _ => false,
        }
    }

    // A pair of the life's space exists where pairs are asked for.
    fn owes_pair(&self, life: &KeptLife, records: &[Record], urged: bool) -> bool
        requires { (seen self.now).rules ≡ Priorities }
        ensures { result ≡ owes_pair (seen self.now) records.now urged life.now }
    {
        if asks_last(records) {
            self.has_pair(life.space())
        } else {
            urged
        }
    }

    // The life is in by FastThreads' test.
    #[inline(always)]
    fn is_inside(&self, settled: bool, life: &KeptLife) -> bool
        ensures { result ≡ is_inside_at (seen self.now) settled life.now }
    {
        life.has_lock()
            || life.cont()
            || self.has_hand(life)
            || (settled && self.demand(life.space()) < self.usable(life.space()))
            || (settled && self.carried(life.proc()).is_none() && self.many_taken(life.space()))
    }
}

// The life has a lock, or a cont without its back.
fn is_tied(life: &KeptLife) -> bool
    ensures { result ≡ is_tied life.now }
{
    life.has_lock() || life.cont()
}

// The instruction stays within its thread.
fn is_within_thread(instr: Instr) -> bool
    ensures { result ≡ is_within_thread (local_answer instr) }
{
    matches!(
        instr,
        Instr::Compute | Instr::Set(..) | Instr::Add(..) | Instr::Sub(..) | Instr::Jnz(..)
    )
}

// Pairs are asked for after all these records of an event.
fn asks_last(records: &[Record]) -> bool
    ensures { result ≡ asks_last records.now }
{
    has_entry(records) || closing_part(records).is_empty()
}

// The records begin with an idle record, or with a want that lowers the demand.
fn idles_by(lowers: bool, records: &[Record]) -> bool
    ensures { result ≡ idles_by lowers records.now }
{
    match records {
        [Record::Idle, ..] => true,
        [Record::Want(..), ..] => lowers,
        _ => false,
    }
}

// How the looks that found no thread are counted on.
#[inline(always)]
fn scan_by(lowers: bool, first: &Record) -> Scan
    ensures { result ≡ scan_by lowers first.now }
{
    match *first {
        Record::Idle => Scan::More,
        Record::Want(..) if lowers => Scan::Same,
        _ => Scan::Over,
    }
}

// The event is over for the life that made a step and for the one of the up, if there were such; the number of the next.
#[inline(always)]
fn end_event(
    lives: &mut Lives,
    number: u64,
    running: Option<ActNo>,
    step: Option<Stepped>,
    p: ProcNo,
    up: Option<bool>,
) -> Result<u64, AllocError>
    ensures number { IfOk result (λ n. n ≡ number + 1) }
    ensures lives { OnOk result (lives_of lives.new
        ≡ arisen_if up p (stepped_if step running (lives_of lives.old))) }
{
    end_step(lives, running, step)?;
    end_up(lives, p, up)?;
    number.checked_add(1).ok_or(AllocError)
}

// The life's step is over, if there was one.
#[inline(always)]
fn end_step(lives: &mut Lives, a: Option<ActNo>, step: Option<Stepped>) -> Result<(), AllocError>
    ensures { OnOk result (lives_of lives.new ≡ stepped_if step a (lives_of lives.old)) }
{
    match step {
        None => Ok(()),
        Some(step) => lives.step(a, step),
    }
}

// The event of the up of the life on the processor is over, if there was one.
fn end_up(lives: &mut Lives, p: ProcNo, up: Option<bool>) -> Result<(), AllocError>
    ensures { OnOk result (lives_of lives.new ≡ arisen_if up p (lives_of lives.old)) }
{
    match up {
        None => Ok(()),
        Some(inside) => lives.arise(p, inside),
    }
}
