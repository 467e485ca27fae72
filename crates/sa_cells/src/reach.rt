// Which threads and spaces an event reaches: no text of the others is written or compared.
ghost use Rattle.std.specs.Prelude.{◌≡◌, not};
ghost use Rattle.std.specs.List.{list_any};
ghost use Rattle.sa_check_moment.specs.Seen.{seen};
ghost use Rattle.sa_cells.specs.Stays.{is_ins, is_calm_instr, is_calm, are_calm, if_of, named, first_from, first_reached, next_reached, is_loud};

use crate::stays::is_instr;
use sa_base::{Record, SpaceNo, ThreadNo};
use sa_check_moment::Moment;
use sa_instr::Instr;

/// Whether these records of an event are calm: an instruction of them changes nothing but its own thread.
pub(crate) fn are_calm(moment: &Moment, records: &[Record]) -> bool
    ensures { result ≡ are_calm (seen moment.now).workload (seen moment.now).readings.state records.now }
{
    match records.split_first() {
        None => true,
        Some((first, others)) => is_calm(moment, first) && !has_ins(others),
    }
}

fn has_ins(records: &[Record]) -> bool
    ensures { result ≡ list_any is_ins records.now }
{
    records.iter().any(|what| is_ins(what))
}

fn is_ins(what: &Record) -> bool
    ensures { result ≡ is_ins what.now }
{
    matches!(*what, Record::Ins(_, _, _))
}

fn is_calm(moment: &Moment, what: &Record) -> bool
    ensures { result ≡ is_calm (seen moment.now).workload (seen moment.now).readings.state what.now }
{
    match *what {
        Record::Ins(s, t, _) => { is_calm_instr(moment.instr_of(s, t, moment.thread(s, t).pc())) }
        _ => true,
    }
}

fn is_calm_instr(instr: Instr) -> bool
    ensures { result ≡ is_calm_instr instr }
{
    match instr {
        Instr::Store(_, _) | Instr::Fork(_, _) | Instr::Join(_) => false,
        Instr::Lock(_) | Instr::Unlock(_) => false,
        Instr::Wait(_) | Instr::Signal(_) | Instr::End => false,
        _ => true,
    }
}

/// Whether the records change no more than a thread, what runs in a life and its hand.
pub(crate) fn are_quiet(records: &[Record]) -> bool
    ensures { result ≡ not (list_any is_loud records.now) }
{
    !are_loud(records)
}

fn are_loud(records: &[Record]) -> bool
    ensures { result ≡ list_any is_loud records.now }
{
    records.iter().any(|what| is_loud(what))
}

fn is_loud(what: &Record) -> bool
    ensures { result ≡ is_loud what.now }
{
    match *what {
        Record::Ins(..) | Record::Out(..) | Record::Cont(..) | Record::Back(..) => false,
        Record::Line(_) | Record::Idle | Record::Spin(_) | Record::Tick => false,
        _ => true,
    }
}

/// The first thread of the space from one on that a record reaches; the end, if there is none below it.
pub(crate) fn next_reached(records: &[Record], calm: bool, s: SpaceNo, from: u16, end: u16) -> u16
    ensures { result ≡ next_reached calm s from end records.now }
{
    let mut next = end;
    for what in records {
        next = first_reached(what, calm, s, from, next);
    }
    next
}

// The same of one record.
fn first_reached(what: &Record, calm: bool, s: SpaceNo, from: u16, end: u16) -> u16
    ensures { result ≡ first_reached calm s from end what.now }
{
    if is_instr(s, what) && !calm {
        return from;
    }
    first_from(from, end, named(s, what))
}

fn first_from(from: u16, end: u16, t: Option<ThreadNo>) -> u16
    ensures { result ≡ first_from from end t }
{
    match t {
        None => end,
        Some(t) => if from <= t.0 && t.0 < end { t.0 } else { end },
    }
}

// The thread of the space that the record names.
fn named(s: SpaceNo, what: &Record) -> Option<ThreadNo>
    ensures { result ≡ named s what.now }
{
    match *what {
        Record::Ins(u, t, _) | Record::Run(u, t) | Record::Ready(u, t) => if_of(s, u, Some(t)),
        Record::Stop(u, t, _) | Record::Block(u, t, _, _) | Record::Unblock(u, t, _) => {
            if_of(s, u, t)
        }
        Record::Cont(u, t) | Record::Back(u, t) => if_of(s, u, t),
        _ => None,
    }
}

fn if_of(s: SpaceNo, u: SpaceNo, t: Option<ThreadNo>) -> Option<ThreadNo>
    ensures { result ≡ if_of s u t }
{
    if u.0 == s.0 { t } else { None }
}
