// The shapes of turns: which records an event's own part and its closing consist of.
ghost use Rattle.std.specs.Prelude.{◌≡◌, ◌↔◌, IsTrue};
ghost use Rattle.std.specs.List.{list_any};
ghost use Rattle.sa_laws.specs.History.{is_up};
ghost use Rattle.sa_laws.specs.Turns.{AreRaising, IsClosing, AreTold, IsFetchOrNothing, IsPassage, IsInterrupt, IsOver, IsOut, IsBlock, IsInsOf, AreOfLocks, is_of_locks};
ghost use Rattle.sa_check_shapes.specs.Parted.{OperatesAlone};

use crate::kinds::{is_of_locks, is_up};
use crate::parts::parted;
use sa_base::Record;
use sa_devices::IoKind;
use sa_instr::Instr;

/// Aims at spaces and lines, and nothing else.
pub fn are_raising(records: &[Record]) -> bool
    ensures { IsTrue result ↔ AreRaising records.now }
{
    for what in records {
        match *what {
            Record::Aim(_, Some(_)) | Record::Line(_) => {}
            _ => return false,
        }
    }
    true
}

/// A closing: wants, and after them aims at spaces and lines, and nothing else.
pub fn is_closing(records: &[Record]) -> bool
    ensures { IsTrue result ↔ IsClosing records.now }
{
    for (i, what) in records.iter().enumerate() {
        match *what {
            Record::Want(..) => {}
            _ => return are_raising(&records[i..]),
        }
    }
    true
}

/// Told records, and nothing else.
pub fn are_told_alone(records: &[Record]) -> bool
    ensures { IsTrue result ↔ AreTold records.now }
{
    for what in records {
        match *what {
            Record::Told(_) => {}
            _ => return false,
        }
    }
    true
}

/// A fetch, or nothing.
pub fn is_fetch_or_nothing(records: &[Record]) -> bool
    ensures { IsTrue result ↔ IsFetchOrNothing records.now }
{
    match parted(records) {
        None => true,
        Some((Record::Fetch(_), others)) => others.is_empty(),
        _ => false,
    }
}

/// An up with its told records, a move to a space and that, or a leave.
pub fn is_passage(records: &[Record]) -> bool
    ensures { IsTrue result ↔ IsPassage records.now }
{
    match parted(records) {
        Some((Record::Up(..), others)) => are_told_alone(others),
        Some((Record::Move(_, Some(_)), others)) => match parted(others) {
            Some((Record::Up(..), told)) => are_told_alone(told),
            _ => false,
        },
        Some((Record::Move(_, None), others)) => match parted(others) {
            Some((Record::Aim(_, None), fetch)) => is_fetch_or_nothing(fetch),
            _ => false,
        },
        _ => false,
    }
}

/// An interrupt: a stop, if there is one, and a passage.
pub fn is_interrupt(records: &[Record]) -> bool
    ensures { IsTrue result ↔ IsInterrupt records.now }
{
    match parted(records) {
        Some((Record::Stop(..), others)) => is_passage(others),
        _ => is_passage(records),
    }
}

/// The completion of an I/O of this kind.
pub fn is_over(kind: IoKind, records: &[Record]) -> bool
    ensures { IsTrue result ↔ IsOver kind records.now }
{
    let Some((first, others)) = parted(records) else {
        return false;
    };
    match (kind, first) {
        (IoKind::Plain(s, a), Record::Unblock(of, _, b)) => of == s && b == a && others.is_empty(),
        (IoKind::Page(s, a, _), Record::Unblock(of, _, b)) => of == s
            && b == a
            && others.is_empty(),
        (IoKind::Upcall(s), Record::Fetched(of)) => of == s && others.is_empty(),
        _ => false,
    }
}

/// The value of an `out`, alone.
pub fn is_out(records: &[Record]) -> bool
    ensures { IsTrue result ↔ IsOut records.now }
{
    match parted(records) {
        Some((Record::Out(..), others)) => others.is_empty(),
        _ => false,
    }
}

/// A block and a passage.
pub fn is_block(records: &[Record]) -> bool
    ensures { IsTrue result ↔ IsBlock records.now }
{
    match parted(records) {
        Some((Record::Block(..), others)) => is_passage(others),
        _ => false,
    }
}

/// What belongs to the record of this instruction: with `out` its value, with `io` its block, else nothing.
pub fn is_ins_of(instr: Instr, records: &[Record]) -> bool
    ensures { IsTrue result ↔ IsInsOf instr records.now }
{
    match instr {
        Instr::Out(_) => is_out(records),
        Instr::Io(_) => is_block(records),
        _ => records.is_empty(),
    }
}

/// Each record is one of the operations on ready lists.
pub fn are_of_locks(records: &[Record]) -> bool
    ensures { IsTrue result ↔ AreOfLocks records.now }
{
    for what in records {
        if !is_of_locks(*what) {
            return false;
        }
    }
    true
}

/// Where an operation on ready lists is among these records, nothing comes after the first.
pub fn stands_alone(records: &[Record]) -> bool
    ensures { IsTrue result ↔ OperatesAlone records.now }
{
    let operates = some_operates(records);
    match parted(records) {
        None => true,
        Some((_, others)) => !operates || others.is_empty(),
    }
}

fn some_operates(records: &[Record]) -> bool
    ensures { result ≡ list_any is_of_locks records.now }
{
    records.iter().any(|what| is_of_locks(*what))
}

/// An up is among the records.
pub fn has_up(records: &[Record]) -> bool
    ensures { result ≡ list_any is_up records.now }
{
    records.iter().any(|what| is_up(*what))
}
