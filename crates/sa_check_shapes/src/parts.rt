// The parts of an event's list of records.
ghost use Rattle.std.specs.Prelude.{◌≡◌, ◌≤◌, [], ◌∷◌, length, Some, MatchOption};
ghost use Rattle.std.specs.List.{prefix_len};
ghost use Rattle.sa_laws.specs.Shape.{own_part, closing_part, others_of, before_aims, before_wants, before_lines, front_part, last_lines, leave_run};
ghost use Rattle.sa_check_shapes.specs.Runs.{test_of, first_and_run};

use crate::kinds::{is_of_closing, is_other_line};
use sa_base::Record;

/// The first item and the others.
pub fn parted<T: Copy>(items: &[T]) -> Option<(T, &[T])>
    ensures { MatchOption result (items.now ≡ []) (λ p. items.now ≡ p.0 ∷ p.1.now) }
{
    let (first, others) = items.split_first()?;
    Some((*first, others))
}

// A test of records that goes on along a list.
#[derive(Clone, Copy)]
enum Run {
    // not of a closing
    Own,
    // no aim at a space
    NoAim,
    // no want
    NoWant,
    // of a leave
    Leave,
}

// Whether the record passes the test.
fn passes(run: Run, what: Record) -> bool
    ensures { result ≡ test_of run what }
{
    match run {
        Run::Own => !is_of_closing(what),
        Run::NoAim => !matches!(what, Record::Aim(_, Some(_))),
        Run::NoWant => !matches!(what, Record::Want(..)),
        Run::Leave => matches!(
            what,
            Record::Move(..) | Record::Aim(_, None) | Record::Fetch(..)
        ),
    }
}

// With how many records that pass the test the list begins.
fn run_len(run: Run, records: &[Record]) -> usize
    ensures len { result ≡ prefix_len (test_of run) records.now }
    ensures within { result ≤ length records.now }
{
    for (i, what) in records.iter().enumerate() {
        if !passes(run, *what) {
            return i;
        }
    }
    records.len()
}

// The first record, and those after it that pass the test.
fn first_and_run(run: Run, records: &[Record]) -> &[Record]
    ensures { result.now ≡ first_and_run run records.now }
{
    let Some((_, others)) = parted(records) else {
        return records;
    };
    &records[..run_len(run, others) + 1]
}

/// The event's own part, which comes before its closing.
pub fn own_part(records: &[Record]) -> &[Record]
    ensures { result.now ≡ own_part records.now }
{
    first_and_run(Run::Own, records)
}

/// The event's closing.
pub fn closing_part(records: &[Record]) -> &[Record]
    ensures { result.now ≡ closing_part records.now }
{
    &records[own_part(records).len()..]
}

/// All records but the first.
pub fn others_of(records: &[Record]) -> &[Record]
    ensures { result.now ≡ others_of records.now }
{
    match parted(records) {
        None => records,
        Some((_, others)) => others,
    }
}

/// The records before the first aim at a space.
pub fn before_aims(records: &[Record]) -> &[Record]
    ensures { result.now ≡ before_aims records.now }
{
    &records[..run_len(Run::NoAim, records)]
}

/// The records before the first want that is not the event's first record.
pub fn before_wants(records: &[Record]) -> &[Record]
    ensures { result.now ≡ before_wants records.now }
{
    first_and_run(Run::NoWant, records)
}

/// The run of records of the kinds that make a leave, with which the list begins.
pub fn leave_run(records: &[Record]) -> &[Record]
    ensures { result.now ≡ leave_run records.now }
{
    &records[..run_len(Run::Leave, records)]
}

/// The records before the first line, not counting the event's first record, that does not come directly after an aim of
/// its processor at a space.
pub fn front_part(records: &[Record]) -> &[Record]
    ensures { result.now ≡ front_part records.now }
{
    &records[..front_len(records)]
}

/// The records from that line on.
pub fn last_lines(records: &[Record]) -> &[Record]
    ensures { result.now ≡ last_lines records.now }
{
    &records[front_len(records)..]
}

// How many records come before that line.
fn front_len(records: &[Record]) -> usize
    ensures len { result ≡ length (front_part records.now) }
    ensures within { result ≤ length records.now }
{
    match parted(records) {
        None => 0,
        Some((first, others)) => lines_len(first, others) + 1,
    }
}

// How many of these records after the first come before that line.
fn lines_len(first: Record, others: &[Record]) -> usize
    ensures len { result ≡ length (before_lines (Some first) others.now) }
    ensures within { result ≤ length others.now }
{
    let mut last = first;
    for (i, what) in others.iter().enumerate() {
        if is_other_line(Some(last), *what) {
            return i;
        }
        last = *what;
    }
    others.len()
}
