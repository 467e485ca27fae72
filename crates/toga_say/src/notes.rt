// What a history tells of each thread.
ghost use Rattle.std.specs.Prelude.{◌≡◌, ◌++◌, ◌∷◌, [], replicate, None, IfOk, OnOk};
ghost use Rattle.toga_say.specs.Notes.{blank, blocked_by, is_ins_of, note_of, noted, notes_from, notes_of, place_of, with_left, with_out};

use sa_base::{Item, MAX_THREADS, Record, SpaceNo, ThreadNo};
use std::alloc::{AllocError, Global};
use std::marker::Model;

/// How a thread last left its processor.
#[derive(Clone, Copy)]
pub(crate) enum Left {
    /// By an interrupt.
    Stopped,
    /// Into an I/O.
    InIo,
    /// For a page that is absent.
    Faulted,
    /// Into the kernel, from which it is back.
    Returned,
}

/// What a history tells of a thread.
#[derive(Drop)]
pub(crate) struct Note {
    /// The values that it put out, in order.
    pub(crate) outs: Vec<u64>,
    pub(crate) left: Left,
}

impl Model for Note {
    ghost use Rattle.toga_say.specs.Notes.{NoteView};

    ghost Value = { NoteView };

    ghost view = { λ n. record { outs = n.outs.items; left = n.left } };
}

impl Note {
    // The thread put a value out.
    fn add(&mut self, value: u64) -> Result<(), AllocError>
        ensures { OnOk result (self.new ≡ record self.old { outs = self.old.outs ++ value ∷ [] }) }
    {
        self.outs.push(value)?;
        Ok(())
    }

    // The thread left its processor so.
    fn leave(&mut self, left: Left)
        ensures { self.new ≡ record self.old { left = left } }
    {
        self.left = left;
    }
}

/// The notes of a history, of each thread that so many spaces may make.
pub(crate) fn notes_of(alloc: Global, spaces: u16, items: &[Item]) -> Result<Vec<Note>, AllocError>
    ensures { IfOk result (λ notes. notes.items ≡ notes_of spaces items.now) }
{
    let mut notes = blanks(alloc, usize::from(spaces) * usize::from(MAX_THREADS))?;
    note_all(&mut notes, items)?;
    Ok(notes)
}

// So many notes that say nothing.
fn blanks(alloc: Global, count: usize) -> Result<Vec<Note>, AllocError>
    ensures { IfOk result (λ notes. notes.items ≡ replicate count blank) }
{
    let mut notes = Vec::new(alloc);
    for _place in 0..count {
        notes.push(Note {
            outs: Vec::new(alloc),
            left: Left::Stopped,
        })?;
    }
    Ok(notes)
}

// Takes the records of a history, from its begin on.
fn note_all(notes: &mut [Note], items: &[Item]) -> Result<(), AllocError>
    ensures { OnOk result (notes.new ≡ notes_from notes.old None items.now) }
{
    let mut last = None;
    for item in items {
        take_record(notes, last, &item.what)?;
        last = Some(item.what);
    }
    Ok(())
}

// Takes a record, which came after the last one.
fn take_record(notes: &mut [Note], last: Option<Record>, what: &Record) -> Result<(), AllocError>
    ensures { OnOk result (notes.new ≡ noted notes.old last what.now) }
{
    match *what {
        Record::Out(s, t, value) => put_out(notes, s, t, value),
        Record::Stop(s, t, _) => {
            leave(notes, s, t, Left::Stopped);
            Ok(())
        }
        Record::Block(s, t, _, _) => {
            leave(notes, s, t, blocked_by(s, t, last));
            Ok(())
        }
        Record::Unblock(s, t, _) => {
            leave(notes, s, t, Left::Returned);
            Ok(())
        }
        _ => Ok(()),
    }
}

// The thread put a value out.
#[tactic(auto, using(std::proofs::lemmas::List::set_past))]
fn put_out(notes: &mut [Note], s: SpaceNo, t: ThreadNo, value: u64) -> Result<(), AllocError>
    ensures { OnOk result (notes.new ≡ with_out notes.old s t value) }
{
    let place = place_of(s, t);
    if place < notes.len() {
        notes[place].add(value)?;
    }
    Ok(())
}

// The thread, if there is one, left its processor so.
#[tactic(auto, using(std::proofs::lemmas::List::set_past))]
fn leave(notes: &mut [Note], s: SpaceNo, t: Option<ThreadNo>, left: Left)
    ensures { notes.new ≡ with_left notes.old s t left }
{
    if let Some(t) = t {
        let place = place_of(s, t);
        if place < notes.len() {
            notes[place].leave(left);
        }
    }
}

// How a thread blocks, by the record before.
fn blocked_by(s: SpaceNo, t: Option<ThreadNo>, last: Option<Record>) -> Left
    ensures { result ≡ blocked_by s t last }
{
    match t {
        None => Left::Faulted,
        Some(t) => if is_ins_of(s, t, last) {
            Left::InIo
        } else {
            Left::Faulted
        },
    }
}

// Whether the record is an instruction of the thread.
fn is_ins_of(s: SpaceNo, t: ThreadNo, last: Option<Record>) -> bool
    ensures { result ≡ is_ins_of s t last }
{
    match last {
        Some(Record::Ins(of, u, _)) => of.0 == s.0 && u.0 == t.0,
        _ => false,
    }
}

/// The values that a thread put out.
pub(crate) fn outs_of(notes: &[Note], s: SpaceNo, t: ThreadNo) -> &[u64]
    ensures { result.now ≡ (note_of notes.now s t).outs }
{
    match notes.get(place_of(s, t)) {
        Some(told) => &told.outs,
        None => &[],
    }
}

/// How a thread last left its processor.
pub(crate) fn left_of(notes: &[Note], s: SpaceNo, t: ThreadNo) -> Left
    ensures { result ≡ (note_of notes.now s t).left }
{
    match notes.get(place_of(s, t)) {
        Some(told) => told.left,
        None => Left::Stopped,
    }
}

// The place of a thread in a list of notes.
fn place_of(s: SpaceNo, t: ThreadNo) -> usize
    ensures { result ≡ place_of s t }
{
    usize::from(s.0) * usize::from(MAX_THREADS) + usize::from(t.0)
}
