// A record as its kind and its fields.
ghost use Rattle.std.specs.Prelude.{◌≡◌, ◌≤◌, [], ◌∷◌, length};
ghost use Rattle.sa_trace.specs.Field.{FitsField};
ghost use Rattle.sa_trace.specs.Kind.{form_of};
ghost use Rattle.sa_trace.specs.Parts.{parts, parts_of, FitTheKind, thread_number, space_number};

use crate::field::Field;
use crate::kind::{Kind, MAX_FIELDS};
use sa_base::{ActNo, IoNo, Note, ProcNo, Record, SpaceNo, ThreadNo};
use std::marker::Model;

/// A record as its kind and its fields, of which each is a number or absent.
#[derive(Drop)]
pub struct Parts {
    kind: Kind,
    // The fields that the kind has, and after them none.
    values: [Option<u64>; MAX_FIELDS],
}

impl Model for Parts {
    ghost use Rattle.sa_trace.specs.PartsFields.{parts_inside};
    ghost use Rattle.sa_trace.specs.Parts.{RecordParts};

    ghost Value = { RecordParts };

    ghost view = { parts_inside };
}

impl Parts {
    /// The kind of the record.
    pub fn kind(&self) -> Kind
        ensures { result ≡ self.now.kind }
    {
        self.kind
    }

    /// The fields of the record, in order.
    pub fn fields(&self) -> &[Option<u64>]
        ensures fields { result.now ≡ self.now.fields }
        ensures few { length result.now ≤ MAX_FIELDS }
    {
        &self.values[..self.kind.form().fields.len()]
    }

    /// A record as its kind and its fields, which fit the kind.
    pub fn of(what: &Record) -> Parts
        ensures parts { result ≡ parts_of what.now }
        ensures fit { FitTheKind result }
    {
        match *what {
            Record::Ins(s, t, i) => three(Kind::Ins, space(s), thread(t), Some(u64::from(i))),
            Record::Out(s, t, v) => three(Kind::Out, space(s), thread(t), Some(v)),
            Record::Run(s, t) => two(Kind::Run, space(s), thread(t)),
            Record::Stop(s, t, a) => three(Kind::Stop, space(s), carried(t), activation(a)),
            Record::Block(s, t, a, io) => Parts {
                kind: Kind::Block,
                values: [space(s), carried(t), activation(a), io_number(io)],
            },
            Record::Unblock(s, t, a) => three(Kind::Unblock, space(s), carried(t), activation(a)),
            Record::Cont(s, t) => two(Kind::Cont, space(s), carried(t)),
            Record::Back(s, t) => two(Kind::Back, space(s), carried(t)),
            Record::Ready(s, t) => two(Kind::Ready, space(s), thread(t)),
            Record::Take(s, l, t) => three(Kind::Take, space(s), processor(l), carried(t)),
            Record::Free(s, l, t) => three(Kind::Free, space(s), processor(l), carried(t)),
            Record::Up(s, a) => two(Kind::Up, space(s), activation(a)),
            Record::Told(Note::Add(p)) => one(Kind::ToldAdd, processor(p)),
            Record::Told(Note::Preempted(a)) => one(Kind::ToldPreempted, activation(a)),
            Record::Told(Note::Blocked(a)) => one(Kind::ToldBlocked, activation(a)),
            Record::Told(Note::Unblocked(a)) => one(Kind::ToldUnblocked, activation(a)),
            Record::Move(o, n) => two(Kind::Move, owner(o), owner(n)),
            Record::Want(s, n) => two(Kind::Want, space(s), Some(u64::from(n))),
            Record::Aim(p, s) => two(Kind::Aim, processor(p), owner(s)),
            Record::Line(p) => one(Kind::Line, processor(p)),
            Record::Fetch(s) => one(Kind::Fetch, space(s)),
            Record::Fetched(s) => one(Kind::Fetched, space(s)),
            Record::GiveBack(a) => one(Kind::GiveBack, activation(a)),
            Record::Idle => none(Kind::Idle),
            Record::Spin(l) => one(Kind::Spin, processor(l)),
            Record::Tick => none(Kind::Tick),
        }
    }
}

// A record with no field, one, two or three.

fn none(kind: Kind) -> Parts
    requires { (form_of kind).fields ≡ [] }
    ensures { result ≡ parts kind [] }
{
    Parts {
        kind,
        values: [None; MAX_FIELDS],
    }
}

fn one(kind: Kind, a: Option<u64>) -> Parts
    requires { length (form_of kind).fields ≡ 1 }
    ensures { result ≡ parts kind (a ∷ []) }
{
    Parts {
        kind,
        values: [a, None, None, None],
    }
}

fn two(kind: Kind, a: Option<u64>, b: Option<u64>) -> Parts
    requires { length (form_of kind).fields ≡ 2 }
    ensures { result ≡ parts kind (a ∷ b ∷ []) }
{
    Parts {
        kind,
        values: [a, b, None, None],
    }
}

fn three(kind: Kind, a: Option<u64>, b: Option<u64>, c: Option<u64>) -> Parts
    requires { length (form_of kind).fields ≡ 3 }
    ensures { result ≡ parts kind (a ∷ b ∷ c ∷ []) }
{
    Parts {
        kind,
        values: [a, b, c, None],
    }
}

// What a record's numbers are as fields.

fn space(s: SpaceNo) -> Option<u64>
    ensures number { result ≡ Some s.0 }
    ensures fits { FitsField Field.Space result }
{
    Some(u64::from(s.0))
}

fn thread(t: ThreadNo) -> Option<u64>
    ensures number { result ≡ Some t.0 }
    ensures fits { FitsField Field.Thread result }
{
    Some(u64::from(t.0))
}

fn processor(p: ProcNo) -> Option<u64>
    ensures number { result ≡ Some p.0 }
    ensures fits { FitsField Field.Processor result }
{
    Some(u64::from(p.0))
}

fn activation(a: ActNo) -> Option<u64>
    ensures number { result ≡ Some a.0 }
    ensures fits { FitsField Field.Activation result }
{
    Some(a.0)
}

fn io_number(io: IoNo) -> Option<u64>
    ensures number { result ≡ Some io.0 }
    ensures fits { FitsField Field.Io result }
{
    Some(u64::from(io.0))
}

fn carried(t: Option<ThreadNo>) -> Option<u64>
    ensures number { result ≡ thread_number t }
    ensures fits { FitsField Field.OptionalThread result }
{
    match t {
        None => None,
        Some(t) => Some(u64::from(t.0)),
    }
}

fn owner(s: Option<SpaceNo>) -> Option<u64>
    ensures number { result ≡ space_number s }
    ensures fits { FitsField Field.OptionalSpace result }
{
    match s {
        None => None,
        Some(s) => Some(u64::from(s.0)),
    }
}
