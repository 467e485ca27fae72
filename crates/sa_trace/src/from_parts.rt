// The record of a kind and fields.
ghost use Rattle.std.specs.Prelude.{◌≡◌, ◌≤◌, ◌↔◌, IsSome, IfSome};
ghost use Rattle.std.specs.Option.{ForSome};
ghost use Rattle.sa_trace.specs.Field.{range_of, number_in, optional_in};
ghost use Rattle.sa_trace.specs.Parts.{parts, parts_of, FitTheKind, field_at, space_at, thread_at, processor_at, activation_at, io_at, optional_space_at, optional_thread_at, record_from, record_of};

use crate::field::Field;
use crate::kind::Kind;
use sa_base::{ActNo, IoNo, Note, ProcNo, Record, SpaceNo, ThreadNo};

/// The record of this kind with these fields, or `None` exactly where they do not fit the kind.
pub fn record_with(kind: Kind, fields: &[Option<u64>]) -> Option<Record>
    ensures record { result ≡ record_of kind fields.now }
    ensures fit { IsSome result ↔ FitTheKind (parts kind fields.now) }
    ensures parts { IfSome result (λ made. parts_of made ≡ parts kind fields.now) }
{
    if fields.len() != kind.form().fields.len() {
        return None;
    }
    from_fields(kind, fields)
}

// The record of a kind whose fields begin like these, if they are in their ranges.
fn from_fields(kind: Kind, f: &[Option<u64>]) -> Option<Record>
    ensures { result ≡ record_from kind f.now }
{
    match kind {
        Kind::Ins => ins(f),
        Kind::Out => out(f),
        Kind::Run => run(f),
        Kind::Stop => stop(f),
        Kind::Block => block(f),
        Kind::Unblock => unblock(f),
        Kind::Cont => cont(f),
        Kind::Back => back(f),
        Kind::Ready => ready(f),
        Kind::Take => taken(f),
        Kind::Free => free(f),
        Kind::Up => up(f),
        Kind::ToldAdd => Some(Record::Told(Note::Add(processor(f, 0)?))),
        Kind::ToldPreempted => Some(Record::Told(Note::Preempted(activation(f, 0)?))),
        Kind::ToldBlocked => Some(Record::Told(Note::Blocked(activation(f, 0)?))),
        Kind::ToldUnblocked => Some(Record::Told(Note::Unblocked(activation(f, 0)?))),
        Kind::Move => moved(f),
        Kind::Want => want(f),
        Kind::Aim => aim(f),
        Kind::Line => Some(Record::Line(processor(f, 0)?)),
        Kind::Fetch => Some(Record::Fetch(space(f, 0)?)),
        Kind::Fetched => Some(Record::Fetched(space(f, 0)?)),
        Kind::GiveBack => Some(Record::GiveBack(activation(f, 0)?)),
        Kind::Idle => Some(Record::Idle),
        Kind::Spin => Some(Record::Spin(processor(f, 0)?)),
        Kind::Tick => Some(Record::Tick),
    }
}

// The record of each kind with two fields or more.

fn ins(f: &[Option<u64>]) -> Option<Record>
    ensures { result ≡ record_from Kind.Ins f.now }
{
    match (space(f, 0), thread(f, 1), place(f, 2)) {
        (Some(s), Some(t), Some(place)) => Some(Record::Ins(s, t, place)),
        _ => None,
    }
}

fn out(f: &[Option<u64>]) -> Option<Record>
    ensures { result ≡ record_from Kind.Out f.now }
{
    match (space(f, 0), thread(f, 1), number(Field::Value, f, 2)) {
        (Some(s), Some(t), Some(value)) => Some(Record::Out(s, t, value)),
        _ => None,
    }
}

fn run(f: &[Option<u64>]) -> Option<Record>
    ensures { result ≡ record_from Kind.Run f.now }
{
    match (space(f, 0), thread(f, 1)) {
        (Some(s), Some(t)) => Some(Record::Run(s, t)),
        _ => None,
    }
}

fn stop(f: &[Option<u64>]) -> Option<Record>
    ensures { result ≡ record_from Kind.Stop f.now }
{
    match (space(f, 0), carried(f, 1), activation(f, 2)) {
        (Some(s), Some(t), Some(a)) => Some(Record::Stop(s, t, a)),
        _ => None,
    }
}

fn block(f: &[Option<u64>]) -> Option<Record>
    ensures { result ≡ record_from Kind.Block f.now }
{
    match (space(f, 0), carried(f, 1), activation(f, 2), io(f, 3)) {
        (Some(s), Some(t), Some(a), Some(io)) => Some(Record::Block(s, t, a, io)),
        _ => None,
    }
}

fn unblock(f: &[Option<u64>]) -> Option<Record>
    ensures { result ≡ record_from Kind.Unblock f.now }
{
    match (space(f, 0), carried(f, 1), activation(f, 2)) {
        (Some(s), Some(t), Some(a)) => Some(Record::Unblock(s, t, a)),
        _ => None,
    }
}

fn cont(f: &[Option<u64>]) -> Option<Record>
    ensures { result ≡ record_from Kind.Cont f.now }
{
    match (space(f, 0), carried(f, 1)) {
        (Some(s), Some(t)) => Some(Record::Cont(s, t)),
        _ => None,
    }
}

fn back(f: &[Option<u64>]) -> Option<Record>
    ensures { result ≡ record_from Kind.Back f.now }
{
    match (space(f, 0), carried(f, 1)) {
        (Some(s), Some(t)) => Some(Record::Back(s, t)),
        _ => None,
    }
}

fn ready(f: &[Option<u64>]) -> Option<Record>
    ensures { result ≡ record_from Kind.Ready f.now }
{
    match (space(f, 0), thread(f, 1)) {
        (Some(s), Some(t)) => Some(Record::Ready(s, t)),
        _ => None,
    }
}

fn taken(f: &[Option<u64>]) -> Option<Record>
    ensures { result ≡ record_from Kind.Take f.now }
{
    match (space(f, 0), processor(f, 1), carried(f, 2)) {
        (Some(s), Some(l), Some(t)) => Some(Record::Take(s, l, t)),
        _ => None,
    }
}

fn free(f: &[Option<u64>]) -> Option<Record>
    ensures { result ≡ record_from Kind.Free f.now }
{
    match (space(f, 0), processor(f, 1), carried(f, 2)) {
        (Some(s), Some(l), Some(t)) => Some(Record::Free(s, l, t)),
        _ => None,
    }
}

fn up(f: &[Option<u64>]) -> Option<Record>
    ensures { result ≡ record_from Kind.Up f.now }
{
    match (space(f, 0), activation(f, 1)) {
        (Some(s), Some(a)) => Some(Record::Up(s, a)),
        _ => None,
    }
}

fn moved(f: &[Option<u64>]) -> Option<Record>
    ensures { result ≡ record_from Kind.Move f.now }
{
    match (owner(f, 0), owner(f, 1)) {
        (Some(old), Some(new)) => Some(Record::Move(old, new)),
        _ => None,
    }
}

fn want(f: &[Option<u64>]) -> Option<Record>
    ensures { result ≡ record_from Kind.Want f.now }
{
    match (space(f, 0), demand(f, 1)) {
        (Some(s), Some(demand)) => Some(Record::Want(s, demand)),
        _ => None,
    }
}

fn aim(f: &[Option<u64>]) -> Option<Record>
    ensures { result ≡ record_from Kind.Aim f.now }
{
    match (processor(f, 0), owner(f, 1)) {
        (Some(p), Some(s)) => Some(Record::Aim(p, s)),
        _ => None,
    }
}

// What the field at a place names, if its number is in its range.

fn field_at(fields: &[Option<u64>], k: usize) -> Option<u64>
    ensures { result ≡ field_at fields.now k }
{
    match fields.get(k) {
        Some(field) => *field,
        None => None,
    }
}

fn number(field: Field, fields: &[Option<u64>], k: usize) -> Option<u64>
    ensures number { result ≡ number_in field (field_at fields.now k) }
    ensures range { IfSome result (λ n. n ≤ (range_of field).greatest) }
{
    let number = field_at(fields, k)?;
    if number <= field.range().greatest {
        Some(number)
    } else {
        None
    }
}

// The same where the field may be absent.
fn optional(field: Field, fields: &[Option<u64>], k: usize) -> Option<Option<u64>>
    ensures number { result ≡ optional_in field (field_at fields.now k) }
    ensures range { IfSome result (λ value. ForSome value (λ n. n ≤ (range_of field).greatest)) }
{
    match field_at(fields, k) {
        None => Some(None),
        Some(number) if number <= field.range().greatest => Some(Some(number)),
        Some(_) => None,
    }
}

fn space(fields: &[Option<u64>], k: usize) -> Option<SpaceNo>
    ensures { result ≡ space_at fields.now k }
{
    let number = number(Field::Space, fields, k)?;
    Some(SpaceNo(number as u16))
}

fn thread(fields: &[Option<u64>], k: usize) -> Option<ThreadNo>
    ensures { result ≡ thread_at fields.now k }
{
    let number = number(Field::Thread, fields, k)?;
    Some(ThreadNo(number as u16))
}

fn processor(fields: &[Option<u64>], k: usize) -> Option<ProcNo>
    ensures { result ≡ processor_at fields.now k }
{
    let number = number(Field::Processor, fields, k)?;
    Some(ProcNo(number as u16))
}

fn activation(fields: &[Option<u64>], k: usize) -> Option<ActNo>
    ensures { result ≡ activation_at fields.now k }
{
    let number = number(Field::Activation, fields, k)?;
    Some(ActNo(number))
}

fn io(fields: &[Option<u64>], k: usize) -> Option<IoNo>
    ensures { result ≡ io_at fields.now k }
{
    let number = number(Field::Io, fields, k)?;
    Some(IoNo(number as u32))
}

fn owner(fields: &[Option<u64>], k: usize) -> Option<Option<SpaceNo>>
    ensures { result ≡ optional_space_at fields.now k }
{
    match optional(Field::OptionalSpace, fields, k)? {
        None => Some(None),
        Some(number) => Some(Some(SpaceNo(number as u16))),
    }
}

fn carried(fields: &[Option<u64>], k: usize) -> Option<Option<ThreadNo>>
    ensures { result ≡ optional_thread_at fields.now k }
{
    match optional(Field::OptionalThread, fields, k)? {
        None => Some(None),
        Some(number) => Some(Some(ThreadNo(number as u16))),
    }
}

fn place(fields: &[Option<u64>], k: usize) -> Option<u16>
    ensures { result ≡ number_in Field.Place (field_at fields.now k) }
{
    let number = number(Field::Place, fields, k)?;
    Some(number as u16)
}

fn demand(fields: &[Option<u64>], k: usize) -> Option<u16>
    ensures { result ≡ number_in Field.Demand (field_at fields.now k) }
{
    let number = number(Field::Demand, fields, k)?;
    Some(number as u16)
}
