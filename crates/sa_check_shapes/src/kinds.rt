// The kinds of records.
ghost use Rattle.std.specs.Prelude.{◌≡◌};
ghost use Rattle.sa_laws.specs.History.{is_step, is_up, is_free};
ghost use Rattle.sa_laws.specs.Shape.{is_of_closing, is_other_line};
ghost use Rattle.sa_laws.specs.Turns.{is_of_locks};
ghost use Rattle.sa_laws.specs.Locks.{is_back};

use sa_base::Record;

/// An event that begins with this record is a step of its processor's running life.
pub fn is_step(what: Record) -> bool
    ensures { result ≡ is_step what }
{
    match what {
        Record::Ins(..) | Record::Run(..) | Record::Block(..) | Record::Cont(..) => true,
        Record::Back(..) | Record::Ready(..) | Record::Take(..) | Record::Free(..) => true,
        Record::Want(..) | Record::Line(..) | Record::GiveBack(..) => true,
        Record::Idle | Record::Spin(..) => true,
        _ => false,
    }
}

/// An up.
pub fn is_up(what: Record) -> bool
    ensures { result ≡ is_up what }
{
    match what {
        Record::Up(..) => true,
        _ => false,
    }
}

/// A free.
pub fn is_free(what: Record) -> bool
    ensures { result ≡ is_free what }
{
    match what {
        Record::Free(..) => true,
        _ => false,
    }
}

/// A back.
pub fn is_back(what: Record) -> bool
    ensures { result ≡ is_back what }
{
    match what {
        Record::Back(..) => true,
        _ => false,
    }
}

/// One of the kinds that make a closing: a want, an aim at a space, a line.
pub fn is_of_closing(what: Record) -> bool
    ensures { result ≡ is_of_closing what }
{
    match what {
        Record::Want(..) | Record::Aim(_, Some(_)) | Record::Line(..) => true,
        _ => false,
    }
}

/// One of the kinds of operations on ready lists: take, ready, run, free, cont, back.
pub fn is_of_locks(what: Record) -> bool
    ensures { result ≡ is_of_locks what }
{
    match what {
        Record::Take(..) | Record::Ready(..) | Record::Run(..) => true,
        Record::Free(..) | Record::Cont(..) | Record::Back(..) => true,
        _ => false,
    }
}

/// A line that does not come directly after an aim of its processor at a space.
pub fn is_other_line(last: Option<Record>, what: Record) -> bool
    ensures { result ≡ is_other_line last what }
{
    match (last, what) {
        (Some(Record::Aim(q, Some(_))), Record::Line(p)) => q.0 != p.0,
        (_, Record::Line(_)) => true,
        _ => false,
    }
}
