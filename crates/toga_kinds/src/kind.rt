// The kinds of events.
ghost use Rattle.std.specs.Prelude.{◌≡◌};
ghost use Rattle.toga_kinds.specs.Kinds.{first_of, is_same, kind_of_record, order_of};

use sa_base::{ProcNo, Record};

/// What a turn was spent on. Of the kinds of its records it is the first in this order.
#[derive(Clone, Copy)]
pub enum Kind {
    /// No space owns the processor.
    Unowned,
    /// No ready list had a thread.
    Idle,
    /// The lock of a ready list was held.
    Spinning,
    /// A thread ran an instruction.
    Instructions,
    /// The thread package did something else.
    Package,
    /// The kernel did.
    Kernel,
}

/// The turn of an event.
#[derive(Clone, Copy)]
pub struct Turn {
    /// The processor whose turn it was.
    pub proc: ProcNo,
    pub kind: Kind,
}

/// The kind that a record makes its event.
pub(crate) fn kind_of_record(what: &Record) -> Kind
    ensures { result ≡ kind_of_record what.now }
{
    match *what {
        Record::Tick => Kind::Unowned,
        Record::Idle => Kind::Idle,
        Record::Spin(_) => Kind::Spinning,
        Record::Ins(..) => Kind::Instructions,
        Record::Take(..) => Kind::Package,
        Record::Ready(..) => Kind::Package,
        Record::Run(..) => Kind::Package,
        Record::Free(..) => Kind::Package,
        Record::Cont(..) => Kind::Package,
        Record::Back(..) => Kind::Package,
        _ => Kind::Kernel,
    }
}

// The place of a kind in their order.
fn order_of(kind: Kind) -> u8
    ensures { result ≡ order_of kind }
{
    match kind {
        Kind::Unowned => 0,
        Kind::Idle => 1,
        Kind::Spinning => 2,
        Kind::Instructions => 3,
        Kind::Package => 4,
        Kind::Kernel => 5,
    }
}

/// Whether two kinds are one.
pub(crate) fn is_same(a: Kind, b: Kind) -> bool
    ensures { result ≡ is_same a b }
{
    order_of(a) == order_of(b)
}

/// The one of two kinds that comes first in their order.
pub(crate) fn first_of(a: Kind, b: Kind) -> Kind
    ensures { result ≡ first_of a b }
{
    if order_of(b) < order_of(a) { b } else { a }
}
