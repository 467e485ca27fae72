// The copies, and where the sections are.
ghost use Rattle.std.specs.Prelude.{◌≡◌, ◌+◌, ◌≤◌, ◌++◌, length, count_by};
ghost use Rattle.std.specs.List.{filter_map};
ghost use Rattle.sa_code.specs.Routines.{routine_ops};
ghost use Rattle.sa_copies.specs.Copies.{copied, with_copies, package_ops, is_in_section, is_end, is_leave, is_take, behind_last_leave, section_at, copy_at};

use sa_code::{CODE_PLACES, Code, Op};

/// The code with a copy of each section after it, each copy ending in `Yield`. It cannot fail for want of memory.
pub fn make_copies(code: &Code) -> Code
    requires { code.now ≡ routine_ops }
    ensures { result ≡ with_copies code.now }
{
    let mut copies = Code::new(code.ops());
    add_copies(&mut copies, code.ops());
    copies
}

// Adds the copies of these operations.
fn add_copies(code: &mut Code, ops: &[Op])
    requires { length code.old + length (filter_map copied ops.now) ≤ CODE_PLACES }
    ensures { code.new ≡ code.old ++ filter_map copied ops.now }
{
    for op in ops {
        if let Some(copy) = copy_of(*op) {
            code.push(copy);
        }
    }
}

// What stands in a copy for an operation: nothing for a take, and control is given back at the end.
fn copy_of(op: Op) -> Option<Op>
    ensures { result ≡ copied op }
{
    match op {
        Op::TakePush | Op::TakePop | Op::Yield => None,
        Op::Push | Op::Pop | Op::Free => Some(op),
        Op::Leave => Some(Op::Yield),
    }
}

/// The section in which a place is, or in whose copy: the push has number 0, the pop 1. `None`
/// exactly where the place is in no section and no copy of one.
pub fn section_of(code: &Code, pc: u16) -> Option<u16>
    requires { code.now ≡ package_ops }
    ensures { result ≡ section_at pc }
{
    if !is_in_section(code.at(pc)?) {
        return None;
    }
    let ops = code.ops();
    let ends = ends(&ops[..usize::from(pc)]);
    Some((ends % leaves(ops)) as u16)
}

/// The place of the same operation in the copy of its section, which is the place itself in a copy. `None` exactly
/// where the place is in no section and no copy of one.
pub fn copy_place(code: &Code, pc: u16) -> Option<u16>
    requires { code.now ≡ package_ops }
    ensures { result ≡ copy_at pc }
{
    if !is_in_section(code.at(pc)?) {
        return None;
    }
    let ops = code.ops();
    let first = first_copy(ops);
    let place = usize::from(pc);
    if place >= first {
        return Some(pc);
    }
    Some((first + place - takes(&ops[..place])) as u16)
}

// Whether an operation is done under a list's lock.
fn is_in_section(op: Op) -> bool
    ensures { result ≡ is_in_section op }
{
    matches!(op, Op::Push | Op::Pop | Op::Free)
}

// How many of the operations end a routine or a copy.
fn ends(ops: &[Op]) -> usize
    ensures { result ≡ count_by is_end ops.now }
{
    ops.iter()
        .filter(|op| matches!(**op, Op::Leave | Op::Yield))
        .count()
}

// How many of the operations end a routine.
fn leaves(ops: &[Op]) -> usize
    ensures { result ≡ count_by is_leave ops.now }
{
    ops.iter().filter(|op| matches!(**op, Op::Leave)).count()
}

// How many of the operations take a lock: they have no copy.
fn takes(ops: &[Op]) -> usize
    ensures { result ≡ count_by is_take ops.now }
{
    ops.iter()
        .filter(|op| matches!(**op, Op::TakePush | Op::TakePop))
        .count()
}

// The place after the last routine: the copies begin there.
fn first_copy(ops: &[Op]) -> usize
    ensures { result ≡ behind_last_leave 0 0 ops.now }
{
    let mut first = 0;
    for (place, op) in ops.iter().enumerate() {
        if matches!(*op, Op::Leave) {
            first = place + 1;
        }
    }
    first
}
