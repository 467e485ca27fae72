// One micro-operation.
ghost use Rattle.std.specs.Prelude.{◌≡◌, ◌+◌, ◌<◌, ◌≤◌, ◌++◌, [], ◌∷◌, length, slice_get, IsSome};
ghost use Rattle.std.specs.Option.{option_map};
ghost use Rattle.sa_base.specs.Items.{items_at};
ghost use Rattle.sa_lists.specs.ReadyView.{thread, with_list, is_locked, IsLocked};
ghost use Rattle.sa_code.specs.Micro.{micro, micro_at, taken, pushed, popped, freed, takes_first, chosen, without_chosen, list_in, is_resident, Does, HasList, CanChange, CanPush, CanPop, CanDo};

use crate::code::{CODE_PLACES, Op};
use crate::state::{Frame, MicroDone, PackageState};
use sa_base::{PACKAGE_PAGE, ProcNo, Record, Seen, ThreadNo, Trace, has_page};
use sa_lists::ReadyLists;

/// Does the operation at the frame's place, and adds its record, for which the trace has room. It cannot fail for want
/// of memory.
///
/// `Spun` comes exactly where a take finds the lock held, `Faulted` exactly where an effect finds the package's page
/// absent, `Left` exactly at a `Leave`, `Yielded` exactly at a `Yield`.
pub fn micro(
    state: &mut PackageState,
    frame: &mut Frame,
    seen: &Seen,
    trace: &mut Trace,
) -> MicroDone
    requires can { CanDo state.old frame.old (slice_get state.old.code frame.old.pc) }
    requires room { 1 ≤ trace.old.spare }
    ensures state { state.new ≡ (micro state.old frame.old seen.now.pages).state }
    ensures frame { frame.new ≡ (micro state.old frame.old seen.now.pages).frame }
    ensures done { result ≡ (micro state.old frame.old seen.now.pages).done }
    ensures items { let says = (micro state.old frame.old seen.now.pages).says in
        trace.new.items ≡ trace.old.items ++ items_at seen.now.event seen.now.proc says }
    ensures spare { let says = (micro state.old frame.old seen.now.pages).says in
        trace.new.spare + length says ≡ trace.old.spare }
{
    let Some(op) = state.code.at(frame.pc) else {
        unreachable!()
    };
    operate(op, state, frame, seen, trace)
}

// Does an operation that stands at the frame's place.
fn operate(
    op: Op,
    state: &mut PackageState,
    frame: &mut Frame,
    seen: &Seen,
    trace: &mut Trace,
) -> MicroDone
    requires can { CanDo state.old frame.old (Some op) }
    requires pc { frame.old.pc < CODE_PLACES }
    requires room { 1 ≤ trace.old.spare }
    ensures { let resident = is_resident seen.now.pages PACKAGE_PAGE in
        Does (micro_at state.old frame.old resident (list_in frame.old) (Some op))
        seen.now trace.old state.new frame.new result trace.new }
{
    match op {
        Op::TakePush | Op::TakePop => take(state, frame, seen, trace),
        Op::Push => push(state, frame, seen, trace),
        Op::Pop => pop(state, frame, seen, trace),
        Op::Free => free(state, frame, seen, trace),
        Op::Leave => MicroDone::Left,
        Op::Yield => {
            add_record(trace, seen, Record::Back(state.space, frame.thread));
            MicroDone::Yielded
        }
    }
}

/// Adds a record of the event.
pub fn add_record(trace: &mut Trace, seen: &Seen, what: Record)
    requires { 1 ≤ trace.old.spare }
    ensures items { trace.new.items ≡ trace.old.items
        ++ items_at seen.now.event seen.now.proc (what ∷ []) }
    ensures spare { trace.new.spare + 1 ≡ trace.old.spare }
{
    trace.say(seen.event, seen.proc, what);
}

// The list on which the frame works.
fn list_of(frame: &Frame) -> ProcNo
    requires { IsSome frame.now.list }
    ensures { result ≡ list_in frame.now }
{
    match frame.list {
        Some(list) => list,
        None => unreachable!(),
    }
}

// Whether the package's page is resident.
fn is_code_resident(seen: &Seen) -> bool
    ensures { result ≡ is_resident seen.now.pages PACKAGE_PAGE }
{
    has_page(seen.pages, PACKAGE_PAGE)
}

// Takes the lock of the frame's list.
fn take(state: &mut PackageState, frame: &mut Frame, seen: &Seen, trace: &mut Trace) -> MicroDone
    requires list { HasList state.old frame.old }
    requires pc { frame.old.pc < CODE_PLACES }
    requires room { 1 ≤ trace.old.spare }
    ensures { let list = list_in frame.old in
        Does (taken state.old frame.old list (is_locked state.old.lists list.0))
        seen.now trace.old state.new frame.new result trace.new }
{
    let list = list_of(frame);
    state.lists.are_apart();
    if !state.lists.try_lock(list) {
        add_record(trace, seen, Record::Spin(list));
        return MicroDone::Spun;
    }
    state.holders[usize::from(list.0)] = frame.thread;
    add_record(trace, seen, Record::Take(state.space, list, frame.thread));
    frame.pc += 1;
    MicroDone::Did
}

// Makes the thread that the frame pushes the newest of its list.
fn push(state: &mut PackageState, frame: &mut Frame, seen: &Seen, trace: &mut Trace) -> MicroDone
    requires list { CanChange state.old frame.old }
    requires thread { CanPush state.old frame.old }
    requires pc { frame.old.pc < CODE_PLACES }
    requires room { 1 ≤ trace.old.spare }
    ensures { let resident = is_resident seen.now.pages PACKAGE_PAGE in
        Does (pushed state.old frame.old resident (list_in frame.old) frame.old.pushed)
        seen.now trace.old state.new frame.new result trace.new }
{
    if !is_code_resident(seen) {
        return MicroDone::Faulted;
    }
    let Some(thread) = frame.pushed else {
        unreachable!()
    };
    state.lists.push(list_of(frame), thread);
    add_record(trace, seen, Record::Ready(state.space, thread));
    frame.pushed = None;
    frame.pc += 1;
    MicroDone::Did
}

// Takes a thread from the frame's list, and the frame carries it.
fn pop(state: &mut PackageState, frame: &mut Frame, seen: &Seen, trace: &mut Trace) -> MicroDone
    requires list { CanChange state.old frame.old }
    requires thread { CanPop state.old frame.old }
    requires pc { frame.old.pc < CODE_PLACES }
    requires room { 1 ≤ trace.old.spare }
    ensures { let resident = is_resident seen.now.pages PACKAGE_PAGE in
        let list = list_in frame.old in
        let first = takes_first state.old.lists frame.old.own in
        let thread = chosen state.old.lists first list.0 in
        Does (popped state.old frame.old resident list thread)
        seen.now trace.old state.new frame.new result trace.new }
{
    if !is_code_resident(seen) {
        return MicroDone::Faulted;
    }
    let list = list_of(frame);
    state.lists.are_apart();
    let first = frame.own || state.lists.has_ranks();
    let Some(thread) = choose(&mut state.lists, first, list) else {
        unreachable!()
    };
    state.holders[usize::from(list.0)] = Some(thread);
    add_record(trace, seen, Record::Run(state.space, thread));
    frame.thread = Some(thread);
    frame.pc += 1;
    MicroDone::Did
}

// Takes the first thread of a locked list, or the last.
fn choose(lists: &mut ReadyLists, first: bool, list: ProcNo) -> Option<ThreadNo>
    requires inside { list.0 < length lists.old.lists }
    requires locked { IsLocked lists.old list.0 }
    ensures thread { result ≡ option_map thread (chosen lists.old first list.0) }
    ensures lists { lists.new ≡ with_list lists.old list.0 (without_chosen lists.old first list.0) }
{
    if first {
        lists.pop_own(list)
    } else {
        lists.take_from(list)
    }
}

// Frees the lock of the frame's list.
fn free(state: &mut PackageState, frame: &mut Frame, seen: &Seen, trace: &mut Trace) -> MicroDone
    requires list { CanChange state.old frame.old }
    requires pc { frame.old.pc < CODE_PLACES }
    requires room { 1 ≤ trace.old.spare }
    ensures { Does (freed state.old frame.old (list_in frame.old))
        seen.now trace.old state.new frame.new result trace.new }
{
    let list = list_of(frame);
    state.lists.are_apart();
    state.lists.unlock(list);
    state.holders[usize::from(list.0)] = None;
    add_record(trace, seen, Record::Free(state.space, list, frame.thread));
    frame.pc += 1;
    MicroDone::Did
}
