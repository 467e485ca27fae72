// What a record says, in words.
ghost use Rattle.std.specs.Prelude.{◌≡◌, ◌++◌, codes, OnOk};
ghost use Rattle.sa_cells.specs.Pieces.{one, two};
ghost use Rattle.sa_cells.specs.Words.{thread_words, ready_words, page_words, list_words, stop_words, block_words, unblock_words, cont_words, through_words, way_words, back_words, ran_words, ran_text, ins_words, processors_word, want_words, move_words, aim_words, told_words, up_words, line_words, fetch_words, give_back_words, spin_words, words_of};

use crate::pieces::{
    push_a_space, push_a_thread, push_numbered, push_one, push_piece, push_three, push_two,
};
use crate::thread::push_instr;
use sa_base::{ActNo, IoNo, Note, ProcNo, Record, SpaceNo, ThreadNo};
use sa_instr::Instr;
use std::alloc::AllocError;

/// Appends what the record says, in words, if the life that runs on its processor is in the copy of a section, or is not, and
/// if this is the instruction that it runs, where one is known.
pub fn push_words(
    out: &mut Vec<u8>,
    in_copy: bool,
    instr: Option<Instr>,
    what: &Record,
) -> Result<(), AllocError>
    ensures { OnOk result (out.new.items ≡ out.old.items ++ words_of in_copy instr what.now) }
{
    match *what {
        Record::Ins(s, t, i) => push_ins(out, s, t, i, instr),
        Record::Out(s, t, value) => push_thread(out, s, t, b" gives out ", value),
        Record::Run(s, t) => push_ready(out, s, t, b" leaves its ready list, and is to run here."),
        Record::Stop(s, t, a) => push_stop(out, s, t, a),
        Record::Block(s, t, a, io) => push_block(out, s, t, a, io),
        Record::Unblock(s, t, a) => push_unblock(out, s, t, a),
        Record::Cont(s, t) => push_cont(out, s, t),
        Record::Back(s, t) => push_back(out, in_copy, s, t),
        Record::Ready(s, t) => push_ready(out, s, t, b" is ready, and stands in a list."),
        Record::Take(s, l, t) => push_list(out, s, l, b" is taken, for ", t),
        Record::Free(s, l, t) => push_list(out, s, l, b" is free again; it was taken for ", t),
        Record::Up(s, a) => push_up(out, s, a),
        Record::Told(note) => push_told(out, note),
        Record::Move(old, new) => push_move(out, old, new),
        Record::Want(s, n) => push_want(out, s, n),
        Record::Aim(p, s) => push_aim(out, p, s),
        Record::Line(p) => push_line(out, p),
        Record::Fetch(s) => push_fetch(out, s),
        Record::Fetched(s) => push_page(out, s, b" has come."),
        Record::GiveBack(a) => push_give_back(out, a),
        Record::Idle => out.extend_from_slice(b"No list has a thread that could run."),
        Record::Spin(l) => push_spin(out, l),
        Record::Tick => out.extend_from_slice(b"The processor is nobody's, and its turn passes."),
    }
}

fn push_up(out: &mut Vec<u8>, s: SpaceNo, a: ActNo) -> Result<(), AllocError>
    ensures { OnOk result (out.new.items ≡ out.old.items ++ up_words s a) }
{
    push_two(
        out,
        b"Space ",
        u64::from(s.0),
        b" gets an upcall, in the fresh activation ",
        a.0,
        b".",
    )
}

fn push_line(out: &mut Vec<u8>, p: ProcNo) -> Result<(), AllocError>
    ensures { OnOk result (out.new.items ≡ out.old.items ++ line_words p) }
{
    push_one(
        out,
        b"Processor ",
        u64::from(p.0),
        b" is called into the kernel: its interrupt line goes up.",
    )
}

fn push_fetch(out: &mut Vec<u8>, s: SpaceNo) -> Result<(), AllocError>
    ensures { OnOk result (out.new.items ≡ out.old.items ++ fetch_words s) }
{
    push_page(
        out,
        s,
        b" is not there: it is being fetched, and the upcall must wait.",
    )
}

fn push_give_back(out: &mut Vec<u8>, a: ActNo) -> Result<(), AllocError>
    ensures { OnOk result (out.new.items ≡ out.old.items ++ give_back_words a) }
{
    push_one(
        out,
        b"The space needs the number of activation ",
        a.0,
        b" no more: the kernel may use it again.",
    )
}

fn push_spin(out: &mut Vec<u8>, l: ProcNo) -> Result<(), AllocError>
    ensures { OnOk result (out.new.items ≡ out.old.items ++ spin_words l) }
{
    push_one(
        out,
        b"List ",
        u64::from(l.0),
        b" is locked by another: this turn only waits.",
    )
}

// Appends what a thread does, and a number.
fn push_thread(
    out: &mut Vec<u8>,
    s: SpaceNo,
    t: ThreadNo,
    does: &[u8],
    n: u64,
) -> Result<(), AllocError>
    ensures { OnOk result (out.new.items ≡ out.old.items ++ thread_words s t does.now n) }
{
    push_three(
        out,
        b"Thread ",
        u64::from(t.0),
        b" of space ",
        u64::from(s.0),
        does,
        n,
        b".",
    )
}

// Appends what becomes of a thread.
fn push_ready(out: &mut Vec<u8>, s: SpaceNo, t: ThreadNo, does: &[u8]) -> Result<(), AllocError>
    ensures { OnOk result (out.new.items ≡ out.old.items ++ ready_words s t does.now) }
{
    push_two(
        out,
        b"Thread ",
        u64::from(t.0),
        b" of space ",
        u64::from(s.0),
        does,
    )
}

// Appends what becomes of the upcall page of a space.
fn push_page(out: &mut Vec<u8>, s: SpaceNo, becomes: &[u8]) -> Result<(), AllocError>
    ensures { OnOk result (out.new.items ≡ out.old.items ++ page_words s becomes.now) }
{
    push_one(out, b"The upcall page of space ", u64::from(s.0), becomes)
}

// Appends what becomes of the lock of a list, and of whom.
fn push_list(
    out: &mut Vec<u8>,
    s: SpaceNo,
    l: ProcNo,
    becomes: &[u8],
    t: Option<ThreadNo>,
) -> Result<(), AllocError>
    ensures { OnOk result (out.new.items ≡ out.old.items ++ list_words s l becomes.now t) }
{
    push_list_of(out, l, s, becomes)?;
    push_a_thread(out, t)?;
    push_piece(out, b".")
}

fn push_stop(out: &mut Vec<u8>, s: SpaceNo, t: Option<ThreadNo>, a: ActNo) -> Result<(), AllocError>
    ensures { OnOk result (out.new.items ≡ out.old.items ++ stop_words s t a) }
{
    push_one(
        out,
        b"An interrupt takes the processor from activation ",
        a.0,
        b", which has ",
    )?;
    push_a_thread(out, t)?;
    push_space(
        out,
        b". It will not go on as it was: space ",
        s,
        b" is owed the news.",
    )
}

fn push_block(
    out: &mut Vec<u8>,
    s: SpaceNo,
    t: Option<ThreadNo>,
    a: ActNo,
    io: IoNo,
) -> Result<(), AllocError>
    ensures { OnOk result (out.new.items ≡ out.old.items ++ block_words s t a io) }
{
    push_one(out, b"Activation ", a.0, b", which has ")?;
    push_a_thread(out, t)?;
    push_io(
        out,
        b", waits in the kernel for I/O ",
        io,
        b". The processor is still that of space ",
        s,
        b", which is owed the news.",
    )
}

fn push_unblock(
    out: &mut Vec<u8>,
    s: SpaceNo,
    t: Option<ThreadNo>,
    a: ActNo,
) -> Result<(), AllocError>
    ensures { OnOk result (out.new.items ≡ out.old.items ++ unblock_words s t a) }
{
    push_one(
        out,
        b"What activation ",
        a.0,
        b" waited for is done; it has ",
    )?;
    push_a_thread(out, t)?;
    push_space(
        out,
        b". Only space ",
        s,
        b" can go on with it, and is owed the news.",
    )
}

fn push_cont(out: &mut Vec<u8>, s: SpaceNo, t: Option<ThreadNo>) -> Result<(), AllocError>
    ensures { OnOk result (out.new.items ≡ out.old.items ++ cont_words s t) }
{
    push_space(
        out,
        b"A section of space ",
        s,
        b" that was cut off runs on in its copy, with ",
    )?;
    push_a_thread(out, t)?;
    push_piece(out, b".")
}

fn push_back(
    out: &mut Vec<u8>,
    in_copy: bool,
    s: SpaceNo,
    t: Option<ThreadNo>,
) -> Result<(), AllocError>
    ensures { OnOk result (out.new.items ≡ out.old.items ++ back_words in_copy s t) }
{
    if in_copy {
        push_through(out, s, t)
    } else {
        push_way(out, s, t)
    }
}

fn push_through(out: &mut Vec<u8>, s: SpaceNo, t: Option<ThreadNo>) -> Result<(), AllocError>
    ensures { OnOk result (out.new.items ≡ out.old.items ++ through_words s t) }
{
    push_space(
        out,
        b"The copy of the section is through: the handler of space ",
        s,
        b" has control, with ",
    )?;
    push_a_thread(out, t)?;
    push_piece(out, b".")
}

fn push_way(out: &mut Vec<u8>, s: SpaceNo, t: Option<ThreadNo>) -> Result<(), AllocError>
    ensures { OnOk result (out.new.items ≡ out.old.items ++ way_words s t) }
{
    match t {
        None => push_space(
            out,
            b"The handler of space ",
            s,
            b" has control again, with no thread.",
        ),
        Some(t) => push_ready(out, s, t, b" gives way, and is to be made ready again."),
    }
}

fn push_ins(
    out: &mut Vec<u8>,
    s: SpaceNo,
    t: ThreadNo,
    i: u16,
    instr: Option<Instr>,
) -> Result<(), AllocError>
    ensures { OnOk result (out.new.items ≡ out.old.items ++ ins_words s t i instr) }
{
    push_ready(out, s, t, b" runs ")?;
    push_numbered(out, b"its instruction ", u64::from(i))?;
    push_ran(out, instr)
}

// Appends the instruction that was run, where it is known.
fn push_ran(out: &mut Vec<u8>, instr: Option<Instr>) -> Result<(), AllocError>
    ensures { OnOk result (out.new.items ≡ out.old.items ++ ran_text instr) }
{
    match instr {
        None => push_piece(out, b"."),
        Some(instr) => push_ran_instr(out, instr),
    }
}

#[tactic(auto, unfolding(crate::specs::Words::ran_words))]
fn push_ran_instr(out: &mut Vec<u8>, instr: Instr) -> Result<(), AllocError>
    ensures { OnOk result (out.new.items ≡ out.old.items ++ ran_words instr) }
{
    push_piece(out, b": ")?;
    push_instr(out, instr)?;
    push_piece(out, b".")
}

// Appends how many processors a space can use.
fn push_want(out: &mut Vec<u8>, s: SpaceNo, n: u16) -> Result<(), AllocError>
    ensures { OnOk result (out.new.items ≡ out.old.items ++ want_words s n) }
{
    push_two(
        out,
        b"Space ",
        u64::from(s.0),
        b" says that it can use ",
        u64::from(n),
        processors_word(n),
    )
}

fn processors_word(n: u16) -> &'static [u8]
    ensures { result.now ≡ processors_word n }
{
    if n == 1 {
        b" processor."
    } else {
        b" processors."
    }
}

#[tactic(auto, unfolding(crate::specs::Words::move_words))]
fn push_move(
    out: &mut Vec<u8>,
    old: Option<SpaceNo>,
    new: Option<SpaceNo>,
) -> Result<(), AllocError>
    ensures { OnOk result (out.new.items ≡ out.old.items ++ move_words old new) }
{
    out.extend_from_slice(b"The processor goes from ")?;
    push_a_space(out, old)?;
    out.extend_from_slice(b" to ")?;
    push_a_space(out, new)?;
    push_piece(out, b".")
}

fn push_aim(out: &mut Vec<u8>, p: ProcNo, s: Option<SpaceNo>) -> Result<(), AllocError>
    ensures { OnOk result (out.new.items ≡ out.old.items ++ aim_words p s) }
{
    push_processor(out, b"By the policy, processor ", p, b" should go to ")?;
    push_a_space(out, s)?;
    push_piece(out, b".")
}

// Appends the number of a space, of a processor, of a list and its space, of an I/O and a space, between words.

fn push_space(out: &mut Vec<u8>, before: &[u8], s: SpaceNo, behind: &[u8]) -> Result<(), AllocError>
    ensures { OnOk result (out.new.items ≡ out.old.items ++ one before.now s.0 behind.now) }
{
    push_one(out, before, u64::from(s.0), behind)
}

fn push_processor(
    out: &mut Vec<u8>,
    before: &[u8],
    p: ProcNo,
    behind: &[u8],
) -> Result<(), AllocError>
    ensures { OnOk result (out.new.items ≡ out.old.items ++ one before.now p.0 behind.now) }
{
    push_one(out, before, u64::from(p.0), behind)
}

fn push_list_of(out: &mut Vec<u8>, l: ProcNo, s: SpaceNo, becomes: &[u8]) -> Result<(), AllocError>
    ensures { OnOk result (out.new.items
        ≡ out.old.items ++ two (codes "The lock of list ") l.0 (codes " of space ") s.0 becomes.now) }
{
    push_two(
        out,
        b"The lock of list ",
        u64::from(l.0),
        b" of space ",
        u64::from(s.0),
        becomes,
    )
}

fn push_io(
    out: &mut Vec<u8>,
    before: &[u8],
    io: IoNo,
    between: &[u8],
    s: SpaceNo,
    behind: &[u8],
) -> Result<(), AllocError>
    ensures { OnOk result (out.new.items ≡ out.old.items ++ two before.now io.0 between.now s.0 behind.now) }
{
    push_two(
        out,
        before,
        u64::from(io.0),
        between,
        u64::from(s.0),
        behind,
    )
}

// Appends what an upcall tells.
fn push_told(out: &mut Vec<u8>, note: Note) -> Result<(), AllocError>
    ensures { OnOk result (out.new.items ≡ out.old.items ++ told_words note) }
{
    match note {
        Note::Add(p) => push_one(
            out,
            b"It hears that processor ",
            u64::from(p.0),
            b" is its own.",
        ),
        Note::Preempted(a) => push_one(out, b"It hears that activation ", a.0, b" was preempted."),
        Note::Blocked(a) => push_one(out, b"It hears that activation ", a.0, b" has blocked."),
        Note::Unblocked(a) => push_one(out, b"It hears that activation ", a.0, b" has unblocked."),
    }
}
