// What a record says, with the names of its source.
ghost use Rattle.std.specs.Prelude.{◌≡◌, ◌++◌, OnOk};
ghost use Rattle.sa_programs.specs.Programs.{instr_in};
ghost use Rattle.toga_verdict.specs.Words.{heard, told_words, program_in, instr_words, thread_words, act_words, list_words, processor_words, own_words, ran_words, words_by, words_of};

use crate::pieces::Piece::{Activation, Count, Io, Processor, Space, Thread, Value, Words};
use crate::pieces::push_pieces;
use crate::source::{Source, push_thread};
use sa_base::{Note, Record, SpaceNo, ThreadNo};
use sa_instr::Instr;
use sa_programs::Programs;
use sa_text::print_number;
use std::alloc::AllocError;
use toga_source::{SpaceNames, push_instr_text};

/// Appends what a record says, after the threads of these programs were made.
pub(crate) fn push_words(
    out: &mut Vec<u8>,
    source: &Source,
    programs: &Programs,
    what: Record,
) -> Result<(), AllocError>
    ensures { OnOk result (out.new.items ≡ out.old.items ++ words_of source.now programs.now what) }
{
    let instr = instr_of(source, programs, &what);
    push_by(
        out,
        source,
        programs,
        what,
        program_in(programs, what),
        instr,
    )
}

/// The instruction that a record runs, if it is known.
pub(crate) fn instr_of(source: &Source, programs: &Programs, what: &Record) -> Option<Instr>
    ensures { result ≡ instr_in source.now.workload programs.now what.now }
{
    programs.instr(source.workload, what)
}

// The program of the thread that a record runs, if it is known.
fn program_in(programs: &Programs, what: Record) -> Option<u16>
    ensures { result ≡ program_in programs.now what }
{
    match what {
        Record::Ins(s, t, _) => programs.program(s, t),
        _ => None,
    }
}

// Appends what a record says that runs this instruction of this program, if they are known.
fn push_by(
    out: &mut Vec<u8>,
    source: &Source,
    programs: &Programs,
    what: Record,
    program: Option<u16>,
    instr: Option<Instr>,
) -> Result<(), AllocError>
    ensures { OnOk result (out.new.items ≡ out.old.items ++ words_by source.now programs.now what program instr) }
{
    match (what, program, instr) {
        (Record::Ins(s, t, i), Some(program), Some(instr)) => {
            push_ran(out, source, programs, (s, t), program, (i, instr))
        }
        _ => push_own(out, source.names, programs, what),
    }
}

// Appends the line of an instruction of a thread that runs a program, and the instruction.
#[tactic(auto, unfolding(crate::specs::Words::ran_words))]
fn push_ran(
    out: &mut Vec<u8>,
    source: &Source,
    programs: &Programs,
    thread: (SpaceNo, ThreadNo),
    program: u16,
    at: (u16, Instr),
) -> Result<(), AllocError>
    ensures { OnOk result (out.new.items
        ≡ out.old.items ++ ran_words source.now programs.now thread.0 thread.1 program at.0 at.1) }
{
    let (s, t) = thread;
    let (place, instr) = at;
    push_thread(out, source.names, programs, s, t)?;
    out.extend_from_slice(b" runs line ")?;
    print_number(source.line_at(s, program, place), out)?;
    out.extend_from_slice(b", `")?;
    push_instr(out, source, s, program, instr)?;
    out.extend_from_slice(b"`")
}

// Appends an instruction of a program with its operands by name.
fn push_instr(
    out: &mut Vec<u8>,
    source: &Source,
    s: SpaceNo,
    program: u16,
    instr: Instr,
) -> Result<(), AllocError>
    ensures { OnOk result (out.new.items ≡ out.old.items ++ instr_words source.now s program instr) }
{
    let labels = source.labels(s, program);
    match source.names.get(usize::from(s.0)) {
        Some(own) => push_instr_text(out, own, labels, instr),
        None => Ok(()),
    }
}

// Appends what a record says by itself.
#[tactic(auto, unfolding(crate::specs::Words::own_words))]
fn push_own(
    out: &mut Vec<u8>,
    names: &[SpaceNames],
    programs: &Programs,
    what: Record,
) -> Result<(), AllocError>
    ensures { OnOk result (out.new.items ≡ out.old.items ++ own_words names.now programs.now what) }
{
    push_of_thread(out, names, programs, what)?;
    push_of_act(out, names, programs, what)?;
    push_of_list(out, names, programs, what)?;
    push_of_processor(out, names, programs, what)
}

// Appends what a record of a thread says.
fn push_of_thread(
    out: &mut Vec<u8>,
    names: &[SpaceNames],
    programs: &Programs,
    what: Record,
) -> Result<(), AllocError>
    ensures { OnOk result (out.new.items ≡ out.old.items ++ thread_words names.now programs.now what) }
{
    match what {
        Record::Ins(s, t, i) => push_pieces(
            out,
            names,
            programs,
            &[
                Thread(s, Some(t)),
                Words(b" runs its instruction at "),
                Count(i),
            ],
        ),
        Record::Out(s, t, value) => push_pieces(
            out,
            names,
            programs,
            &[Thread(s, Some(t)), Words(b" puts out "), Value(value)],
        ),
        Record::Run(s, t) => push_pieces(
            out,
            names,
            programs,
            &[
                Thread(s, Some(t)),
                Words(b" leaves its ready list, and runs here"),
            ],
        ),
        Record::Cont(s, t) => push_pieces(
            out,
            names,
            programs,
            &[
                Words(b"a section that was cut off goes on in its copy, with "),
                Thread(s, t),
            ],
        ),
        Record::Back(s, t) => push_pieces(
            out,
            names,
            programs,
            &[Words(b"the handler has control, with "), Thread(s, t)],
        ),
        Record::Ready(s, t) => push_pieces(
            out,
            names,
            programs,
            &[
                Thread(s, Some(t)),
                Words(b" is ready, and stands in a list"),
            ],
        ),
        _ => Ok(()),
    }
}

// Appends what a record of an activation says.
fn push_of_act(
    out: &mut Vec<u8>,
    names: &[SpaceNames],
    programs: &Programs,
    what: Record,
) -> Result<(), AllocError>
    ensures { OnOk result (out.new.items ≡ out.old.items ++ act_words names.now programs.now what) }
{
    match what {
        Record::Stop(s, t, a) => push_pieces(
            out,
            names,
            programs,
            &[
                Words(b"an interrupt takes the processor from activation "),
                Activation(a),
                Words(b", which has "),
                Thread(s, t),
            ],
        ),
        Record::Block(s, t, a, io) => push_pieces(
            out,
            names,
            programs,
            &[
                Words(b"activation "),
                Activation(a),
                Words(b", which has "),
                Thread(s, t),
                Words(b", waits in the kernel for I/O "),
                Io(io),
            ],
        ),
        Record::Unblock(s, t, a) => push_pieces(
            out,
            names,
            programs,
            &[
                Words(b"what activation "),
                Activation(a),
                Words(b" waited for is done; it has "),
                Thread(s, t),
            ],
        ),
        Record::Up(s, a) => push_pieces(
            out,
            names,
            programs,
            &[
                Space(Some(s)),
                Words(b" gets an upcall, in activation "),
                Activation(a),
            ],
        ),
        Record::Told(note) => push_told(out, note),
        Record::GiveBack(a) => push_pieces(
            out,
            names,
            programs,
            &[
                Words(b"the number of activation "),
                Activation(a),
                Words(b" is free again"),
            ],
        ),
        _ => Ok(()),
    }
}

// Appends what a record of a list says, or one of a turn in which nothing is done.
fn push_of_list(
    out: &mut Vec<u8>,
    names: &[SpaceNames],
    programs: &Programs,
    what: Record,
) -> Result<(), AllocError>
    ensures { OnOk result (out.new.items ≡ out.old.items ++ list_words names.now programs.now what) }
{
    match what {
        Record::Take(s, l, t) => push_pieces(
            out,
            names,
            programs,
            &[
                Words(b"the lock of list "),
                Processor(l),
                Words(b" is taken, for "),
                Thread(s, t),
            ],
        ),
        Record::Free(s, l, t) => push_pieces(
            out,
            names,
            programs,
            &[
                Words(b"the lock of list "),
                Processor(l),
                Words(b" is free again; it was taken for "),
                Thread(s, t),
            ],
        ),
        Record::Idle => push_pieces(
            out,
            names,
            programs,
            &[Words(b"no list has a thread that could run")],
        ),
        Record::Spin(l) => push_pieces(
            out,
            names,
            programs,
            &[
                Words(b"list "),
                Processor(l),
                Words(b" is locked by another: the turn passes"),
            ],
        ),
        Record::Tick => push_pieces(
            out,
            names,
            programs,
            &[Words(b"no space owns the processor: the turn passes")],
        ),
        _ => Ok(()),
    }
}

// Appends what a record of processors says, or one of an upcall page.
fn push_of_processor(
    out: &mut Vec<u8>,
    names: &[SpaceNames],
    programs: &Programs,
    what: Record,
) -> Result<(), AllocError>
    ensures { OnOk result (out.new.items ≡ out.old.items ++ processor_words names.now programs.now what) }
{
    match what {
        Record::Move(old, new) => push_pieces(
            out,
            names,
            programs,
            &[
                Words(b"the processor goes from "),
                Space(old),
                Words(b" to "),
                Space(new),
            ],
        ),
        Record::Want(s, n) => push_pieces(
            out,
            names,
            programs,
            &[
                Space(Some(s)),
                Words(b" can use "),
                Count(n),
                Words(b" processors"),
            ],
        ),
        Record::Aim(p, s) => push_pieces(
            out,
            names,
            programs,
            &[
                Words(b"by the policy, processor "),
                Processor(p),
                Words(b" should go to "),
                Space(s),
            ],
        ),
        Record::Line(p) => push_pieces(
            out,
            names,
            programs,
            &[
                Words(b"the interrupt line of processor "),
                Processor(p),
                Words(b" goes up"),
            ],
        ),
        Record::Fetch(s) => push_pieces(
            out,
            names,
            programs,
            &[
                Words(b"the upcall page of "),
                Space(Some(s)),
                Words(b" is absent, and on its way"),
            ],
        ),
        Record::Fetched(s) => push_pieces(
            out,
            names,
            programs,
            &[
                Words(b"the upcall page of "),
                Space(Some(s)),
                Words(b" has come"),
            ],
        ),
        _ => Ok(()),
    }
}

// Appends what an upcall tells.
fn push_told(out: &mut Vec<u8>, note: Note) -> Result<(), AllocError>
    ensures { OnOk result (out.new.items ≡ out.old.items ++ told_words note) }
{
    match note {
        Note::Add(p) => push_heard(
            out,
            b"it hears that processor ",
            u64::from(p.0),
            b" is its own",
        ),
        Note::Preempted(a) => push_heard(out, b"it hears that activation ", a.0, b" was preempted"),
        Note::Blocked(a) => push_heard(out, b"it hears that activation ", a.0, b" has blocked"),
        Note::Unblocked(a) => push_heard(out, b"it hears that activation ", a.0, b" has unblocked"),
    }
}

/// Appends a number between words.
pub(crate) fn push_heard(
    out: &mut Vec<u8>,
    before: &[u8],
    n: u64,
    after: &[u8],
) -> Result<(), AllocError>
    ensures { OnOk result (out.new.items ≡ out.old.items ++ heard before.now n after.now) }
{
    out.extend_from_slice(before)?;
    print_number(n, out)?;
    out.extend_from_slice(after)
}
