// Questions, and what is told of threads, as lines.
ghost use Rattle.std.specs.Prelude.{◌≡◌, ◌++◌, OnOk};
ghost use Rattle.sa_replies.specs.Texts.{number_text, thread_text, question_text, hand_text, place_text};

use sa_asked::Question;
use sa_base::{ProcNo, SpaceNo, ThreadNo};
use sa_laws::Place;
use sa_text::print_number;
use std::alloc::AllocError;

/// Appends the line of a question: event `event` is a step of the processor.
pub fn append_question(
    out: &mut Vec<u8>,
    event: u64,
    p: ProcNo,
    question: &Question,
) -> Result<(), AllocError>
    ensures { OnOk result (out.new.items ≡ out.old.items ++ question_text event p question.now) }
{
    out.extend_from_slice(b"ask")?;
    push_number(out, event)?;
    push_number(out, u64::from(p.0))?;
    push_number(out, u64::from(question.space.0))?;
    push_number(out, u64::from(question.act.0))?;
    push_thread(out, question.thread)?;
    push_number(out, u64::from(question.demand))?;
    push_number(out, u64::from(question.taken))?;
    out.extend_from_slice(b"\n")
}

/// Appends the line that says that a thread of a space, of this program, can be made ready.
pub(crate) fn append_hand(
    out: &mut Vec<u8>,
    s: SpaceNo,
    t: ThreadNo,
    program: u16,
) -> Result<(), AllocError>
    ensures { OnOk result (out.new.items ≡ out.old.items ++ hand_text s t program) }
{
    out.extend_from_slice(b"hand")?;
    push_number(out, u64::from(s.0))?;
    push_number(out, u64::from(t.0))?;
    push_number(out, u64::from(program))?;
    out.extend_from_slice(b"\n")
}

/// Appends the line that says that a thread in this place waits or is done after its instruction, if it does or is.
pub(crate) fn append_place(
    out: &mut Vec<u8>,
    s: SpaceNo,
    t: ThreadNo,
    place: Place,
) -> Result<(), AllocError>
    ensures { OnOk result (out.new.items ≡ out.old.items ++ place_text s t place) }
{
    match place {
        Place::Waiting => out.extend_from_slice(b"waiting")?,
        Place::Done => out.extend_from_slice(b"done")?,
        _ => return Ok(()),
    }
    push_number(out, u64::from(s.0))?;
    push_number(out, u64::from(t.0))?;
    out.extend_from_slice(b"\n")
}

// Appends a space and a number.
fn push_number(out: &mut Vec<u8>, n: u64) -> Result<(), AllocError>
    ensures { OnOk result (out.new.items ≡ out.old.items ++ number_text n) }
{
    out.extend_from_slice(b" ")?;
    print_number(n, out)
}

// Appends a space and a thread, or a dash for none.
fn push_thread(out: &mut Vec<u8>, t: Option<ThreadNo>) -> Result<(), AllocError>
    ensures { OnOk result (out.new.items ≡ out.old.items ++ thread_text t) }
{
    match t {
        None => out.extend_from_slice(b" -"),
        Some(t) => push_number(out, u64::from(t.0)),
    }
}
