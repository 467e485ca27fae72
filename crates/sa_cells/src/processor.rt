// What the cells of a processor hold.
ghost use Rattle.std.specs.Prelude.{◌≡◌, ◌++◌, OnOk};
ghost use Rattle.sa_check_moment.specs.Seen.{seen};
ghost use Rattle.sa_cells.specs.Processor.{line_text, handler_text, copy_text, thread_text, carrying_text, runs_text};

use crate::pieces::push_numbered;
use sa_base::{ProcNo, ThreadNo};
use sa_check_lives::KeptLife;
use sa_check_moment::Moment;
use std::alloc::AllocError;

/// Appends whether a line is raised, and since when.
pub(crate) fn push_line(out: &mut Vec<u8>, line: Option<u64>) -> Result<(), AllocError>
    ensures { OnOk result (out.new.items ≡ out.old.items ++ line_text line) }
{
    match line {
        None => out.extend_from_slice(b"low"),
        Some(event) => push_numbered(out, b"raised at event ", event),
    }
}

/// Appends what runs on the processor.
pub(crate) fn push_runs(out: &mut Vec<u8>, moment: &Moment, p: ProcNo) -> Result<(), AllocError>
    ensures { OnOk result (out.new.items ≡ out.old.items ++ runs_text (seen moment.now).readings p) }
{
    let t = moment.carried(p);
    match moment.life_on(p) {
        None => out.extend_from_slice(b"nothing"),
        Some(life) => push_carrying(out, life, t),
    }
}

// Appends what runs in a life that carries this thread.
fn push_carrying(out: &mut Vec<u8>, life: &KeptLife, t: Option<ThreadNo>) -> Result<(), AllocError>
    ensures { OnOk result (out.new.items ≡ out.old.items ++ carrying_text life.now t) }
{
    match t {
        None => out.extend_from_slice(handler_text(life)),
        Some(t) => push_thread(out, life, t),
    }
}

// What runs in a life that carries no thread.
fn handler_text(life: &KeptLife) -> &'static [u8]
    ensures { result.now ≡ handler_text life.now }
{
    if life.cont() {
        b"the handler, in the copy of a section"
    } else if life.scans() == 0 {
        b"the handler"
    } else {
        b"a look in vain"
    }
}

#[tactic(auto, unfolding(crate::specs::Processor::thread_text))]
fn push_thread(out: &mut Vec<u8>, life: &KeptLife, t: ThreadNo) -> Result<(), AllocError>
    ensures { OnOk result (out.new.items ≡ out.old.items ++ thread_text life.now t) }
{
    push_numbered(out, b"thread ", u64::from(t.0))?;
    out.extend_from_slice(copy_text(life))
}

// That a life runs a section in its copy.
fn copy_text(life: &KeptLife) -> &'static [u8]
    ensures { result.now ≡ copy_text life.now }
{
    if life.cont() {
        b", in the copy of its section"
    } else {
        b""
    }
}
