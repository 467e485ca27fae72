ghost use Rattle.std.specs.Prelude.{◌≡◌, ◌++◌, OnOk, OnErr};
ghost use Rattle.std.specs.List.{flat_map};
ghost use Rattle.sa_debug.specs.script.Reply.{number_text, register_text, break_text, place_text, view_text, reply_words, reply_text};

use crate::script::command::Point;
use crate::script::reply::{Reply, View};
use sa_base::ProcNo;
use sa_instr::{Reg, Regs};
use sa_laws::Place;
use sa_text::print_number;
use sa_trace::end_word;
use std::alloc::AllocError;

// All registers of a thread.
const REGS: [Reg; 8] = [
    Reg::R0,
    Reg::R1,
    Reg::R2,
    Reg::R3,
    Reg::R4,
    Reg::R5,
    Reg::R6,
    Reg::R7,
];

/// Appends the reply's text and a line feed. An error, which is want of memory, changes nothing.
pub fn print_reply(reply: &Reply, out: &mut Vec<u8>) -> Result<(), AllocError>
    ensures ok { OnOk result (out.new.items ≡ out.old.items ++ reply_text reply.now) }
    ensures err { OnErr result (out.new.items ≡ out.old.items) }
{
    let mut line = Vec::new(*out.allocator());
    push_reply(&mut line, reply)?;
    line.extend_from_slice(b"\n")?;
    out.extend_from_slice(&line)
}

fn push_reply(out: &mut Vec<u8>, reply: &Reply) -> Result<(), AllocError>
    ensures { OnOk result (out.new.items ≡ out.old.items ++ reply_words reply.now) }
{
    match *reply {
        Reply::Accepted => out.extend_from_slice(b"ok"),
        Reply::Full => out.extend_from_slice(b"full"),
        Reply::NotThere => out.extend_from_slice(b"none"),
        Reply::Event(event) => {
            out.extend_from_slice(b"event")?;
            push_number(out, event)
        }
        Reply::Ended(end) => {
            out.extend_from_slice(b"ended ")?;
            out.extend_from_slice(end_word(end))
        }
        Reply::AtBreak(p, point) => push_break(out, p, point),
        Reply::Halted => out.extend_from_slice(b"halted"),
        Reply::Shown(view) => push_view(out, &view),
    }
}

// Appends a space and a number.
fn push_number(out: &mut Vec<u8>, n: u64) -> Result<(), AllocError>
    ensures { OnOk result (out.new.items ≡ out.old.items ++ number_text n) }
{
    out.extend_from_slice(b" ")?;
    print_number(n, out)
}

fn push_break(out: &mut Vec<u8>, p: ProcNo, point: Point) -> Result<(), AllocError>
    ensures { OnOk result (out.new.items ≡ out.old.items ++ break_text p point) }
{
    out.extend_from_slice(b"break")?;
    push_number(out, u64::from(p.0))?;
    push_number(out, u64::from(point.space.0))?;
    push_number(out, u64::from(point.thread.0))?;
    push_number(out, u64::from(point.place))
}

fn push_view(out: &mut Vec<u8>, view: &View) -> Result<(), AllocError>
    ensures { OnOk result (out.new.items ≡ out.old.items ++ view_text view.now) }
{
    push_place(out, view.place)?;
    push_number(out, u64::from(view.pc))?;
    push_registers(out, &view.regs)
}

fn push_place(out: &mut Vec<u8>, place: Place) -> Result<(), AllocError>
    ensures { OnOk result (out.new.items ≡ out.old.items ++ place_text place) }
{
    match place {
        Place::Running(p) => {
            out.extend_from_slice(b"running")?;
            push_number(out, u64::from(p.0))
        }
        Place::Ready => out.extend_from_slice(b"ready"),
        Place::Blocked => out.extend_from_slice(b"blocked"),
        Place::Waiting => out.extend_from_slice(b"waiting"),
        Place::Carried => out.extend_from_slice(b"carried"),
        Place::Done => out.extend_from_slice(b"done"),
    }
}

fn push_registers(out: &mut Vec<u8>, regs: &Regs) -> Result<(), AllocError>
    ensures { OnOk result (out.new.items ≡ out.old.items ++ flat_map number_text regs.now) }
{
    regs.ranges();
    push_some(out, regs, &REGS)
}

// Appends what these registers hold.
fn push_some(out: &mut Vec<u8>, regs: &Regs, some: &[Reg]) -> Result<(), AllocError>
    ensures { OnOk result (out.new.items ≡ out.old.items ++ flat_map (register_text regs.now) some.now) }
{
    for &reg in some {
        push_number(out, regs.get(reg))?;
    }
    Ok(())
}
