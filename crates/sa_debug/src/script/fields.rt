// What follows the first word of a line.
ghost use Rattle.std.specs.Prelude.{◌≡◌};
ghost use Rattle.sa_trace.specs.Pieces.{number_in, with_rest};
ghost use Rattle.sa_debug.specs.script.Fields.{taken, space_in, proc_in, turns_in, thread_at, point_at};

use crate::script::command::Point;
use sa_base::{Cause, MAX_EVENTS, MAX_THREADS, ProcNo, SpaceNo, ThreadNo};
use sa_instr::MAX_INSTRUCTIONS;
use sa_spaces::Workload;
use sa_text::{Pieces, read_number};
use sa_trace::words::{next, read_within};

/// A thread of a space.
#[derive(Clone, Copy)]
pub(crate) struct Named {
    pub(crate) space: SpaceNo,
    pub(crate) thread: ThreadNo,
}

// The space that the next piece names.
fn read_space(w: &Workload, words: &mut Pieces) -> Result<SpaceNo, Cause>
    ensures { with_rest result words.new ≡ taken (space_in w.now) words.old }
{
    let piece = next(words)?;
    let n = read_number(piece).ok_or(Cause::BadNumber)?;
    if n < w.spaces().len() as u64 {
        Ok(SpaceNo(n as u16))
    } else {
        Err(Cause::NoSuchName)
    }
}

// The number of 16 bits that the next piece spells, where it is at most `greatest`.
fn read_small(greatest: u16, words: &mut Pieces) -> Result<u16, Cause>
    ensures { with_rest result words.new ≡ taken (number_in 0 greatest) words.old }
{
    let piece = next(words)?;
    let n = read_within(0, u64::from(greatest), piece)?;
    Ok(n as u16)
}

/// The thread of a space that the next two pieces name.
pub(crate) fn read_thread(w: &Workload, words: &mut Pieces) -> Result<Named, Cause>
    ensures { with_rest result words.new ≡ thread_at w.now words.old }
{
    let space = read_space(w, words)?;
    let thread = read_small(MAX_THREADS - 1, words)?;
    Ok(Named {
        space,
        thread: ThreadNo(thread),
    })
}

/// The breakpoint that the next three pieces name.
pub(crate) fn read_point(w: &Workload, words: &mut Pieces) -> Result<Point, Cause>
    ensures { with_rest result words.new ≡ point_at w.now words.old }
{
    let Named { space, thread } = read_thread(w, words)?;
    let place = read_small(MAX_INSTRUCTIONS as u16 - 1, words)?;
    Ok(Point {
        space,
        thread,
        place,
    })
}

/// The processor that the next piece names.
pub(crate) fn read_proc(w: &Workload, words: &mut Pieces) -> Result<ProcNo, Cause>
    ensures { with_rest result words.new ≡ taken (proc_in w.now) words.old }
{
    let processor = read_small(w.processors() - 1, words)?;
    Ok(ProcNo(processor))
}

/// The number of turns that the next piece spells.
pub(crate) fn read_turns(words: &mut Pieces) -> Result<u32, Cause>
    ensures { with_rest result words.new ≡ taken turns_in words.old }
{
    let piece = next(words)?;
    let n = read_within(1, MAX_EVENTS, piece)?;
    Ok(n as u32)
}
