// What follows the first word of a reply.
ghost use Rattle.std.specs.Prelude.{◌≡◌, ◌≤◌};
ghost use Rattle.sa_trace.specs.Pieces.{number_in, with_rest};
ghost use Rattle.sa_replies.specs.Fields.{taken, thread_in, thread_or_none_in, proc_in, demand_in};

use sa_base::{Cause, MAX_THREADS, ProcNo, ThreadNo};
use sa_text::Pieces;
use sa_trace::words::{next, read_within};

/// What a reply may name.
#[derive(Clone, Copy)]
pub struct Names {
    /// The number of processors.
    pub processors: u16,
    /// The number of threads that its space has made.
    pub threads: u16,
}

// The thread that a piece names.
fn thread_of(names: Names, piece: &[u8]) -> Result<ThreadNo, Cause>
    ensures { result ≡ thread_in names piece.now }
{
    let n = read_within(0, u64::from(MAX_THREADS - 1), piece)?;
    if n < u64::from(names.threads) {
        Ok(ThreadNo(n as u16))
    } else {
        Err(Cause::NoSuchName)
    }
}

/// The thread that the next piece names.
pub(crate) fn read_thread(names: Names, words: &mut Pieces) -> Result<ThreadNo, Cause>
    ensures { with_rest result words.new ≡ taken (thread_in names) words.old }
{
    let piece = next(words)?;
    thread_of(names, piece)
}

/// The thread that the next piece names, or none where it is a dash.
pub(crate) fn read_thread_or_none(
    names: Names,
    words: &mut Pieces,
) -> Result<Option<ThreadNo>, Cause>
    ensures { with_rest result words.new ≡ taken (thread_or_none_in names) words.old }
{
    let piece = next(words)?;
    if piece == b"-".as_slice() {
        return Ok(None);
    }
    let thread = thread_of(names, piece)?;
    Ok(Some(thread))
}

/// The processor that the next piece names.
pub(crate) fn read_proc(names: Names, words: &mut Pieces) -> Result<ProcNo, Cause>
    requires { 1 ≤ names.processors }
    ensures { with_rest result words.new ≡ taken (proc_in names) words.old }
{
    let piece = next(words)?;
    let n = read_within(0, u64::from(names.processors - 1), piece)?;
    Ok(ProcNo(n as u16))
}

/// The demand that the next piece spells.
pub(crate) fn read_demand(names: Names, words: &mut Pieces) -> Result<u16, Cause>
    ensures { with_rest result words.new ≡ taken (demand_in names) words.old }
{
    let piece = next(words)?;
    let n = read_within(0, u64::from(names.processors), piece)?;
    Ok(n as u16)
}
