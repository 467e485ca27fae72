// How many threads are where.
ghost use Rattle.std.specs.Prelude.{◌≡◌, ◌++◌, ◌≤◌, ◌<◌, length, OnOk};
ghost use Rattle.sa_page.specs.Counts.{waiting_by, standing_of, same_standing, count_in, count_of, made_of, standing_words, one_stands, some_stand, counted_words, more_words, more_if, others_words, threads_word, of_words, parted_words, made_word, made_words, counts_words};

use sa_base::{SpaceNo, ThreadNo};
use sa_laws::Place;
use sa_replay::Replay;
use sa_text::print_number;
use std::alloc::AllocError;

/// How a thread stands.
#[derive(Clone, Copy)]
pub(crate) enum Standing {
    /// At its end.
    Done,
    /// On a processor.
    Runs,
    /// In a ready list.
    Ready,
    /// For a mutex, a semaphore or another thread.
    Waits,
    /// In the kernel.
    Blocked,
    /// To be made ready.
    Unready,
}

/// Appends how many threads there are, and how they stand.
pub(crate) fn push_counts(out: &mut Vec<u8>, replay: &Replay) -> Result<(), AllocError>
    ensures { OnOk result (out.new.items ≡ out.old.items ++ counts_words replay.now.state) }
{
    let made = made_of(replay);
    let done = count_of(replay, Standing::Done);
    if done == made {
        push_made(out, made)
    } else {
        push_parted(out, replay, made, done)
    }
}

#[tactic(auto, unfolding(crate::specs::Counts::made_words))]
fn push_made(out: &mut Vec<u8>, made: u64) -> Result<(), AllocError>
    ensures { OnOk result (out.new.items ≡ out.old.items ++ made_words made) }
{
    out.extend_from_slice(b" ")?;
    print_number(made, out)?;
    out.extend_from_slice(made_word(made))
}

fn made_word(n: u64) -> &'static [u8]
    ensures { result.now ≡ made_word n }
{
    if n == 1 {
        b" thread was made."
    } else {
        b" threads were made."
    }
}

// Appends how many of these stand how.
#[tactic(auto, unfolding(crate::specs::Counts::parted_words))]
fn push_parted(out: &mut Vec<u8>, replay: &Replay, made: u64, done: u64) -> Result<(), AllocError>
    requires made { made ≡ made_of replay.now.state }
    requires done { done ≡ count_of replay.now.state Standing.Done }
    ensures { OnOk result (out.new.items ≡ out.old.items ++ parted_words replay.now.state) }
{
    push_of(out, made)?;
    push_counted(out, done, Standing::Done)?;
    push_others(out, replay)?;
    out.extend_from_slice(b".")
}

#[tactic(auto, unfolding(crate::specs::Counts::of_words))]
fn push_of(out: &mut Vec<u8>, made: u64) -> Result<(), AllocError>
    ensures { OnOk result (out.new.items ≡ out.old.items ++ of_words made) }
{
    out.extend_from_slice(b" Of ")?;
    print_number(made, out)?;
    out.extend_from_slice(threads_word(made))
}

fn threads_word(n: u64) -> &'static [u8]
    ensures { result.now ≡ threads_word n }
{
    if n == 1 { b" thread " } else { b" threads " }
}

// Appends those that are not done.
#[tactic(auto, unfolding(crate::specs::Counts::others_words))]
fn push_others(out: &mut Vec<u8>, replay: &Replay) -> Result<(), AllocError>
    ensures { OnOk result (out.new.items ≡ out.old.items ++ others_words replay.now.state) }
{
    push_more(out, replay, Standing::Runs)?;
    push_more(out, replay, Standing::Ready)?;
    push_more(out, replay, Standing::Waits)?;
    push_more(out, replay, Standing::Blocked)?;
    push_more(out, replay, Standing::Unready)
}

fn push_more(out: &mut Vec<u8>, replay: &Replay, standing: Standing) -> Result<(), AllocError>
    ensures { OnOk result (out.new.items
        ≡ out.old.items ++ more_if (count_of replay.now.state standing) standing) }
{
    let n = count_of(replay, standing);
    if n == 0 {
        return Ok(());
    }
    push_some(out, n, standing)
}

#[tactic(auto, unfolding(crate::specs::Counts::more_words))]
fn push_some(out: &mut Vec<u8>, n: u64, standing: Standing) -> Result<(), AllocError>
    ensures { OnOk result (out.new.items ≡ out.old.items ++ more_words n standing) }
{
    out.extend_from_slice(b", ")?;
    push_counted(out, n, standing)
}

#[tactic(auto, unfolding(crate::specs::Counts::counted_words))]
fn push_counted(out: &mut Vec<u8>, n: u64, standing: Standing) -> Result<(), AllocError>
    ensures { OnOk result (out.new.items ≡ out.old.items ++ counted_words n standing) }
{
    print_number(n, out)?;
    out.extend_from_slice(standing_words(n, standing))
}

fn standing_words(n: u64, standing: Standing) -> &'static [u8]
    ensures { result.now ≡ standing_words n standing }
{
    if n == 1 {
        one_stands(standing)
    } else {
        some_stand(standing)
    }
}

fn one_stands(standing: Standing) -> &'static [u8]
    ensures { result.now ≡ one_stands standing }
{
    match standing {
        Standing::Done => b" is done",
        Standing::Runs => b" runs",
        Standing::Ready => b" is ready",
        Standing::Waits => b" waits",
        Standing::Blocked => b" is blocked",
        Standing::Unready => b" is to be made ready",
    }
}

fn some_stand(standing: Standing) -> &'static [u8]
    ensures { result.now ≡ some_stand standing }
{
    match standing {
        Standing::Done => b" are done",
        Standing::Runs => b" run",
        Standing::Ready => b" are ready",
        Standing::Waits => b" wait",
        Standing::Blocked => b" are blocked",
        Standing::Unready => b" are to be made ready",
    }
}

// How many threads were made.
fn made_of(replay: &Replay) -> u64
    ensures { result ≡ made_of replay.now.state }
{
    let mut n = 0;
    for s in 0..replay.spaces() {
        n += u64::from(replay.made(SpaceNo(s)));
    }
    n
}

// How many threads stand so.
fn count_of(replay: &Replay, standing: Standing) -> u64
    ensures { result ≡ count_of replay.now.state standing }
{
    let mut n = 0;
    for s in 0..replay.spaces() {
        n += u64::from(count_in(replay, standing, SpaceNo(s)));
    }
    n
}

// How many of a space.
fn count_in(replay: &Replay, standing: Standing, s: SpaceNo) -> u16
    ensures { result ≡ count_in replay.now.state standing s }
{
    let mut n = 0;
    for t in 0..replay.made(s) {
        if same_standing(standing_of(replay, s, ThreadNo(t)), standing) {
            n += 1;
        }
    }
    n
}

fn standing_of(replay: &Replay, s: SpaceNo, t: ThreadNo) -> Standing
    ensures { result ≡ standing_of replay.now.state s t }
{
    match replay.thread(s, t).place() {
        Place::Running(_) => Standing::Runs,
        Place::Ready => Standing::Ready,
        Place::Blocked => Standing::Blocked,
        Place::Waiting => waiting_by(replay.is_due(s, t)),
        Place::Carried => Standing::Unready,
        Place::Done => Standing::Done,
    }
}

fn waiting_by(due: bool) -> Standing
    ensures { result ≡ waiting_by due }
{
    if due {
        Standing::Unready
    } else {
        Standing::Waits
    }
}

fn same_standing(x: Standing, y: Standing) -> bool
    ensures { result ≡ same_standing x y }
{
    match (x, y) {
        (Standing::Done, Standing::Done) => true,
        (Standing::Runs, Standing::Runs) => true,
        (Standing::Ready, Standing::Ready) => true,
        (Standing::Waits, Standing::Waits) => true,
        (Standing::Blocked, Standing::Blocked) => true,
        (Standing::Unready, Standing::Unready) => true,
        _ => false,
    }
}
