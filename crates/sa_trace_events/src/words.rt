// The words of tracks and slices.
ghost use Rattle.std.specs.Prelude.{◌≡◌, ◌++◌, OnOk};
ghost use Rattle.sa_svg.specs.Markup.{numbered};
ghost use Rattle.sa_trace_events.specs.Words.{count_word, owner_name, act_name, work_name, context_name, twice_numbered, doing_name, holder_name, state_name, category, track_name};

use crate::slices::State;
use crate::state::{Context, Doing, Holder};
use crate::track::{Count, Level, Track};
use sa_base::{ActNo, SpaceNo};
use sa_shapes::Look;
use sa_text::print_number;
use std::alloc::AllocError;

/// Appends a word and a number after it.
pub(crate) fn push_numbered(out: &mut Vec<u8>, word: &[u8], n: u64) -> Result<(), AllocError>
    ensures { OnOk result (out.new.items ≡ out.old.items ++ numbered word.now n) }
{
    out.extend_from_slice(word)?;
    print_number(n, out)
}

fn push_twice_numbered(
    out: &mut Vec<u8>,
    word: &[u8],
    n: u64,
    other: &[u8],
    m: u64,
) -> Result<(), AllocError>
    ensures { OnOk result (out.new.items ≡ out.old.items ++ twice_numbered word.now n other.now m) }
{
    push_numbered(out, word, n)?;
    push_numbered(out, other, m)
}

impl Count {
    /// What is counted.
    pub(crate) fn word(self) -> &'static [u8]
        ensures { result.now ≡ count_word self }
    {
        match self {
            Count::Demand => b"demand",
            Count::Aimed => b"processors aimed",
            Count::Owned => b"processors owned",
            Count::Ready => b"ready threads",
            Count::Untold => b"untold",
        }
    }
}

fn push_owner_name(out: &mut Vec<u8>, owner: Option<SpaceNo>) -> Result<(), AllocError>
    ensures { OnOk result (out.new.items ≡ out.old.items ++ owner_name owner) }
{
    match owner {
        None => out.extend_from_slice(b"none"),
        Some(s) => push_numbered(out, b"space ", u64::from(s.0)),
    }
}

fn push_act_name(out: &mut Vec<u8>, act: Option<ActNo>) -> Result<(), AllocError>
    ensures { OnOk result (out.new.items ≡ out.old.items ++ act_name act) }
{
    match act {
        None => out.extend_from_slice(b"none"),
        Some(a) => push_numbered(out, b"activation ", a.0),
    }
}

fn push_work_name(out: &mut Vec<u8>, look: Look) -> Result<(), AllocError>
    ensures { OnOk result (out.new.items ≡ out.old.items ++ work_name look) }
{
    match look {
        Look::Thread(_, t) => push_numbered(out, b"thread ", u64::from(t.0)),
        Look::List(_, l) => push_numbered(out, b"list ", u64::from(l.0)),
        Look::Package(_) => out.extend_from_slice(b"package"),
        Look::GoesOn(_) => out.extend_from_slice(b"goes on"),
        Look::Idle(_) => out.extend_from_slice(b"look in vain"),
        Look::Section(_) => out.extend_from_slice(b"section in its copy"),
        Look::Unowned | Look::Placed(_) => out.extend_from_slice(b"none"),
    }
}

fn push_context_name(out: &mut Vec<u8>, level: Level, context: Context) -> Result<(), AllocError>
    ensures { OnOk result (out.new.items ≡ out.old.items ++ context_name level context) }
{
    match level {
        Level::Owner => push_owner_name(out, context.look.owner()),
        Level::Activation => push_act_name(out, context.act),
        Level::Work => push_work_name(out, context.look),
    }
}

fn push_doing_name(out: &mut Vec<u8>, doing: Doing) -> Result<(), AllocError>
    ensures { OnOk result (out.new.items ≡ out.old.items ++ doing_name doing) }
{
    match doing {
        Doing::Unseen => out.extend_from_slice(b"none"),
        Doing::Ready => out.extend_from_slice(b"ready"),
        Doing::Runs(p) => push_numbered(out, b"runs on processor ", u64::from(p.0)),
        Doing::Section(p) => push_numbered(out, b"section on processor ", u64::from(p.0)),
        Doing::Stopped => out.extend_from_slice(b"stopped"),
        Doing::Blocked(io) => push_numbered(out, b"blocked: io ", u64::from(io.0)),
        Doing::Returned => out.extend_from_slice(b"returned, not yet ready"),
        Doing::Hand => out.extend_from_slice(b"in hand"),
        Doing::Away => out.extend_from_slice(b"waits or is done"),
    }
}

fn push_holder_name(out: &mut Vec<u8>, holder: Holder) -> Result<(), AllocError>
    ensures { OnOk result (out.new.items ≡ out.old.items ++ holder_name holder) }
{
    match holder {
        Holder::Nobody => out.extend_from_slice(b"none"),
        Holder::Handler(p) => push_numbered(out, b"held: processor ", u64::from(p.0)),
        Holder::Thread(p, t) => push_twice_numbered(
            out,
            b"held: processor ",
            u64::from(p.0),
            b", thread ",
            u64::from(t.0),
        ),
    }
}

/// Appends the name of a slice of a track that shows the state.
pub(crate) fn push_state_name(
    out: &mut Vec<u8>,
    track: Track,
    state: &State,
) -> Result<(), AllocError>
    ensures { OnOk result (out.new.items ≡ out.old.items ++ state_name track state.now) }
{
    match *state {
        State::Context(context) => push_context_name(out, track.level(), context),
        State::Doing(doing) => push_doing_name(out, doing),
        State::Holder(holder) => push_holder_name(out, holder),
        State::Tally(tally) => push_numbered(out, b"", tally.n),
    }
}

/// What kind of slices a track has.
pub(crate) fn category(track: Track) -> &'static [u8]
    ensures { result.now ≡ category track }
{
    match track {
        Track::Processor(_, Level::Owner) => b"owner",
        Track::Processor(_, Level::Activation) => b"activation",
        Track::Processor(_, Level::Work) => b"work",
        Track::Thread(_, _) => b"thread",
        Track::Lock(_, _) => b"lock",
        Track::Count(_, _) => b"count",
    }
}

/// Appends the name of a track.
pub(crate) fn push_track_name(out: &mut Vec<u8>, track: Track) -> Result<(), AllocError>
    ensures { OnOk result (out.new.items ≡ out.old.items ++ track_name track) }
{
    match track {
        Track::Processor(p, _) => push_numbered(out, b"processor ", u64::from(p.0)),
        Track::Thread(_, t) => push_numbered(out, b"thread ", u64::from(t.0)),
        Track::Lock(_, l) => push_numbered(out, b"lock of list ", u64::from(l.0)),
        Track::Count(_, count) => out.extend_from_slice(count.word()),
    }
}
