// The titles of shapes: what a pointer on one shows.
ghost use Rattle.std.specs.Prelude.{◌≡◌, ◌++◌, OnOk};
ghost use Rattle.sa_svg.specs.Titles.{concerns, part, lines_of, line_if, track_title, shown_title, stretch_title};

use crate::markup::push_numbered;
use crate::words::{aimed_count, push_look_title};
use sa_base::{Item, Record};
use sa_shapes::{Shown, Stretch, Track, Window};
use sa_trace::append_line;
use std::alloc::AllocError;

/// Appends the title of a stretch: what it shows, and the lines of the trace that it stands for.
pub(crate) fn push_stretch_title(
    out: &mut Vec<u8>,
    window: Window,
    items: &[Item],
    stretch: &Stretch,
) -> Result<(), AllocError>
    ensures { OnOk result (out.new.items ≡ out.old.items ++ stretch_title window items.now stretch.now) }
{
    push_track_title(out, stretch.track)?;
    push_shown_title(out, &stretch.shown)?;
    out.extend_from_slice(b"\n")?;
    push_lines(
        out,
        window,
        stretch.track,
        part(items, stretch.first, stretch.last),
    )
}

fn push_track_title(out: &mut Vec<u8>, track: Track) -> Result<(), AllocError>
    ensures { OnOk result (out.new.items ≡ out.old.items ++ track_title track) }
{
    match track {
        Track::Lane(p) => push_numbered(out, b"processor ", u64::from(p.0)),
        Track::Demand(s) | Track::Aimed(s) => push_numbered(out, b"space ", u64::from(s.0)),
    }
}

fn push_shown_title(out: &mut Vec<u8>, shown: &Shown) -> Result<(), AllocError>
    ensures { OnOk result (out.new.items ≡ out.old.items ++ shown_title shown.now) }
{
    match shown {
        Shown::Look(look) => {
            out.extend_from_slice(b", ")?;
            push_look_title(out, *look)
        }
        Shown::Demand(n) => push_numbered(out, b": demand ", u64::from(*n)),
        Shown::Aimed(aims) => {
            push_numbered(
                out,
                b": processors aimed at it ",
                u64::from(aimed_count(aims)),
            )
        }
    }
}

// The items from one index to another.
fn part(items: &[Item], first: usize, last: usize) -> &[Item]
    ensures { result.now ≡ part items.now first last }
{
    let rest = &items[first.min(items.len())..];
    &rest[..last.saturating_sub(first).min(rest.len())]
}

fn push_lines(
    out: &mut Vec<u8>,
    window: Window,
    track: Track,
    items: &[Item],
) -> Result<(), AllocError>
    ensures { OnOk result (out.new.items ≡ out.old.items ++ lines_of window track items.now) }
{
    for item in items {
        push_line_if(out, window, track, item)?;
    }
    Ok(())
}

fn push_line_if(
    out: &mut Vec<u8>,
    window: Window,
    track: Track,
    item: &Item,
) -> Result<(), AllocError>
    ensures { OnOk result (out.new.items ≡ out.old.items ++ line_if window track item.now) }
{
    if window.is_inside(item.event) && concerns(track, item) {
        return append_line(out, item);
    }
    Ok(())
}

// The item is one of those that the track follows.
fn concerns(track: Track, item: &Item) -> bool
    ensures { result ≡ concerns track item.now }
{
    match (track, item.what) {
        (Track::Lane(p), _) => item.proc.0 == p.0,
        (Track::Demand(s), Record::Want(u, _)) => u.0 == s.0,
        (Track::Aimed(_), Record::Aim(..)) => true,
        _ => false,
    }
}
