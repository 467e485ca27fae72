// The stretches of a track.
ghost use Rattle.std.specs.Prelude.{◌≡◌, ◌++◌, OnOk};
ghost use Rattle.sa_shapes.specs.Stretches.{since, closed, stretches};

use crate::shape::{Shape, Shown, Stretch, Track};
use crate::window::Window;
use sa_base::{Item, Record};
use std::alloc::AllocError;

/// A stretch that goes on.
#[derive(Clone, Copy)]
pub(crate) struct Going {
    // The place at which it begins, what it shows, and the index of the item that made it show that.
    pub(crate) from: u16,
    pub(crate) shown: Shown,
    pub(crate) first: usize,
}

/// Appends the stretches of the track.
pub(crate) fn push_stretches(
    out: &mut Vec<Shape>,
    window: Window,
    track: Track,
    items: &[Item],
) -> Result<(), AllocError>
    ensures { OnOk result (out.new.items ≡ out.old.items ++ stretches window items.now track) }
{
    let mut going = Going {
        from: 0,
        shown: track.start(),
        first: 0,
    };
    for (k, item) in items.iter().enumerate() {
        if let Some(shown) = track.change(going.shown, item) {
            let at = going.from.max(window.place(since(item)));
            push_closed(out, track, going, at, k)?;
            going = Going {
                from: at,
                shown,
                first: k,
            };
        }
    }
    push_closed(out, track, going, window.count, items.len())
}

// The event from which on a processor does what the item makes it do: a block is over only after its event.
fn since(item: &Item) -> u64
    ensures { result ≡ since item.now }
{
    match item.what {
        Record::Block(..) => item.event.saturating_add(1),
        _ => item.event,
    }
}

// Appends the stretch, which ends before this place and index, unless it has no event that is drawn.
fn push_closed(
    out: &mut Vec<Shape>,
    track: Track,
    going: Going,
    to: u16,
    last: usize,
) -> Result<(), AllocError>
    ensures { OnOk result (out.new.items ≡ out.old.items ++ closed track going to last) }
{
    if going.from < to {
        out.push(Shape::Stretch(Stretch {
            track,
            from: going.from,
            to,
            shown: going.shown,
            first: going.first,
            last,
        }))?;
    }
    Ok(())
}
