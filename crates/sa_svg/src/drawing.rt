// The shapes, and the whole file.
ghost use Rattle.std.specs.Prelude.{◌≡◌, ◌≤◌, ◌++◌, IfOk, OnOk};
ghost use Rattle.std.specs.List.{flat_map};
ghost use Rattle.sa_svg.specs.Drawing.{words_at, bar_text, demand_text, aimed_text, piece_in, piece_text, stretch_text, mark_at_text, mark_text, shape_text, svg_text};

use crate::head::push_head;
use crate::layout::{BAR_HEIGHT, Layout, has_room};
use crate::markup::{Rect, push_numbered, push_numbered_rect, push_rect, push_words};
use crate::titles::push_stretch_title;
use crate::words::{aimed_count, mark_class, push_look_rect, push_look_word, push_mark_word};
use sa_base::{Item, Record};
use sa_shapes::{Look, Mark, Picture, Shape, Shown, Stretch, Track, Window};
use sa_trace::append_line;
use std::alloc::{AllocError, Global};

/// The text of the picture of these items, as wide as is asked if it can be. Its only error is want of memory.
#[tactic(auto, unfolding(crate::specs::Drawing::svg_text))]
pub fn print(
    alloc: Global,
    picture: &Picture,
    items: &[Item],
    width: u64,
) -> Result<Vec<u8>, AllocError>
    ensures { IfOk result (λ text. text.items ≡ svg_text picture.now items.now width) }
{
    let layout = Layout::of(picture, width);
    let mut out = Vec::new(alloc);
    push_head(&mut out, layout, picture.window)?;
    push_shapes(
        &mut out,
        alloc,
        layout,
        picture.window,
        items,
        &picture.shapes,
    )?;
    out.extend_from_slice(b"</svg>\n")?;
    Ok(out)
}

fn push_shapes(
    out: &mut Vec<u8>,
    alloc: Global,
    layout: Layout,
    window: Window,
    items: &[Item],
    shapes: &[Shape],
) -> Result<(), AllocError>
    ensures { OnOk result (out.new.items ≡ out.old.items ++ flat_map (shape_text layout window items.now) shapes.now) }
{
    for shape in shapes {
        push_shape(out, alloc, layout, window, items, shape)?;
    }
    Ok(())
}

fn push_shape(
    out: &mut Vec<u8>,
    alloc: Global,
    layout: Layout,
    window: Window,
    items: &[Item],
    shape: &Shape,
) -> Result<(), AllocError>
    ensures { OnOk result (out.new.items ≡ out.old.items ++ shape_text layout window items.now shape.now) }
{
    match shape {
        Shape::Stretch(stretch) => {
            out.extend_from_slice(b"<g><title>")?;
            push_stretch_title(out, window, items, stretch)?;
            out.extend_from_slice(b"</title>")?;
            push_stretch(out, alloc, layout, stretch)?;
            out.extend_from_slice(b"</g>\n")
        }
        Shape::Mark(mark) => {
            out.extend_from_slice(b"<g><title>")?;
            append_line(out, &mark.item)?;
            out.extend_from_slice(b"</title>")?;
            push_mark(out, alloc, layout, mark)?;
            out.extend_from_slice(b"</g>\n")
        }
    }
}

// Appends what is drawn of a stretch: its piece in one band after another.
fn push_stretch(
    out: &mut Vec<u8>,
    alloc: Global,
    layout: Layout,
    stretch: &Stretch,
) -> Result<(), AllocError>
    ensures { OnOk result (out.new.items ≡ out.old.items ++ stretch_text layout stretch.now) }
{
    for k in 0..layout.pieces(stretch) {
        push_nth_piece(out, alloc, layout, stretch, k)?;
    }
    Ok(())
}

// Appends the piece of this number of a stretch, from 0.
fn push_nth_piece(
    out: &mut Vec<u8>,
    alloc: Global,
    layout: Layout,
    stretch: &Stretch,
    k: u16,
) -> Result<(), AllocError>
    ensures { OnOk result (out.new.items ≡ out.old.items ++ piece_text layout stretch.now k) }
{
    let band = layout.band(stretch.from).saturating_add(k);
    push_piece(out, alloc, layout, stretch, band)
}

// Appends what is drawn of a stretch in a band.
fn push_piece(
    out: &mut Vec<u8>,
    alloc: Global,
    layout: Layout,
    stretch: &Stretch,
    band: u16,
) -> Result<(), AllocError>
    ensures { OnOk result (out.new.items ≡ out.old.items ++ piece_in layout stretch.now band) }
{
    let from = layout.piece_from(stretch, band);
    let x = layout.x(from);
    let width = layout.span(from, layout.piece_to(stretch.to, band));
    match (stretch.track, &stretch.shown) {
        (Track::Lane(p), Shown::Look(look)) => {
            let y = layout.bar_y(band, p.0);
            push_bar(out, alloc, layout.spaces > 1, x, y, width, *look)
        }
        (Track::Demand(s), Shown::Demand(n)) => {
            let y = layout
                .space_base(band, s.0)
                .saturating_sub(layout.steps(*n));
            push_demand(out, alloc, x, y, width, *n)
        }
        (Track::Aimed(s), Shown::Aimed(aims)) => {
            let base = layout.space_base(band, s.0);
            let high = layout.steps(aimed_count(aims));
            push_aimed(out, x, base, width, high, s.0)
        }
        _ => Ok(()),
    }
}

// Appends words of this class, where they have room.
fn push_fitting(
    out: &mut Vec<u8>,
    class: &[u8],
    x: u64,
    y: u64,
    width: u64,
    words: &[u8],
) -> Result<(), AllocError>
    ensures { OnOk result (out.new.items ≡ out.old.items ++ words_at class.now x y width words.now) }
{
    if has_room(width, words) {
        return push_words(out, class, x, y, words);
    }
    Ok(())
}

// Appends the bar of what a processor does.
#[tactic(auto, unfolding(crate::specs::Drawing::bar_text))]
fn push_bar(
    out: &mut Vec<u8>,
    alloc: Global,
    names: bool,
    x: u64,
    y: u64,
    width: u64,
    look: Look,
) -> Result<(), AllocError>
    requires x_fits { x ≤ 100_000_000_000 }
    requires y_fits { y ≤ 10_000_000_000_000_000 }
    ensures { OnOk result (out.new.items ≡ out.old.items ++ bar_text names x y width look) }
{
    let mut word = Vec::new(alloc);
    push_look_word(&mut word, names, look)?;
    let place = Rect {
        x,
        y,
        width,
        height: BAR_HEIGHT,
    };
    push_look_rect(out, look, place)?;
    push_fitting(out, b"w", x + 2, y + 14, width, &word)
}

// Appends the steps of a demand.
#[tactic(auto, unfolding(crate::specs::Drawing::demand_text))]
fn push_demand(
    out: &mut Vec<u8>,
    alloc: Global,
    x: u64,
    y: u64,
    width: u64,
    n: u16,
) -> Result<(), AllocError>
    requires { x ≤ 100_000_000_000 }
    ensures { OnOk result (out.new.items ≡ out.old.items ++ demand_text x y width n) }
{
    let mut word = Vec::new(alloc);
    push_numbered(&mut word, b"", u64::from(n))?;
    let place = Rect {
        x,
        y,
        width,
        height: 2,
    };
    push_rect(out, b"d", place)?;
    push_fitting(out, b"w", x + 2, y.saturating_sub(2), width, &word)
}

// Appends the block of the processors that are aimed at a space.
fn push_aimed(
    out: &mut Vec<u8>,
    x: u64,
    base: u64,
    width: u64,
    high: u64,
    s: u16,
) -> Result<(), AllocError>
    ensures { OnOk result (out.new.items ≡ out.old.items ++ aimed_text x base width high s) }
{
    let place = Rect {
        x,
        y: base.saturating_sub(high),
        width,
        height: high,
    };
    push_numbered_rect(out, b"a s", u64::from(s), place)
}

// Appends what is drawn of a mark.
fn push_mark(
    out: &mut Vec<u8>,
    alloc: Global,
    layout: Layout,
    mark: &Mark,
) -> Result<(), AllocError>
    ensures { OnOk result (out.new.items ≡ out.old.items ++ mark_text layout mark.now) }
{
    let x = layout.x(mark.at);
    let y = layout.mark_y(layout.band(mark.at), mark.lane.0, mark.row);
    push_mark_at(out, alloc, x, y, layout.unit, &mark.item.what)
}

fn push_mark_at(
    out: &mut Vec<u8>,
    alloc: Global,
    x: u64,
    y: u64,
    unit: u16,
    what: &Record,
) -> Result<(), AllocError>
    requires x_fits { x ≤ 100_000_000_000 }
    requires y_fits { y ≤ 10_000_000_000_000_000 }
    ensures { OnOk result (out.new.items ≡ out.old.items ++ mark_at_text x y unit what.now) }
{
    let mut word = Vec::new(alloc);
    push_mark_word(&mut word, what)?;
    let place = Rect {
        x,
        y,
        width: u64::from(unit),
        height: 12,
    };
    push_rect(out, mark_class(what), place)?;
    push_fitting(out, b"m", x + 1, y + 9, u64::from(unit) + 8, &word)
}
