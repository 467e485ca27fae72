// What every picture has: its size, colours, legend, axis and names.
ghost use Rattle.std.specs.Prelude.{◌≡◌, ◌≤◌, ◌++◌, OnOk};
ghost use Rattle.std.specs.List.{flat_map};
ghost use Rattle.sa_svg.specs.Head.{opened, open_text, size_attrs, sheet, outlines, style_text, ground_text, sample_box, sample_text, legend_entry, space_entry, spaces_legend, tick, ticks, lane_name, lane_names, space_name, space_names, names, head_text};

use crate::layout::{Layout, UNIT_OF_STROKES, tick_step};
use crate::markup::{
    Rect, push_number, push_numbered, push_numbered_rect, push_numbered_words, push_rect,
    push_words,
};
use sa_shapes::Window;
use std::alloc::AllocError;

/// A sample of the legend.
#[derive(Clone, Copy)]
pub enum Sample {
    /// A thread that runs.
    Thread,
    /// The package at work.
    Package,
    /// A look in vain.
    Idle,
    /// A section in its copy.
    Section,
    /// A processor that no space owns.
    Unowned,
    /// A line that is raised, and a stop.
    Interrupt,
    /// A block, and a return.
    Block,
    /// An announcement of demand.
    Want,
    /// An upcall, and what it tells.
    Upcall,
    /// The lock of a list.
    Lock,
    /// A fetch.
    Fetch,
    /// The demand of a space.
    Demand,
    /// The processors aimed at a space.
    Aimed,
    /// A virtual processor that is placed, or goes on.
    Virtual,
}

// The samples in order.
pub(crate) const LEGEND: [Sample; 14] = [
    Sample::Thread,
    Sample::Package,
    Sample::Idle,
    Sample::Section,
    Sample::Unowned,
    Sample::Interrupt,
    Sample::Block,
    Sample::Want,
    Sample::Upcall,
    Sample::Lock,
    Sample::Fetch,
    Sample::Demand,
    Sample::Aimed,
    Sample::Virtual,
];

// The style sheets: eight colours that are told apart by those who see few, twice; what a processor does by how full the colour is.
pub(crate) const SHAPES_STYLE: &[u8] =
    b"text{fill:#000;font:11px Arial,Helvetica,sans-serif}rect{shape-rendering:crispEdges}\
    .w{font-size:11px;paint-order:stroke;stroke:#fff;stroke-width:2px}.m{font-size:9px}.b{fill:#fff}.g{fill:#d8d8d8}\
    .u{fill:#fff}.p{fill-opacity:.5}.i{fill-opacity:.2}.a{fill-opacity:.5}.d{fill:#000}";

pub(crate) const COLOURS_STYLE: &[u8] =
    b".s0,.s8{fill:#56b4e9}.s1,.s9{fill:#d55e00}.s2,.s10{fill:#009e73}.s3,.s11{fill:#f0e442}\
    .s4,.s12{fill:#cc79a7}.s5,.s13{fill:#e69f00}.s6,.s14{fill:#0072b2}.s7,.s15{fill:#333}";

pub(crate) const MARKS_STYLE: &[u8] =
    b".mi{fill:#f7c9a9}.mb{fill:#d8d8d8}.mu{fill:#d5e8d4}.mh{fill:#fbf3b0}.ml{fill:#eef4fb}.mf{fill:#e9d4e3}";

// What is outlined, and where there is no room for outlines what is black instead.
pub(crate) const STROKES_STYLE: &[u8] =
    b".t,.p{stroke:#fff;stroke-width:1px}.u{stroke:#999;stroke-width:1px;stroke-dasharray:1 3}.i{stroke:#888;stroke-width:.5px}.c{stroke:#000;stroke-width:2px}\
    .s8,.s9,.s10,.s11,.s12,.s13,.s14,.s15{stroke:#000;stroke-dasharray:2 2}\
    .mi,.mb,.mu,.mh,.ml,.mf{stroke:#999;stroke-width:.5px}";

pub(crate) const FLAT_STYLE: &[u8] = b".c{fill:#000}";

/// Appends all that comes before the shapes.
#[tactic(auto, unfolding(crate::specs::Head::head_text))]
pub(crate) fn push_head(out: &mut Vec<u8>, layout: Layout, window: Window) -> Result<(), AllocError>
    ensures { OnOk result (out.new.items ≡ out.old.items ++ head_text layout window) }
{
    push_opening(out, layout)?;
    push_style(out, layout)?;
    push_ground(out, layout)?;
    push_samples(out, &LEGEND)?;
    push_spaces_legend(out, layout.spaces)?;
    push_ticks(out, layout, window)?;
    push_names(out, layout)
}

// Appends the tag of the whole.
fn push_opening(out: &mut Vec<u8>, layout: Layout) -> Result<(), AllocError>
    ensures { OnOk result (out.new.items ≡ out.old.items ++ open_text layout) }
{
    let width = layout.width();
    let height = layout.height();
    push_tag(
        out,
        b"<svg xmlns=\"http://www.w3.org/2000/svg\"",
        width,
        height,
    )
}

#[tactic(auto, unfolding(crate::specs::Head::opened))]
fn push_tag(out: &mut Vec<u8>, tag: &[u8], width: u64, height: u64) -> Result<(), AllocError>
    ensures { OnOk result (out.new.items ≡ out.old.items ++ opened tag.now width height) }
{
    out.extend_from_slice(tag)?;
    push_size(out, width, height)?;
    out.extend_from_slice(b"\">\n")
}

// Appends the attributes that say how large the picture is.
#[tactic(auto, unfolding(crate::specs::Head::size_attrs))]
fn push_size(out: &mut Vec<u8>, width: u64, height: u64) -> Result<(), AllocError>
    ensures { OnOk result (out.new.items ≡ out.old.items ++ size_attrs width height) }
{
    push_number(out, b"width", width)?;
    push_number(out, b"height", height)?;
    push_numbered(out, b" viewBox=\"0 0 ", width)?;
    push_numbered(out, b" ", height)
}

// Appends the style sheets.
#[tactic(auto, unfolding(crate::specs::Head::style_text))]
fn push_style(out: &mut Vec<u8>, layout: Layout) -> Result<(), AllocError>
    ensures { OnOk result (out.new.items ≡ out.old.items ++ style_text layout) }
{
    push_sheet(out, SHAPES_STYLE)?;
    push_sheet(out, COLOURS_STYLE)?;
    push_sheet(out, MARKS_STYLE)?;
    push_sheet(out, outlines(layout))
}

// What is outlined: more where the events are wide enough for strokes.
fn outlines(layout: Layout) -> &'static [u8]
    ensures { result.now ≡ outlines layout }
{
    if layout.unit >= UNIT_OF_STROKES {
        STROKES_STYLE
    } else {
        FLAT_STYLE
    }
}

#[tactic(auto, unfolding(crate::specs::Head::sheet))]
fn push_sheet(out: &mut Vec<u8>, rules: &[u8]) -> Result<(), AllocError>
    ensures { OnOk result (out.new.items ≡ out.old.items ++ sheet rules.now) }
{
    out.extend_from_slice(b"<style>")?;
    out.extend_from_slice(rules)?;
    out.extend_from_slice(b"</style>\n")
}

// Appends the white ground.
#[tactic(auto, unfolding(crate::specs::Head::ground_text))]
fn push_ground(out: &mut Vec<u8>, layout: Layout) -> Result<(), AllocError>
    ensures { OnOk result (out.new.items ≡ out.old.items ++ ground_text layout) }
{
    let place = Rect {
        x: 0,
        y: 0,
        width: layout.width(),
        height: layout.height(),
    };
    push_rect(out, b"b", place)?;
    out.extend_from_slice(b"\n")
}

// Appends the samples of the legend.
fn push_samples(out: &mut Vec<u8>, samples: &[Sample]) -> Result<(), AllocError>
    ensures { OnOk result (out.new.items ≡ out.old.items ++ flat_map sample_text samples.now) }
{
    for entry in samples {
        push_sample(out, *entry)?;
    }
    Ok(())
}

// Appends a sample of the legend and what it means.
fn push_sample(out: &mut Vec<u8>, entry: Sample) -> Result<(), AllocError>
    ensures { OnOk result (out.new.items ≡ out.old.items ++ sample_text entry) }
{
    match entry {
        Sample::Thread => push_entry(out, b"t s0", 6, 38, b"tN: thread N runs"),
        Sample::Package => push_entry(out, b"p s0", 136, 38, b"p: the package, LN: at list N"),
        Sample::Idle => push_entry(out, b"i s0", 326, 38, b"i: a look in vain"),
        Sample::Section => push_entry(out, b"c s0", 446, 38, b"c: a section in its copy"),
        Sample::Unowned => push_entry(out, b"u", 606, 38, b"-: owned by none"),
        Sample::Interrupt => push_entry(
            out,
            b"mi",
            6,
            56,
            b"line, stop: an interrupt is asked for, is there",
        ),
        Sample::Block => push_entry(out, b"mb", 296, 56, b"block, ret: an I/O begins, is over"),
        Sample::Want => push_entry(out, b"mh", 516, 56, b"want N: a demand of N processors"),
        Sample::Upcall => push_entry(
            out,
            b"mu",
            6,
            74,
            b"up N: an upcall in activation N; +P, preN, blkN, retN: it tells so",
        ),
        Sample::Lock => push_entry(out, b"ml", 406, 74, b"take, free, spin: at a list's lock"),
        Sample::Fetch => push_entry(out, b"mf", 616, 74, b"ftch, page: of the upcall page"),
        Sample::Demand => push_entry(out, b"d", 6, 92, b"the demand of a space"),
        Sample::Aimed => push_entry(out, b"a s0", 156, 92, b"the processors aimed at it"),
        Sample::Virtual => push_entry(
            out,
            b"p s0",
            336,
            92,
            b"v, g: a virtual processor is placed, goes on",
        ),
    }
}

#[tactic(auto, unfolding(crate::specs::Head::legend_entry))]
fn push_entry(
    out: &mut Vec<u8>,
    class: &[u8],
    x: u64,
    y: u64,
    words: &[u8],
) -> Result<(), AllocError>
    requires x_fits { x ≤ 1_000 }
    requires y_fits { y ≤ 1_000 }
    ensures { OnOk result (out.new.items ≡ out.old.items ++ legend_entry class.now x y words.now) }
{
    push_rect(out, class, sample_box(x, y))?;
    push_words(out, b"n", x + 14, y + 8, words)?;
    out.extend_from_slice(b"\n")
}

// Where a sample of the legend is.
fn sample_box(x: u64, y: u64) -> Rect
    ensures { result ≡ sample_box x y }
{
    Rect {
        x,
        y,
        width: 10,
        height: 10,
    }
}

// Appends the legend's entries of the spaces from 0 on.
fn push_spaces_legend(out: &mut Vec<u8>, spaces: u16) -> Result<(), AllocError>
    ensures { OnOk result (out.new.items ≡ out.old.items ++ spaces_legend spaces) }
{
    for s in 0..spaces {
        push_space_entry(out, s)?;
    }
    Ok(())
}

#[tactic(auto, unfolding(crate::specs::Head::legend_entry))]
fn push_space_entry(out: &mut Vec<u8>, s: u16) -> Result<(), AllocError>
    ensures { OnOk result (out.new.items ≡ out.old.items ++ space_entry s) }
{
    let x = u64::from(s % 8) * 84 + 6;
    let y = u64::from(s / 8) * 14 + 6;
    push_numbered_rect(out, b"t s", u64::from(s), sample_box(x, y))?;
    push_numbered_words(out, b"n", x + 14, y + 8, b"space ", u64::from(s))?;
    out.extend_from_slice(b"\n")
}

// Appends the numbers of events, each with a line down the picture.
fn push_ticks(out: &mut Vec<u8>, layout: Layout, window: Window) -> Result<(), AllocError>
    ensures { OnOk result (out.new.items ≡ out.old.items ++ ticks layout window) }
{
    for at in 0..layout.count {
        push_tick(out, layout, window, at)?;
    }
    Ok(())
}

fn push_tick(out: &mut Vec<u8>, layout: Layout, window: Window, at: u16) -> Result<(), AllocError>
    ensures { OnOk result (out.new.items ≡ out.old.items ++ tick layout window at) }
{
    let event = window.from.saturating_add(u64::from(at));
    if event % u64::from(tick_step(layout.unit)) != 0 {
        return Ok(());
    }
    let x = layout.x(at);
    let y = layout.tracks_top(layout.band(at));
    let place = Rect {
        x,
        y,
        width: 1,
        height: layout.tracks_height(),
    };
    push_rect(out, b"g", place)?;
    push_numbered_words(out, b"n", x, y.saturating_sub(4), b"", event)?;
    out.extend_from_slice(b"\n")
}

// Appends the names of each band's spaces and lanes.
fn push_names(out: &mut Vec<u8>, layout: Layout) -> Result<(), AllocError>
    ensures { OnOk result (out.new.items ≡ out.old.items ++ names layout) }
{
    for band in 0..layout.bands() {
        push_space_names(out, layout, band)?;
        push_lane_names(out, layout, band)?;
    }
    Ok(())
}

// Appends the names of the spaces from 0 on.
fn push_space_names(out: &mut Vec<u8>, layout: Layout, band: u16) -> Result<(), AllocError>
    ensures { OnOk result (out.new.items ≡ out.old.items ++ space_names layout band) }
{
    for s in 0..layout.spaces {
        push_space_name(out, layout, band, s)?;
    }
    Ok(())
}

fn push_space_name(out: &mut Vec<u8>, layout: Layout, band: u16, s: u16) -> Result<(), AllocError>
    ensures { OnOk result (out.new.items ≡ out.old.items ++ space_name layout band s) }
{
    let y = layout.space_base(band, s).saturating_sub(2);
    push_numbered_words(out, b"n", 6, y, b"space ", u64::from(s))?;
    out.extend_from_slice(b"\n")
}

// Appends the names of the lanes from 0 on.
fn push_lane_names(out: &mut Vec<u8>, layout: Layout, band: u16) -> Result<(), AllocError>
    ensures { OnOk result (out.new.items ≡ out.old.items ++ lane_names layout band) }
{
    for p in 0..layout.lanes {
        push_lane_name(out, layout, band, p)?;
    }
    Ok(())
}

fn push_lane_name(out: &mut Vec<u8>, layout: Layout, band: u16, p: u16) -> Result<(), AllocError>
    ensures { OnOk result (out.new.items ≡ out.old.items ++ lane_name layout band p) }
{
    let y = layout.bar_y(band, p) + 14;
    push_numbered_words(out, b"n", 6, y, b"processor ", u64::from(p))?;
    out.extend_from_slice(b"\n")
}
