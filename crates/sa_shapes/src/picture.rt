// The whole picture.
ghost use Rattle.std.specs.Prelude.{◌≡◌, ◌++◌, IfOk, OnOk};
ghost use Rattle.sa_shapes.specs.Picture.{rows_to, depth_with, depth_of, spaces_shapes, lanes_shapes, IsPictureOf};

use crate::extent::measure;
use crate::marks::push_marks;
use crate::shape::{Shape, TOP_ROW, Track};
use crate::stretches::push_stretches;
use crate::window::Window;
use sa_base::{Item, ProcNo, SpaceNo};
use std::alloc::{AllocError, Global};

/// A picture of a trace.
#[derive(Drop)]
pub struct Picture {
    pub window: Window,
    /// How many lanes there are, one for each processor from 0 on, and how many spaces; at most `MAX_LANES`.
    pub lanes: u16,
    pub spaces: u16,
    /// How many rows of marks are above a lane.
    pub depth: u16,
    pub shapes: Vec<Shape>,
}

/// The picture of these items in this window: `None` where there is more to draw than a picture may have.
/// Its only error is want of memory.
pub fn draw(alloc: Global, window: Window, items: &[Item]) -> Result<Option<Picture>, AllocError>
    ensures { IfOk result (λ p. IsPictureOf window items.now p) }
{
    let extent = measure(window, items);
    if !extent.can_be_drawn() {
        return Ok(None);
    }
    let lanes = extent.lanes as u16;
    let spaces = extent.spaces as u16;
    let mut shapes = Vec::new(alloc);
    push_spaces(&mut shapes, window, spaces, items)?;
    push_lanes(&mut shapes, window, lanes, items)?;
    let depth = depth_of(&shapes);
    Ok(Some(Picture {
        window,
        lanes,
        spaces,
        depth,
        shapes,
    }))
}

// Appends the shapes of the spaces from 0 on.
fn push_spaces(
    out: &mut Vec<Shape>,
    window: Window,
    spaces: u16,
    items: &[Item],
) -> Result<(), AllocError>
    ensures { OnOk result (out.new.items ≡ out.old.items ++ spaces_shapes window items.now spaces) }
{
    for s in 0..spaces {
        push_stretches(out, window, Track::Aimed(SpaceNo(s)), items)?;
        push_stretches(out, window, Track::Demand(SpaceNo(s)), items)?;
    }
    Ok(())
}

// Appends the shapes of the lanes from 0 on.
fn push_lanes(
    out: &mut Vec<Shape>,
    window: Window,
    lanes: u16,
    items: &[Item],
) -> Result<(), AllocError>
    ensures { OnOk result (out.new.items ≡ out.old.items ++ lanes_shapes window items.now lanes) }
{
    for p in 0..lanes {
        push_stretches(out, window, Track::Lane(ProcNo(p)), items)?;
        push_marks(out, window, ProcNo(p), items)?;
    }
    Ok(())
}

// How many rows of marks there are.
fn depth_of(shapes: &[Shape]) -> u16
    ensures { result ≡ depth_of shapes.now }
{
    let mut depth = 0;
    for shape in shapes {
        depth = depth_with(depth, shape);
    }
    depth
}

// The same with one shape more.
fn depth_with(depth: u16, shape: &Shape) -> u16
    ensures { result ≡ depth_with depth shape.now }
{
    match shape {
        Shape::Stretch(_) => depth,
        Shape::Mark(mark) => depth.max(rows_to(mark.row)),
    }
}

// How many rows there are up to this one.
fn rows_to(row: u16) -> u16
    ensures { result ≡ rows_to row }
{
    if row < TOP_ROW { row + 1 } else { TOP_ROW + 1 }
}
