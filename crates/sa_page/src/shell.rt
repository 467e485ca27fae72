// What every page has: its head with the style, the tags between the parts of its data, and the script.
ghost use Rattle.std.specs.Prelude.{◌≡◌, ◌++◌, OnOk};
ghost use Rattle.sa_page.specs.Shell.{front, script_begin, script_rest, back};

mod data;
mod drawing;
mod head;
mod lanes;
mod moves;
mod panels;
mod start;
mod style;

use data::DATA;
use drawing::DRAWING;
use head::{BODY, HEAD};
use lanes::LANES;
use moves::MOVES;
use panels::PANELS;
use start::START;
use std::alloc::AllocError;
use style::STYLE;

// Before what is said of the whole trace.
pub(crate) const SAID: &[u8] = b"<script type=\"text/plain\" id=\"said-lines\">\n";

// Between that and the workload.
pub(crate) const WORKLOAD: &[u8] = b"</script>\n<script type=\"text/plain\" id=\"workload\">\n";

// Between the workload and the trace: the part for names, in which nothing is.
pub(crate) const TRACE: &[u8] =
    b"</script>\n<script type=\"text/plain\" id=\"names\">\n</script>\n<script type=\"text/plain\" id=\"trace\">\n";

// Between the trace and the cells.
pub(crate) const CELLS: &[u8] = b"</script>\n<script type=\"text/plain\" id=\"cells\">\n";

// Between the cells and the script.
pub(crate) const SCRIPT: &[u8] = b"</script>\n<script>\n";

// After the script.
pub(crate) const CLOSE: &[u8] = b"</script>\n";

/// Appends what comes before the data of a page.
#[tactic(auto, unfolding(crate::specs::Shell::front))]
pub(crate) fn push_front(out: &mut Vec<u8>) -> Result<(), AllocError>
    ensures { OnOk result (out.new.items ≡ out.old.items ++ front) }
{
    out.extend_from_slice(HEAD)?;
    out.extend_from_slice(STYLE)?;
    out.extend_from_slice(BODY)
}

/// Appends what comes after it: the script.
#[tactic(auto, unfolding(crate::specs::Shell::back))]
pub(crate) fn push_back(out: &mut Vec<u8>) -> Result<(), AllocError>
    ensures { OnOk result (out.new.items ≡ out.old.items ++ back) }
{
    push_script_begin(out)?;
    push_script_rest(out)?;
    out.extend_from_slice(CLOSE)
}

// What reads the data, and makes the lanes.
#[tactic(auto, unfolding(crate::specs::Shell::script_begin))]
fn push_script_begin(out: &mut Vec<u8>) -> Result<(), AllocError>
    ensures { OnOk result (out.new.items ≡ out.old.items ++ script_begin) }
{
    out.extend_from_slice(SCRIPT)?;
    out.extend_from_slice(DATA)?;
    out.extend_from_slice(LANES)
}

// What draws, fills the panels, goes to events, and starts.
#[tactic(auto, unfolding(crate::specs::Shell::script_rest))]
fn push_script_rest(out: &mut Vec<u8>) -> Result<(), AllocError>
    ensures { OnOk result (out.new.items ≡ out.old.items ++ script_rest) }
{
    out.extend_from_slice(DRAWING)?;
    out.extend_from_slice(PANELS)?;
    out.extend_from_slice(MOVES)?;
    out.extend_from_slice(START)
}
