//! What is drawn of a trace text: a picture of a part of it, as SVG, or its trace events. Lines of losses may follow the trace.
#![tactic(auto)]

mod losses;
mod text;

pub use losses::trace_part;
pub use text::{Drawing, NoDrawing, Part, drawn};
