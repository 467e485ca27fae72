//! The trace text, both ways: what the program writes of a run, and that text read as items again. Between them is a
//! record as its kind and its fields, each a number or absent.
#![tactic(auto)]

mod appending;
mod counts;
mod field;
mod fields;
mod from_parts;
mod kind;
pub mod laws;
mod line;
mod losses;
mod parts;
mod pieces;
mod printing;
mod quick;
mod reader;
mod reading;
mod so_far;
pub mod words;

pub use appending::{append_item, append_line, append_record};
pub use counts::kind_counts;
pub use field::{Field, FieldRange};
pub use fields::{LINES, LineBuffer};
pub use from_parts::record_with;
pub use kind::{Form, KINDS, Kind, MAX_FIELDS, MAX_WORD, RECORD_KINDS};
pub use line::Said;
pub use losses::print_losses;
pub use parts::Parts;
pub use printing::{end_word, print_last_line, print_lines};
pub use reader::Reader;
pub use reading::{TraceText, read};
