//! What `togaslate` says of a run and of a search through every order of turns, with the names and the lines of the source.
#![tactic(auto)]

mod circles;
mod given;
mod lines;
mod names;
mod notes;
mod push;
mod run;
mod scene;
mod search;
mod table;
mod thread;
mod threads;
mod values;

pub use given::given_source;
pub use run::summary;
pub use scene::Scene;
pub use search::search_text;
