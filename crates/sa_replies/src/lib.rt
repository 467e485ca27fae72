//! What is said in a session: the replies, which are read; the questions, which are printed; and what is told of each record.
#![tactic(auto)]

mod fields;
mod reading;
mod telling;
mod texts;
mod word;

pub use fields::Names;
pub use reading::read_reply;
pub use telling::Teller;
pub use texts::append_question;
