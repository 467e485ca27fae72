//! The rules of legal runs, each decided on what is read of a history at a moment: a file for each rule, but for those of
//! time and shares. What a user level brings is decided in `user_level`, by FastThreads' parts (`table`, `demand`, `locks`,
//! `order`) by those of thread priorities (`ranks`), or by those of any user level (`any`). `life` and `page` have what several rules ask.
#![tactic(auto)]

mod any;
mod blocks;
mod demand;
mod ends;
mod interrupt;
mod life;
mod lines;
mod locks;
mod once;
mod order;
mod owned;
mod page;
mod ranks;
mod table;
mod turns;
mod upcalls;
mod user_level;

pub use blocks::gives_upcall;
pub use ends::{is_told_end, run_goes_on};
pub use interrupt::interrupt_is_next;
pub use lines::raises_line;
pub use once::tells_once;
pub use owned::{each_runs_for_its_owner, names_the_life};
pub use turns::turns_are_taken;
pub use upcalls::tells_all;
pub use user_level::{demand_is_announced, first_is_asked, locks_are_kept, order_is_kept};
