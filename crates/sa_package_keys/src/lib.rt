//! The bytes that say a value of FastThreads and of thread priorities, and of a context what matters of it; and the codes of numbers and
//! lists that these are made of, each of which can be read back from the left.
#![tactic(auto)]

mod blocks;
mod contexts;
mod fast;
mod kept;
mod lists;
mod prio;
mod put;
mod ranks;
mod shared;
mod sync;
mod works;

pub use fast::{put_fast_context, put_fast_value};
pub use kept::{kept_flags, kept_threads};
pub use prio::{put_prio_context, put_prio_value};
pub use put::{
    put_flag, put_flags, put_number, put_numbers, put_optional_number, put_space, put_thread,
    put_threads, put_words,
};
