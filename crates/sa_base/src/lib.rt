//! The words that every part of the program shares: numbers, notices, records and the trace.
#![tactic(auto)]

mod bits;
mod context;
mod limits;
mod number;
mod package;
mod record;
mod refusal;
mod trace;

pub use bits::{has_bit, has_page};
pub use context::{Seen, Stopped};
pub use limits::{
    BULK_RETURN, DEFAULT_BUDGET, DEFAULT_BURST, FIRST_THREAD_PAGE, MAX_BURST, MAX_EVENTS,
    MAX_PROCESSORS, MAX_SPACES, MAX_THREADS, PACKAGE_PAGE, PAGES, UPCALL_PAGE,
    run_limits_are_these,
};
pub use number::{ActNo, IoNo, ProcNo, SpaceNo, ThreadNo};
pub use package::{PackageName, RulesName, read_package, read_rules};
pub use record::{End, Item, Note, Record};
pub use refusal::{Bad, Cause, Unread};
pub use trace::Trace;
