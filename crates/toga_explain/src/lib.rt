//! A table of what words mean: of sources, instructions, records, rules, causes of refusals, ends and exit statuses.
#![tactic(auto)]

mod cause;
mod end;
mod explaining;
mod instruction;
pub mod laws;
mod looking;
mod record;
mod rule;
mod source;
mod status;
mod topic;

pub use cause::cause_text;
pub use explaining::explain;
pub use rule::rule_text;
