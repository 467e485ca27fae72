// The rules of thread priorities: what differs from FastThreads'.
mod lines;
mod locks;
mod order;
mod pairs;
mod table;

pub(crate) use lines::asks_for;
pub(crate) use locks::the_lock_is_kept;
pub(crate) use order::rank_is_kept;
pub(crate) use pairs::pairs_are_served;
use sa_base::ProcNo;
pub(crate) use table::is_ranked_step;

// All ready threads of a space are in this list.
const THE_LIST: ProcNo = ProcNo(0);
