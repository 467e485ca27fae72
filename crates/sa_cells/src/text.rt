// What a cell holds.
ghost use Rattle.std.specs.Prelude.{◌≡◌, ◌++◌, OnOk};
ghost use Rattle.sa_check_moment.specs.Seen.{seen};
ghost use Rattle.sa_cells.specs.Text.{text_of};

use crate::cell::Cell;
use crate::life::{push_hand_of, push_locks_of, push_place_of};
use crate::pieces::{push_act_if, push_space_if};
use crate::processor::{push_line, push_runs};
use crate::space::{push_holder, push_list, push_untold};
use crate::sync::{push_mutex_of, push_semaphore_of, push_shared_of};
use crate::thread::push_thread;
use crate::view::View;
use sa_base::ActNo;
use sa_text::print_number;
use std::alloc::{AllocError, Global};

/// Appends what the cell holds, if these were all ups so far.
pub(crate) fn push_text(
    out: &mut Vec<u8>,
    alloc: Global,
    ups: &[ActNo],
    view: &View,
    cell: Cell,
) -> Result<(), AllocError>
    ensures { OnOk result (out.new.items ≡ out.old.items ++ text_of ups.now (seen view.now.moment) cell) }
{
    let moment = &view.moment;
    match cell {
        Cell::Owner(p) => push_space_if(out, moment.owner(p)),
        Cell::Aim(p) => push_space_if(out, moment.aim(p)),
        Cell::Line(p) => push_line(out, moment.line(p)),
        Cell::Activation(p) => push_act_if(out, moment.running(p)),
        Cell::Runs(p) => push_runs(out, moment, p),
        Cell::Demand(s) => print_number(u64::from(moment.demand(s)), out),
        Cell::Untold(s) => push_untold(out, moment.untold(s)),
        Cell::Holder(s, l) => push_holder(out, alloc, moment, ups, s, l),
        Cell::Listed(s, l) => push_list(out, l, moment.listed(s)),
        Cell::Thread(s, t) => push_thread(out, view, s, t),
        Cell::Mutex(s, m) => push_mutex_of(out, alloc, &view.replay, s, m),
        Cell::Semaphore(s, k) => push_semaphore_of(out, alloc, &view.replay, s, k),
        Cell::Shared(s, c) => push_shared_of(out, &view.replay, s, c),
        Cell::Where(a) => push_place_of(out, moment, a),
        Cell::Locks(a) => push_locks_of(out, moment, a),
        Cell::Hand(a) => push_hand_of(out, moment, a),
    }
}
