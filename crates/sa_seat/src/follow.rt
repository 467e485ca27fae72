// The line words follow the core's lines.
ghost use Rattle.std.specs.Prelude.{◌≡◌, ◌<◌, ◌≤◌, length, IfSome};
ghost use Rattle.sa_base.specs.declared.limits.TheConstants.{MAX_EVENTS};
ghost use Rattle.sa_core.specs.View.{machine};
ghost use Rattle.sa_seat.specs.Follow.{IsStored, MayFollow, HasFollowed};

use sa_abstract::UserLevel;
use sa_base::{MAX_PROCESSORS, ProcNo};
use sa_core::Core;
use sa_lines::{Keeper, LineWords};

pub(crate) const PLACES: usize = MAX_PROCESSORS as usize;

/// Of each processor, the line as it was stored last.
pub(crate) type Lines = [Option<u64>; PLACES];

// Stores how the line of a processor is, unless that was stored last.
fn store(keeper: &mut Keeper, words: &LineWords, p: ProcNo, last: Option<u64>, line: Option<u64>)
    requires own { keeper.old.table ≡ words.now }
    requires processor { p.0 < length keeper.old.lanes }
    requires event { IfSome line (λ e. e ≤ MAX_EVENTS) }
    ensures { IsStored p.0 last line keeper.old keeper.new }
{
    if line == last {
        return;
    }
    match line {
        None => keeper.lower(words, p),
        Some(event) => keeper.raise(words, p, event),
    }
}

/// Stores each line that is not as it was stored last.
pub(crate) fn follow<U: UserLevel>(
    keeper: &mut Keeper,
    words: &LineWords,
    core: &Core<U>,
    lines: &mut Lines,
)
    requires own { keeper.old.table ≡ words.now }
    requires follow { MayFollow (machine core.now) lines.old keeper.old }
    ensures { HasFollowed (machine core.now).kernel (machine core.now).workload.processors keeper.old keeper.new lines.new }
{
    for p in 0..core.workload().processors() {
        let line = core.line(ProcNo(p));
        store(keeper, words, ProcNo(p), lines[p as usize], line);
        lines[p as usize] = line;
    }
}
