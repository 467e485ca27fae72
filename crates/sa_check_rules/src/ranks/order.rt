// List order by ranks: the law of an event's first record, on the moment before it.
ghost use Rattle.std.specs.Prelude.{◌≡◌, ◌↔◌, IsTrue};
ghost use Rattle.sa_ranks.specs.Locks.{RunsGreatest};
ghost use Rattle.sa_base.specs.declared.package.RulesName.TheVariants.{Priorities};
ghost use Rattle.sa_check_moment.specs.Seen.{seen};

use sa_base::Record;
use sa_check_moment::Moment;
use sa_check_shapes::parted;

/// A run takes the ready thread of the greatest rank, and of these the newest.
pub(crate) fn rank_is_kept(moment: &Moment, records: &[Record]) -> bool
    requires { (seen moment.now).rules ≡ Priorities }
    ensures { IsTrue result ↔ RunsGreatest (seen moment.now).readings records.now }
{
    match parted(records) {
        Some((Record::Run(s, t), _)) => moment.next_by_rank(s) == Some(t),
        _ => true,
    }
}
