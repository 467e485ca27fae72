// What a line word holds, which no clause says: a poll is said to find some event at which the line was raised.
ghost use Rattle.std.specs.Prelude.{◌≡◌, length};

use sa_base::ProcNo;
use sa_lines::{Keeper, LineWords, Poller};
use std::test::Fail;

// What the poller of processor 1 reads: at first, then behind its line, behind the line of processor 0, behind another line of
// its own, and when that is low again.
fn polls(words: &LineWords, keeper: &mut Keeper, poller: &mut Poller) -> [Option<u64>; 5]
    requires keeper { keeper.old.table ≡ words.now }
    requires lanes { length keeper.old.lanes ≡ 2 }
    requires poller { poller.old.table ≡ words.now }
{
    let at_first = poller.poll(words);
    keeper.raise(words, ProcNo(1), 7);
    let raised = poller.poll(words);
    keeper.raise(words, ProcNo(0), 8);
    let beside = poller.poll(words);
    keeper.raise(words, ProcNo(1), 9);
    let raised_again = poller.poll(words);
    keeper.lower(words, ProcNo(1));
    [at_first, raised, beside, raised_again, poller.poll(words)]
}

#[test]
fn a_poll_finds_what_was_stored_last(rt: HostRuntime) -> Result<(), Fail> {
    let (words, mut keeper, mut pollers) = LineWords::new(rt.alloc(), 2)?;
    let poller = &mut pollers[1];
    let read = polls(&words, &mut keeper, poller);
    assert!(rt; poller.proc().0 == 1 && read == [None, Some(7), Some(7), Some(9), None]);
    Ok(())
}
