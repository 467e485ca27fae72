// A poller's side of the words.
ghost use Rattle.std.specs.Prelude.{◌≡◌, ◌<◌, ◌≤◌, [], MatchBool};
ghost use Rattle.std.specs.Bool.{OnTrue};
ghost use Rattle.sa_base.specs.declared.limits.TheConstants.{MAX_EVENTS};
ghost use Rattle.sa_lines.specs.Credit.{applied, credit_of, number_of};
ghost use Rattle.sa_lines.specs.Words.{credit_word, fresh_polled};
ghost use Rattle.sa_lines.specs.Steps.{on_poller, taken, polled_of};
ghost use Rattle.sa_lines.specs.Seen.{IsPollerOf, fresh_poller, with_poll, with_credit};

use crate::credit::{Account, Credit};
use crate::view::{Poll, Take, View};
use crate::words::{LineWords, credit_word, line_word};
use atomic_table::Seat;
use sa_base::ProcNo;
use std::marker::Model;
use std::sync::Wait;

/// The one that reads the line of a processor, and takes what is credited to it. Contracts see the
/// words that it is of, its processor, the values that it read, in order, and its account. No call
/// can fail for want of memory.
#[derive(Drop)]
pub struct Poller {
    proc: ProcNo,
    account: Account,
    seat: Seat<u8, View>,
}

impl Model for Poller {
    ghost use Rattle.std.specs.Prelude.{◌≡◌, ◌<◌, []};
    ghost use Rattle.sa_lines.specs.Words.{credit_word};
    ghost use Rattle.sa_lines.specs.Steps.{polled_of};
    ghost use Rattle.sa_lines.specs.Seen.{PollerSeen, IsPollerOf};

    ghost Value = { PollerSeen };

    ghost view = { λ q. record {
      table = q.seat.table_id;
      proc = q.proc;
      read = (polled_of q.seat.me.0).read;
      account = q.account;
    } };

    ghost invariant = { λ q. IsPollerOf q.seat.me.0 q.proc.0
        × ((polled_of q.seat.me.0).account ≡ q.account)
        × (credit_word q.proc.0 < q.seat.table_id.words)
        × (q.seat.me.1 ≡ []) };
}

impl Poller {
    pub(crate) fn of(proc: ProcNo, seat: Seat<u8, View>) -> Poller
        requires poller { IsPollerOf seat.me.0 proc.0 }
        requires fresh { polled_of seat.me.0 ≡ fresh_polled }
        requires word { credit_word proc.0 < seat.table_id.words }
        requires no_slot { seat.me.1 ≡ [] }
        ensures { result ≡ fresh_poller seat.table_id proc.0 }
    {
        Poller {
            proc,
            account: Account::new(),
            seat,
        }
    }

    pub(crate) fn into_seat(self) -> Seat<u8, View>
        ensures table { result.table_id ≡ self.table }
        ensures poller { IsPollerOf result.me.0 self.proc.0 }
        ensures read { (polled_of result.me.0).read ≡ self.read }
        ensures account { (polled_of result.me.0).account ≡ self.account }
        ensures word { credit_word self.proc.0 < self.table.words }
        ensures no_slot { result.me.1 ≡ [] }
    {
        let Poller {
            proc: _,
            account: _,
            seat,
        } = self;
        seat
    }

    /// The processor.
    pub fn proc(&self) -> ProcNo
        ensures proc { result ≡ self.now.proc }
        ensures word { credit_word self.now.proc.0 < self.now.table.words }
    {
        self.proc
    }

    /// What was credited to the processor.
    pub fn account(&self) -> Account
        ensures { result ≡ self.now.account }
    {
        self.account
    }

    /// Reads the processor's line word: the event at which its line was raised, or `None` exactly
    /// where it read 0.
    pub fn poll(&mut self, words: &LineWords) -> Option<u64>
        requires { self.old.table ≡ words.now }
        ensures { self.new ≡ with_poll result self.old }
    {
        words
            .table
            .shared
            .load::<Poll>(&mut self.seat, line_word(self.proc))
            .checked_sub(1)
    }

    /// Waits until the credit's number is in the credit word, takes it from there, and applies
    /// it.
    pub(crate) fn take<R: Wait>(&mut self, rt: &R, words: &LineWords, what: Credit)
        requires own { self.old.table ≡ words.now }
        requires some { 0 < number_of what }
        requires back { credit_of (number_of what) ≡ what }
        ensures { self.new ≡ with_credit what self.old }
    {
        take_number(rt, &mut self.seat, words, self.proc, what.number());
        self.account.apply(what);
    }
}

// Whether the number stood in the credit word, and was taken from there.
fn try_take(seat: &mut Seat<u8, View>, words: &LineWords, p: ProcNo, number: u64) -> bool
    requires own { seat.old.table_id ≡ words.now }
    requires word { credit_word p.0 < words.now.words }
    requires poller { IsPollerOf seat.old.me.0 p.0 }
    requires some { 0 < number }
    ensures own { seat.new.table_id ≡ seat.old.table_id }
    ensures taken { MatchBool result
        (seat.new.me ≡ (on_poller (taken number) seat.old.me.0, seat.old.me.1))
        (seat.new.me ≡ seat.old.me) }
    ensures counted { OnTrue result
        ((applied number (polled_of seat.old.me.0).account).count ≤ MAX_EVENTS) }
{
    words
        .table
        .shared
        .compare_exchange::<Take>(seat, credit_word(p), number, 0)
        == number
}

// Waits until the number is in the credit word, and takes it from there.
fn take_number<R: Wait>(
    rt: &R,
    seat: &mut Seat<u8, View>,
    words: &LineWords,
    p: ProcNo,
    number: u64,
)
    requires own { seat.old.table_id ≡ words.now }
    requires word { credit_word p.0 < words.now.words }
    requires poller { IsPollerOf seat.old.me.0 p.0 }
    requires some { 0 < number }
    ensures own { seat.new.table_id ≡ seat.old.table_id }
    ensures taken { seat.new.me ≡ (on_poller (taken number) seat.old.me.0, seat.old.me.1) }
    ensures counted { (applied number (polled_of seat.old.me.0).account).count ≤ MAX_EVENTS }
{
    for _ in rt.forever() {
        if try_take(seat, words, p, number) {
            return;
        }
    }
    unreachable!()
}
