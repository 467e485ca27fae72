// The keeper's side of the words.
ghost use Rattle.std.specs.Prelude.{◌≡◌, ◌+◌, ◌<◌, ◌≤◌, [], length, MatchBool};
ghost use Rattle.sa_base.specs.declared.limits.TheConstants.{MAX_EVENTS};
ghost use Rattle.sa_lines.specs.Credit.{MayCredit};
ghost use Rattle.sa_lines.specs.Words.{lane_at, lanes_of, IsKeeping, credit_word};
ghost use Rattle.sa_lines.specs.Steps.{on_lane, granted, cleared};
ghost use Rattle.sa_lines.specs.Seen.{KeepsWell, MayGrant, raised_at, lowered_at, credited_at, with_credit, with_poller};

use crate::credit::Credit;
use crate::poller::Poller;
use crate::view::{Clear, Grant, Lower, Raise, Together, View};
use crate::words::{LineWords, credit_word, line_word};
use atomic_table::Seat;
use sa_base::ProcNo;
use std::marker::Model;
use std::sync::Wait;

/// The one that raises and lowers the lines, and credits turns and the end. Contracts see the words
/// that it is of, and what it knows of each processor; between calls nothing is handed over. No
/// call can fail for want of memory.
#[derive(Drop)]
pub struct Keeper {
    seat: Seat<u8, View>,
}

impl Model for Keeper {
    ghost use Rattle.std.specs.Prelude.{◌≡◌, []};
    ghost use Rattle.sa_lines.specs.Words.{lanes_of};
    ghost use Rattle.sa_lines.specs.Seen.{KeeperSeen, KeepsWell};

    ghost Value = { KeeperSeen };

    ghost view = { λ k. record { table = k.seat.table_id; lanes = lanes_of k.seat.me.0 } };

    ghost invariant = { λ k. KeepsWell k.seat.table_id k.seat.me.0 × (k.seat.me.1 ≡ []) };
}

impl Keeper {
    pub(crate) fn of(seat: Seat<u8, View>) -> Keeper
        requires keeps { KeepsWell seat.table_id seat.me.0 }
        requires no_slot { seat.me.1 ≡ [] }
        ensures table { result.table ≡ seat.table_id }
        ensures lanes { result.lanes ≡ lanes_of seat.me.0 }
    {
        Keeper { seat }
    }

    pub(crate) fn into_seat(self) -> Seat<u8, View>
        ensures table { result.table_id ≡ self.table }
        ensures lanes { lanes_of result.me.0 ≡ self.lanes }
        ensures keeps { KeepsWell result.table_id result.me.0 }
    {
        let Keeper { seat } = self;
        seat
    }

    /// Raises the line of a processor at an event, 0 to 1,000,000: its line word says that event.
    pub fn raise(&mut self, words: &LineWords, p: ProcNo, event: u64)
        requires own { self.old.table ≡ words.now }
        requires processor { p.0 < length self.old.lanes }
        requires event { event ≤ MAX_EVENTS }
        ensures { self.new ≡ raised_at p.0 event self.old }
    {
        words
            .table
            .shared
            .store::<Raise>(&mut self.seat, line_word(p), event + 1);
    }

    /// Lowers the line of a processor: its line word is 0.
    pub fn lower(&mut self, words: &LineWords, p: ProcNo)
        requires own { self.old.table ≡ words.now }
        requires processor { p.0 < length self.old.lanes }
        ensures { self.new ≡ lowered_at p.0 self.old }
    {
        words
            .table
            .shared
            .store::<Lower>(&mut self.seat, line_word(p), 0);
    }

    /// Applies a credit to the keeper's account of the poller's processor and to the poller's
    /// account. The number of the credit goes through the credit word, and the call waits until it
    /// was taken.
    pub fn credit<R: Wait>(&mut self, rt: &R, words: &LineWords, poller: &mut Poller, what: Credit)
        requires own { self.old.table ≡ words.now }
        requires poller { poller.old.table ≡ words.now }
        requires what { MayCredit (lane_at self.old.lanes poller.old.proc.0).account what }
        ensures keeper { self.new ≡ credited_at poller.old.proc.0 what self.old }
        ensures poller { poller.new ≡ with_credit what poller.old }
    {
        let p = poller.proc();
        grant(&mut self.seat, words, p, what.number());
        poller.take(rt, words, what);
        see_taken(rt, &mut self.seat, words, p);
    }

    /// The poller is spent, and the keeper knows what it knew.
    pub fn join(&mut self, words: &LineWords, poller: Poller)
        requires own { self.old.table ≡ words.now }
        requires poller { poller.table ≡ words.now }
        ensures { self.new ≡ with_poller poller self.old }
    {
        words
            .table
            .shared
            .join_seat::<Together>(&mut self.seat, poller.into_seat());
    }
}

// Stores the number in the credit word, and applies it to the keeper's account.
fn grant(seat: &mut Seat<u8, View>, words: &LineWords, p: ProcNo, number: u64)
    requires own { seat.old.table_id ≡ words.now }
    requires word { credit_word p.0 < words.now.words }
    requires may { MayGrant p.0 number seat.old.me.0 }
    ensures own { seat.new.table_id ≡ seat.old.table_id }
    ensures granted { seat.new.me ≡ (on_lane p.0 (granted number) seat.old.me.0, seat.old.me.1) }
{
    words
        .table
        .shared
        .store::<Grant>(seat, credit_word(p), number);
}

// Whether the credit word reads 0. Then nothing is handed over any more.
fn clear(seat: &mut Seat<u8, View>, words: &LineWords, p: ProcNo) -> bool
    requires own { seat.old.table_id ≡ words.now }
    requires word { credit_word p.0 < words.now.words }
    requires keeping { IsKeeping seat.old.me.0 }
    ensures own { seat.new.table_id ≡ seat.old.table_id }
    ensures cleared { MatchBool result
        (seat.new.me ≡ (on_lane p.0 cleared seat.old.me.0, seat.old.me.1))
        (seat.new.me ≡ seat.old.me) }
{
    words.table.shared.load::<Clear>(seat, credit_word(p)) == 0
}

// Waits until nothing is handed over any more.
fn see_taken<R: Wait>(rt: &R, seat: &mut Seat<u8, View>, words: &LineWords, p: ProcNo)
    requires own { seat.old.table_id ≡ words.now }
    requires word { credit_word p.0 < words.now.words }
    requires keeping { IsKeeping seat.old.me.0 }
    ensures own { seat.new.table_id ≡ seat.old.table_id }
    ensures cleared { seat.new.me ≡ (on_lane p.0 cleared seat.old.me.0, seat.old.me.1) }
{
    for _ in rt.forever() {
        if clear(seat, words, p) {
            return;
        }
    }
    unreachable!()
}
