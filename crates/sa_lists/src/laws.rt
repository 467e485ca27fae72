//! Laws of ready lists alone, over the values that contracts see. No function here does anything.
ghost use Rattle.std.specs.Prelude.{◌≡◌, ℕ, ◌-◌, ◌<◌, ◌≤◌, Bool, true, false, List, [], ◌∷◌, length, Some, None, slice_get, slice_set};
ghost use Rattle.sa_links.specs.Lists.{IsIn, list_at};
ghost use Rattle.sa_lists.specs.declared.ranks.Ranks.{Ranks};
ghost use Rattle.sa_lists.specs.Chains.{joined, AreByRank, IsGreatestFilled, IsLeastFilled, IsOrdered};
ghost use Rattle.sa_lists.specs.ReadyView.{ReadyView, no_threads, list_of, rank_of, inserted, IsUnlisted, with_lock, pushed, newest, without_newest, oldest, without_oldest, is_open, steps_round, sought, next_made, with_made, IsReady};

use sa_base::{MAX_PROCESSORS, MAX_THREADS};

/// A thread is in at most one list.
pub fn a_thread_stands_in_one_list()
    ensures { (r : ReadyView) (l m t : ℕ) → IsReady r → l < length r.lists
        → IsIn t (list_of r l) → IsIn t (list_of r m) → l ≡ m }
{}

/// A thread that was taken out is in no list.
pub fn a_taken_thread_stands_in_none()
    ensures newest { (r : ReadyView) (l t : ℕ) → IsReady r → l < length r.lists
        → newest r l ≡ Some t → IsUnlisted (without_newest r l) t }
    ensures oldest { (r : ReadyView) (l t : ℕ) → IsReady r → l < length r.lists
        → oldest r l ≡ Some t → IsUnlisted (without_oldest r l) t }
{}

/// What holds of all ready lists holds of new ones, and each change keeps it.
pub fn changes_keep_what_holds()
    ensures no_threads { (count : ℕ) (ranks : Ranks) (threads : ℕ) → count ≤ MAX_PROCESSORS
        → threads ≤ MAX_THREADS → IsReady (no_threads count ranks threads) }
    ensures pushed { (r : ReadyView) (l t : ℕ) → IsReady r → l < length r.lists
        → t < r.threads → IsUnlisted r t → IsReady (pushed r l t) }
    ensures without_newest { (r : ReadyView) (l : ℕ) → IsReady r → l < length r.lists
        → IsReady (without_newest r l) }
    ensures without_oldest { (r : ReadyView) (l : ℕ) → IsReady r → l < length r.lists
        → IsReady (without_oldest r l) }
    ensures with_lock { (r : ReadyView) (l : ℕ) (held : Bool) → IsReady r
        → IsReady (with_lock r l held) }
    ensures with_made { (r : ReadyView) (rank : ℕ) → IsReady r
        → IsReady (with_made r rank (next_made r)) }
{}

/// Where there is one rank, a thread that is pushed is the newest of its list.
pub fn of_one_rank_the_newest_is_first()
    ensures { (t : ℕ) (xs : List ℕ) → inserted [] t xs ≡ t ∷ xs }
{}

/// A chain for each rank is a list in the order of ranks: to put a thread in front of the chain of its rank is to put it
/// into the list, after all that outrank it and in front of all others; the first of the greatest rank that has some, and
/// the last of the least, are the first and the last of the list.
pub fn a_chain_for_each_rank_is_an_ordered_list()
    ensures pushed { (ranks : List ℕ) (chains : List (List ℕ)) (t : ℕ)
        → AreByRank ranks chains → rank_of ranks t < length chains
        → joined (slice_set chains (rank_of ranks t) (t ∷ list_at chains (rank_of ranks t)))
        ≡ inserted ranks t (joined chains) }
    ensures first { (chains : List (List ℕ)) (k : ℕ) → IsGreatestFilled chains k
        → slice_get (joined chains) 0 ≡ slice_get (list_at chains k) 0 }
    ensures last { (chains : List (List ℕ)) (k : ℕ) → IsLeastFilled chains k
        → slice_get (joined chains) (length (joined chains) - 1)
        ≡ slice_get (list_at chains k) (length (list_at chains k) - 1) }
    ensures ordered { (ranks : List ℕ) (chains : List (List ℕ)) → AreByRank ranks chains
        → IsOrdered ranks (joined chains) }
{}

/// `seek` names the first list, round from where it begins, that has a thread and whose lock is free, and none
/// exactly where there is no such list.
pub fn seek_finds_the_first_open_list()
    ensures inside { (r : ReadyView) (p q : ℕ) → p < length r.lists → sought r p ≡ Some q
        → q < length r.lists }
    ensures free { (r : ReadyView) (p q : ℕ) → p < length r.lists → sought r p ≡ Some q
        → is_open r q ≡ true }
    ensures first { (r : ReadyView) (p q k : ℕ) → p < length r.lists → sought r p ≡ Some q
        → k < length r.lists → steps_round (length r.lists) p k < steps_round (length r.lists) p q
        → is_open r k ≡ false }
    ensures none { (r : ReadyView) (p k : ℕ) → p < length r.lists → sought r p ≡ None
        → k < length r.lists → is_open r k ≡ false }
{}
