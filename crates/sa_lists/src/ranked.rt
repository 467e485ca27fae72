// Lists of threads in the order of ranks: a chain for each rank of each list.
ghost use Rattle.std.specs.Prelude.{◌≡◌, ℕ, false, ◌+◌, ◌*◌, ◌-◌, ◌<◌, ◌≤◌, ◌↔◌, nat_lt, [], length, take, drop, replicate, slice_get, slice_set, IfOk, IfSome, IsTrue, OnOk, ◌++◌};
ghost use Rattle.sa_links.specs.Lists.{IsApart, IsFree, list_at, with_list};
ghost use Rattle.sa_lists.specs.ReadyView.{inserted, opening_ranks, rank_of};
ghost use Rattle.sa_lists.specs.Chains.{Ranked, width_of, words_of, joined, chains_of, IsNoted};
ghost use Rattle.sa_lists.specs.RankSet.{has, IsGreatest, IsLeast};

use crate::rank_set::RankSet;
use crate::ranks::{MAX_RANKS, Ranks};
use sa_base::{MAX_PROCESSORS, MAX_THREADS};
use sa_links::Links;
use std::alloc::{AllocError, Global};
use std::marker::Model;

/// Lists of threads: those of the greatest rank first, and of one rank the newest first. Every call takes constant time, and
/// none but `new` takes memory.
#[derive(Drop)]
pub(crate) struct RankedLists {
    // the chain of rank k of list l is number l * width + k, where there are `width` ranks
    chains: Links,
    // for each list, the ranks whose chains have threads
    filled: Vec<RankSet>,
    // the rank of each thread; empty where there is one rank
    ranks: Vec<u16>,
    kind: Ranks,
}

impl Model for RankedLists {
    ghost use Rattle.std.specs.Prelude.{◌≡◌, length};
    ghost use Rattle.sa_lists.specs.Chains.{Ranked, IsRanked, lists_of, width_of};

    ghost Value = { Ranked };

    ghost view = { λ r. record {
      lists = record {
        nodes = r.chains.nodes;
        lists = lists_of r.chains.lists (width_of r.kind) (length r.filled.items);
      };
      ranks = r.ranks.items;
    } };

    ghost invariant = { λ r. IsRanked r.kind r.chains.lists r.filled.items r.ranks.items };
}

impl RankedLists {
    /// Empty lists. Fails only where memory runs out.
    pub(crate) fn new(
        alloc: Global,
        lists: u16,
        kind: Ranks,
        threads: u16,
    ) -> Result<RankedLists, AllocError>
        ensures { IfOk result (λ ranked. ranked ≡ record {
          lists = record { nodes = threads; lists = replicate lists [] };
          ranks = opening_ranks kind threads;
        }) }
    {
        let filled = no_ranks(alloc, lists)?;
        let ranks = opening_ranks(alloc, kind, threads)?;
        let chains = Links::new(alloc, u32::from(threads), chain_of(kind, lists, 0))?;
        Ok(RankedLists {
            chains,
            filled,
            ranks,
            kind,
        })
    }

    /// Gives a rank to a thread that is in no list.
    pub(crate) fn set_rank(&mut self, t: u16, rank: u16)
        requires free { IsFree self.old.lists t }
        requires rank { rank < MAX_RANKS }
        ensures { self.new ≡ record self.old { ranks = slice_set self.old.ranks t rank } }
    {
        give_rank(&mut self.ranks, t, rank);
    }

    /// Whether threads have ranks of their own.
    pub(crate) fn has_ranks(&self) -> bool
        ensures { result ≡ nat_lt 0 (length self.now.ranks) }
    {
        0 < self.ranks.len()
    }

    /// Puts a thread that is in no list into `list`, as the newest of its rank.
    pub(crate) fn push(&mut self, list: u16, t: u16)
        requires list { list < length self.old.lists.lists }
        requires thread { t < self.old.lists.nodes }
        requires free { IsFree self.old.lists t }
        ensures { self.new ≡ record self.old {
          lists = with_list self.old.lists list
              (inserted self.old.ranks t (list_at self.old.lists.lists list));
        } }
    {
        let rank = rank_of(self.ranks.as_slice(), t);
        self.chains
            .push_front(chain_of(self.kind, list, rank), u32::from(t));
        note(&mut self.filled, list, rank, true);
    }

    /// Takes the first thread out of `list`: `None` exactly where the list is empty.
    pub(crate) fn pop_first(&mut self, list: u16) -> Option<u32>
        requires { list < length self.old.lists.lists }
        ensures first { result ≡ slice_get (list_at self.old.lists.lists list) 0 }
        ensures lists { self.new ≡ record self.old {
          lists = with_list self.old.lists list (drop 1 (list_at self.old.lists.lists list));
        } }
        ensures thread { IfSome result (λ t. t < self.old.lists.nodes) }
    {
        let rank = greatest(&self.filled, list)?;
        let chain = chain_of(self.kind, list, rank);
        let thread = self.chains.pop_front(chain);
        let has_more = !self.chains.is_empty(chain);
        note(&mut self.filled, list, rank, has_more);
        thread
    }

    /// Takes the last thread out of `list`: `None` exactly where the list is empty.
    pub(crate) fn pop_last(&mut self, list: u16) -> Option<u32>
        requires { list < length self.old.lists.lists }
        ensures last { let xs = list_at self.old.lists.lists list in
            result ≡ slice_get xs (length xs - 1) }
        ensures lists { let xs = list_at self.old.lists.lists list in
            self.new ≡ record self.old {
              lists = with_list self.old.lists list (take (length xs - 1) xs);
            } }
        ensures thread { IfSome result (λ t. t < self.old.lists.nodes) }
    {
        let rank = least(&self.filled, list)?;
        let chain = chain_of(self.kind, list, rank);
        let thread = self.chains.pop_back(chain);
        let has_more = !self.chains.is_empty(chain);
        note(&mut self.filled, list, rank, has_more);
        thread
    }

    /// The first thread of `list`: `None` exactly where the list is empty.
    pub(crate) fn first(&self, list: u16) -> Option<u32>
        requires { list < length self.now.lists.lists }
        ensures first { result ≡ slice_get (list_at self.now.lists.lists list) 0 }
        ensures thread { IfSome result (λ t. t < self.now.lists.nodes) }
    {
        let rank = greatest(&self.filled, list)?;
        self.chains.front(chain_of(self.kind, list, rank))
    }

    /// Adds the threads of `list`, in order, at the end of `out`. Fails only where memory runs out.
    pub(crate) fn copy_list(&self, list: u16, out: &mut Vec<u32>) -> Result<(), AllocError>
        requires { list < length self.now.lists.lists }
        ensures { OnOk result (out.new.items ≡ out.old.items ++ list_at self.now.lists.lists list) }
    {
        copy_chains(&self.chains, self.kind, list, out)
    }

    /// The rank of a thread.
    pub(crate) fn rank(&self, t: u16) -> u16
        ensures { result ≡ rank_of self.now.ranks t }
    {
        rank_of(self.ranks.as_slice(), t)
    }

    /// Whether `list` has no thread.
    pub(crate) fn is_empty(&self, list: u16) -> bool
        requires { list < length self.now.lists.lists }
        ensures { IsTrue result ↔ (list_at self.now.lists.lists list ≡ []) }
    {
        greatest(&self.filled, list).is_none()
    }

    /// Whether a thread is in no list.
    pub(crate) fn is_free(&self, t: u16) -> bool
        requires { t < self.now.lists.nodes }
        ensures { IsTrue result ↔ IsFree self.now.lists t }
    {
        self.chains.is_free(u32::from(t))
    }

    /// Says that the lists are apart: each has numbers of threads alone, and no number is there more than once.
    pub(crate) fn are_apart(&self)
        ensures { IsApart self.now.lists }
    {
        self.chains.are_apart();
    }
}

// The number of the chain of a rank of a list.
fn chain_of(kind: Ranks, list: u16, rank: u16) -> u32
    ensures { result ≡ list * width_of kind + rank }
{
    let width = match kind {
        Ranks::One => 1,
        Ranks::Many => u32::from(MAX_RANKS),
    };
    u32::from(list) * width + u32::from(rank)
}

// Adds the chains of a list, that of the greatest rank first, at the end of `out`. Fails only where memory runs out.
fn copy_chains(chains: &Links, kind: Ranks, list: u16, out: &mut Vec<u32>) -> Result<(), AllocError>
    requires { (list + 1) * width_of kind ≤ length chains.now.lists }
    ensures { OnOk result (out.new.items
        ≡ out.old.items ++ joined (chains_of chains.now.lists (width_of kind) list)) }
{
    let mut rank = width_of(kind);
    while rank > 0 {
        rank -= 1;
        chains.copy_list(chain_of(kind, list, rank), out)?;
    }
    Ok(())
}

// How many ranks there are.
fn width_of(kind: Ranks) -> u16
    ensures { result ≡ width_of kind }
{
    match kind {
        Ranks::One => 1,
        Ranks::Many => MAX_RANKS,
    }
}

// The ranks of threads of which none was made. Fails only where memory runs out.
fn opening_ranks(alloc: Global, kind: Ranks, threads: u16) -> Result<Vec<u16>, AllocError>
    ensures { IfOk result (λ ranks. ranks.items ≡ opening_ranks kind threads) }
{
    match kind {
        Ranks::One => Ok(Vec::new(alloc)),
        Ranks::Many => vec![in alloc; 0; usize::from(threads)],
    }
}

// The rank of a thread.
fn rank_of(ranks: &[u16], t: u16) -> u16
    ensures { result ≡ rank_of ranks.now t }
{
    match ranks.get(usize::from(t)) {
        Some(rank) => *rank,
        None => 0,
    }
}

// Gives a rank to a thread; where there is one rank, nothing changes.
fn give_rank(ranks: &mut Vec<u16>, t: u16, rank: u16)
    ensures { ranks.new.items ≡ slice_set ranks.old.items t rank }
{
    if let Some(place) = ranks.get_mut(usize::from(t)) {
        *place = rank;
    }
}

// The ranks of this many lists without threads. Fails only where memory runs out.
fn no_ranks(alloc: Global, lists: u16) -> Result<Vec<RankSet>, AllocError>
    ensures { IfOk result (λ filled. (length filled.items ≡ lists)
        × ((l k : ℕ) → l < lists → has (words_of filled.items l) k ≡ false)) }
{
    vec![in alloc; RankSet::new(); usize::from(lists)]
}

// The greatest rank of a list, and the least: `None` exactly where it has no thread.
fn greatest(filled: &Vec<RankSet>, list: u16) -> Option<u16>
    requires { list < length filled.now.items }
    ensures { IsGreatest (words_of filled.now.items list) result }
{
    filled[usize::from(list)].greatest()
}

fn least(filled: &Vec<RankSet>, list: u16) -> Option<u16>
    requires { list < length filled.now.items }
    ensures { IsLeast (words_of filled.now.items list) result }
{
    filled[usize::from(list)].least()
}

// Notes whether a rank of a list has threads.
fn note(filled: &mut Vec<RankSet>, list: u16, rank: u16, some: bool)
    requires list { list < length filled.old.items }
    requires rank { rank < MAX_RANKS }
    ensures { IsNoted filled.old.items list rank some filled.new.items }
{
    filled[usize::from(list)].put(rank, some);
}
