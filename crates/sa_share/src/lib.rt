//! The policy of processor allocation: how many processors each space gets.
#![tactic(auto)]

ghost use Rattle.std.specs.Prelude.{◌≡◌, ℕ, ◌+◌, ◌<◌, ◌≤◌, ◌↔◌, length, sum, IsTrue, IfSome, IfNone, MatchOption};
ghost use Rattle.sa_share.specs.Share.{rank_of, want_at, share_at, IsFirst, IsShare};
ghost use Rattle.sa_share.specs.Rounds.{shares_of};
ghost use Rattle.sa_share.specs.Serving.{AreMet, IsLevel, IsHighest};

pub mod laws;

pub use sa_base::{MAX_PROCESSORS, MAX_SPACES};

/// What one space claims; by default nothing.
#[derive(Clone, Copy, Default)]
pub struct Claim {
    /// 0 to 255; a space of higher priority is served first.
    pub priority: u8,
    /// How many processors the space wants.
    pub want: u16,
}

/// How many of the processors, 1 to 16, each space gets: place `s` has the share of space `s`, and 0
/// past the claims, which are at most 16. Spaces of one priority take turns, and the turns begin at the
/// space `first`, which is one of the claims, or 0 where there are none.
pub fn shares(processors: u16, first: u16, claims: &[Claim]) -> [u16; MAX_SPACES]
    requires low { 1 ≤ processors }
    requires high { processors ≤ MAX_PROCESSORS }
    requires spaces { length claims.now ≤ MAX_SPACES }
    requires first { IsFirst first claims.now }
    ensures shares { IsShare processors first claims.now result }
    ensures function { result ≡ shares_of processors first claims.now }
    ensures past { (s : ℕ) → length claims.now ≤ s → share_at result s ≡ 0 }
{
    match whole_wants(processors, claims) {
        Some(wants) => wants,
        None => shares_in_rounds(processors, usize::from(first), claims),
    }
}

// What each space wants, where the processors suffice for all of it.
fn whole_wants(processors: u16, claims: &[Claim]) -> Option<[u16; MAX_SPACES]>
    requires { length claims.now ≤ MAX_SPACES }
    ensures met { IfSome result (AreMet claims.now) }
    ensures few { IfSome result (λ wants. sum wants ≤ processors) }
{
    let mut wants = [0; MAX_SPACES];
    let mut left = processors;
    for space in 0..claims.len() {
        left = left.checked_sub(claims[space].want)?;
        wants[space] = claims[space].want;
    }
    Some(wants)
}

// The shares, given in rounds: each serves the highest priority that still wants more.
fn shares_in_rounds(processors: u16, first: usize, claims: &[Claim]) -> [u16; MAX_SPACES]
    requires spaces { length claims.now ≤ MAX_SPACES }
    requires first { IsFirst first claims.now }
    ensures { IsShare processors first claims.now result }
{
    let mut shares = [0; MAX_SPACES];
    let mut left = processors;
    while left > 0 {
        let Some(priority) = highest_wanting(claims, &shares) else {
            return shares;
        };
        left -= serve(priority, left, first, claims, &mut shares);
    }
    shares
}

// The highest priority of the spaces that want more, or none where every want is met.
fn highest_wanting(claims: &[Claim], shares: &[u16; MAX_SPACES]) -> Option<u8>
    requires { length claims.now ≤ MAX_SPACES }
    ensures none { IfNone result ((s : ℕ) → want_at claims.now s ≤ share_at shares.now s) }
    ensures highest { IfSome result (IsHighest claims.now shares.now) }
{
    let mut highest = None;
    for space in 0..claims.len() {
        let claim = claims[space];
        if shares[space] < claim.want && is_above(claim.priority, highest) {
            highest = Some(claim.priority);
        }
    }
    highest
}

// Whether a priority is above the highest so far, if there is one.
fn is_above(priority: u8, highest: Option<u8>) -> bool
    ensures { IsTrue result ↔ MatchOption highest (Unit {0}) (λ other. other < priority) }
{
    match highest {
        None => true,
        Some(other) => other < priority,
    }
}

// One round: each space of the priority that wants more gets one of the processors that are left, in the
// order of ranks and while there are some. Answers how many were given.
fn serve(
    priority: u8,
    left: u16,
    first: usize,
    claims: &[Claim],
    shares: &mut [u16; MAX_SPACES],
) -> u16
    requires some { 1 ≤ left }
    requires spaces { length claims.now ≤ MAX_SPACES }
    requires first { IsFirst first claims.now }
    requires shares { IsShare (sum shares.old) first claims.now shares.old }
    requires level { IsLevel claims.now shares.old }
    requires highest { IsHighest claims.now shares.old priority }
    ensures shares { IsShare (sum shares.new) first claims.now shares.new }
    ensures given { sum shares.new ≡ sum shares.old + result }
    ensures some { 1 ≤ result }
    ensures few { result ≤ left }
    ensures level { result < left → IsLevel claims.now shares.new }
{
    let mut given = 0;
    for rank in 0..claims.len() {
        if given == left {
            return given;
        }
        let space = space_of(rank, first, claims);
        if claims[space].priority == priority && shares[space] < claims[space].want {
            shares[space] += 1;
            given += 1;
        }
    }
    given
}

// The space that so many come before, counted round from the first.
fn space_of(rank: usize, first: usize, claims: &[Claim]) -> usize
    requires spaces { length claims.now ≤ MAX_SPACES }
    requires first { first < length claims.now }
    requires rank { rank < length claims.now }
    ensures within { result < length claims.now }
    ensures rank { rank_of first claims.now result ≡ rank }
{
    let space = first + rank;
    if space < claims.len() {
        space
    } else {
        space - claims.len()
    }
}
