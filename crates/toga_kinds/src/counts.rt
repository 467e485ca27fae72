// How many turns there are.
ghost use Rattle.std.specs.Prelude.{◌≡◌, ◌≤◌, length};
ghost use Rattle.toga_kinds.specs.Kinds.{count, counts_here, events_on, is_of_kind, is_on, of_kind};

use crate::kind::{Kind, Turn, is_same};
use sa_base::ProcNo;

/// How many of the turns are of the processor.
pub fn events_on(turns: &[Turn], p: ProcNo) -> u64
    ensures { result ≡ events_on turns.now p }
{
    turns.iter().filter(|turn| is_on(p, turn)).count() as u64
}

/// How many of the turns are of the kind.
pub fn of_kind(turns: &[Turn], kind: Kind) -> u64
    ensures { result ≡ of_kind turns.now kind }
{
    turns.iter().filter(|turn| is_of_kind(kind, turn)).count() as u64
}

/// How many of the turns are of the processor and of the kind.
pub fn count(turns: &[Turn], p: ProcNo, kind: Kind) -> u64
    ensures { result ≡ count turns.now p kind }
{
    turns
        .iter()
        .filter(|turn| counts_here(p, kind, turn))
        .count() as u64
}

fn is_on(p: ProcNo, turn: &Turn) -> bool
    ensures { result ≡ is_on p turn.now }
{
    turn.proc.0 == p.0
}

fn is_of_kind(kind: Kind, turn: &Turn) -> bool
    ensures { result ≡ is_of_kind kind turn.now }
{
    is_same(turn.kind, kind)
}

fn counts_here(p: ProcNo, kind: Kind, turn: &Turn) -> bool
    ensures { result ≡ counts_here p kind turn.now }
{
    is_on(p, turn) && is_of_kind(kind, turn)
}
