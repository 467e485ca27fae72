ghost use Rattle.std.specs.Prelude.{◌≡◌, ◌<◌, ◌==◌, length, position, IfSome};
ghost use Rattle.sa_command.specs.Values.{number_within, hold_by_parts, hold_of, schedule_of, give_of};

use crate::command::{GiveWord, ScheduleWord};
use sa_base::{MAX_EVENTS, MAX_PROCESSORS, ProcNo};
use sa_text::read_number;

/// The number that the word spells, where it is from `low` to `high`.
pub(crate) fn read_within(low: u64, high: u64, word: &[u8]) -> Option<u64>
    ensures { result ≡ number_within low high word.now }
{
    let n = read_number(word)?;
    if low <= n && n <= high { Some(n) } else { None }
}

/// The order of turns that the word is.
pub(crate) fn read_schedule(word: &[u8]) -> Option<ScheduleWord>
    ensures { result ≡ schedule_of word.now }
{
    if word == b"rr".as_slice() {
        return Some(ScheduleWord::RoundRobin);
    }
    if word == b"given".as_slice() {
        return Some(ScheduleWord::Given);
    }
    if let Some(seed) = word.strip_prefix(b"seed:") {
        return read_number(seed).map(ScheduleWord::Seed);
    }
    read_hold(word.strip_prefix(b"hold:")?)
}

// The processor that is held, and the event from which on it is.
fn read_hold(word: &[u8]) -> Option<ScheduleWord>
    ensures { result ≡ hold_of word.now }
{
    match colon_in(word) {
        None => None,
        Some(colon) => read_parts(&word[..colon], &word[colon + 1..]),
    }
}

// The place of the first colon.
fn colon_in(word: &[u8]) -> Option<usize>
    ensures place { result ≡ position (λ byte. byte == 58) word.now }
    ensures within { IfSome result (λ colon. colon < length word.now) }
{
    word.iter().position(|byte| *byte == b':')
}

// The processor that is held by these words, and the event.
fn read_parts(proc: &[u8], from: &[u8]) -> Option<ScheduleWord>
    ensures { result ≡ hold_by_parts proc.now from.now }
{
    let proc = read_within(0, u64::from(MAX_PROCESSORS - 1), proc)?;
    let from = read_within(1, MAX_EVENTS, from)?;
    Some(ScheduleWord::Hold(ProcNo(proc as u16), from))
}

/// The schedule that the word asks for.
pub(crate) fn read_give(word: &[u8]) -> Option<GiveWord>
    ensures { result ≡ give_of word.now }
{
    if word == b"alldone".as_slice() {
        return Some(GiveWord::AllDone);
    }
    if word == b"stuck".as_slice() {
        return Some(GiveWord::Stuck);
    }
    if word == b"endless".as_slice() {
        return Some(GiveWord::Endless);
    }
    None
}
