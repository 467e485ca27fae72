// The values of options.
ghost use Rattle.std.specs.Prelude.{◌≡◌, ◌<◌, ◌==◌, Ok, Err, map, length, position, unwrap_or, [], IfOk, IfSome, MatchResult, codes};
ghost use Rattle.std.specs.Option.{option_map};
ghost use Rattle.clap.specs.Walk.{all_of, first_of, rows_of};
ghost use Rattle.clap.specs.Matches.{found_of};
ghost use Rattle.sa_command.specs.Values.{number_within, hold_by_parts, hold_of, schedule_of, give_of};
ghost use Rattle.toga_words.specs.Asked.{bytes_if, objected};
ghost use Rattle.toga_words.specs.Requests.{input_of};
ghost use Rattle.toga_words.specs.Values.{taken, number_of, number_if, package_by, schedule_by, give_by};

use crate::refusal::{Refusal, Setting};
use clap::ArgMatches;
use sa_base::{MAX_EVENTS, MAX_PROCESSORS, PackageName, ProcNo, read_package};
use sa_command::{GiveWord, ScheduleWord};
use sa_text::read_number;
use std::alloc::{AllocError, Global};

/// The first value of an argument.
pub(crate) fn one<'a>(matches: &ArgMatches<'a>, id: &str) -> Option<&'a str>
    ensures { bytes_if result ≡ first_of id.now (rows_of (found_of matches.now)) }
{
    matches.get_str(id)
}

/// All values of an argument; none where it is not named.
pub(crate) fn all<'a>(
    alloc: Global,
    matches: &ArgMatches<'a>,
    id: &str,
) -> Result<Vec<&'a str>, AllocError>
    ensures { IfOk result (λ words.
        map (λ s. s.now) words.items ≡ unwrap_or (all_of id.now (rows_of (found_of matches.now))) []) }
{
    match matches.get_strs(id) {
        Some(words) => Vec::from_slice(alloc, words),
        None => Ok(Vec::new(alloc)),
    }
}

/// The value of an input that has to be named.
pub(crate) fn input<'a>(matches: &ArgMatches<'a>, id: &str) -> &'a str
    ensures { result.now ≡ input_of (rows_of (found_of matches.now)) id.now }
{
    match one(matches, id) {
        Some(name) => name,
        None => "",
    }
}

/// The number of an option, or `usual` where it is not given.
pub(crate) fn number<'a>(
    setting: Setting,
    low: u64,
    high: u64,
    usual: u64,
    value: Option<&'a str>,
) -> Result<u64, Refusal<'a>>
    ensures { MatchResult result (λ x. number_of setting low high usual (bytes_if value.entry) ≡ Ok x) (λ e. number_of setting low high usual (bytes_if value.entry) ≡ Err (objected e)) }
{
    match value {
        None => Ok(usual),
        Some(word) => number_in(setting, low, high, word),
    }
}

/// The number of an option, where it is given.
pub(crate) fn number_if<'a>(
    setting: Setting,
    low: u64,
    high: u64,
    value: Option<&'a str>,
) -> Result<Option<u64>, Refusal<'a>>
    ensures { MatchResult result (λ x. number_if setting low high (bytes_if value.entry) ≡ Ok x) (λ e. number_if setting low high (bytes_if value.entry) ≡ Err (objected e)) }
{
    match value {
        None => Ok(None),
        Some(word) => match number_in(setting, low, high, word) {
            Ok(n) => Ok(Some(n)),
            Err(refusal) => Err(refusal),
        },
    }
}

// The number that a word of an option spells, where it is from `low` to `high`.
fn number_in<'a>(setting: Setting, low: u64, high: u64, word: &'a str) -> Result<u64, Refusal<'a>>
    ensures { MatchResult result (λ x. taken setting word.entry.now (number_within low high word.entry.now) ≡ Ok x) (λ e. taken setting word.entry.now (number_within low high word.entry.now) ≡ Err (objected e)) }
{
    match read_within(low, high, word.as_bytes()) {
        Some(n) => Ok(n),
        None => Err(Refusal::Value(setting, word)),
    }
}

/// The package.
pub(crate) fn package<'a>(matches: &ArgMatches<'a>) -> Result<PackageName, Refusal<'a>>
    ensures { let rows = rows_of (found_of matches.now) in MatchResult result
        (λ x. package_by (first_of (codes "package") rows) ≡ Ok x)
        (λ e. package_by (first_of (codes "package") rows) ≡ Err (objected e)) }
{
    package_in(one(matches, "package"))
}

// The package, by its word.
fn package_in<'a>(value: Option<&'a str>) -> Result<PackageName, Refusal<'a>>
    ensures { MatchResult result (λ x. package_by (bytes_if value.entry) ≡ Ok x) (λ e. package_by (bytes_if value.entry) ≡ Err (objected e)) }
{
    match value {
        None => Ok(PackageName::FastThreads),
        Some(word) => match read_package(word.as_bytes()) {
            Some(package) => Ok(package),
            None => Err(Refusal::Value(Setting::Package, word)),
        },
    }
}

/// The order of turns.
pub(crate) fn schedule<'a>(matches: &ArgMatches<'a>) -> Result<ScheduleWord, Refusal<'a>>
    ensures { let rows = rows_of (found_of matches.now) in MatchResult result
        (λ x. schedule_by (first_of (codes "schedule") rows) ≡ Ok x)
        (λ e. schedule_by (first_of (codes "schedule") rows) ≡ Err (objected e)) }
{
    schedule_in(one(matches, "schedule"))
}

// The order of turns, by its word.
fn schedule_in<'a>(value: Option<&'a str>) -> Result<ScheduleWord, Refusal<'a>>
    ensures { MatchResult result (λ x. schedule_by (bytes_if value.entry) ≡ Ok x) (λ e. schedule_by (bytes_if value.entry) ≡ Err (objected e)) }
{
    match value {
        None => Ok(ScheduleWord::Given),
        Some(word) => match read_schedule(word.as_bytes()) {
            Some(schedule) => Ok(schedule),
            None => Err(Refusal::Value(Setting::Schedule, word)),
        },
    }
}

/// The end whose schedule is asked for, if any is.
pub(crate) fn give<'a>(matches: &ArgMatches<'a>) -> Result<Option<GiveWord>, Refusal<'a>>
    ensures { let rows = rows_of (found_of matches.now) in MatchResult result
        (λ x. give_by (first_of (codes "give") rows) ≡ Ok x)
        (λ e. give_by (first_of (codes "give") rows) ≡ Err (objected e)) }
{
    give_in(one(matches, "give"))
}

// The end whose schedule is asked for, if any is, by its word.
fn give_in<'a>(value: Option<&'a str>) -> Result<Option<GiveWord>, Refusal<'a>>
    ensures { MatchResult result (λ x. give_by (bytes_if value.entry) ≡ Ok x) (λ e. give_by (bytes_if value.entry) ≡ Err (objected e)) }
{
    match value {
        None => Ok(None),
        Some(word) => match read_give(word.as_bytes()) {
            Some(give) => Ok(Some(give)),
            None => Err(Refusal::Value(Setting::Give, word)),
        },
    }
}

// The order of turns that the word is.
fn read_schedule(word: &[u8]) -> Option<ScheduleWord>
    ensures { result ≡ schedule_of word.now }
{
    if word == b"rr".as_slice() {
        return Some(ScheduleWord::RoundRobin);
    }
    if word == b"given".as_slice() {
        return Some(ScheduleWord::Given);
    }
    if let Some(seed) = word.strip_prefix(b"seed:") {
        return read_number(seed).map(ScheduleWord::Seed);
    }
    read_hold(word.strip_prefix(b"hold:")?)
}

// The processor that is held, and the event from which on it is.
fn read_hold(word: &[u8]) -> Option<ScheduleWord>
    ensures { result ≡ hold_of word.now }
{
    match colon_in(word) {
        None => None,
        Some(colon) => read_parts(&word[..colon], &word[colon + 1..]),
    }
}

// The place of the first colon.
fn colon_in(word: &[u8]) -> Option<usize>
    ensures place { result ≡ position (λ byte. byte == 58) word.now }
    ensures within { IfSome result (λ colon. colon < length word.now) }
{
    word.iter().position(|byte| *byte == b':')
}

// The processor that is held by these words, and the event.
fn read_parts(proc: &[u8], from: &[u8]) -> Option<ScheduleWord>
    ensures { result ≡ hold_by_parts proc.now from.now }
{
    let proc = read_within(0, u64::from(MAX_PROCESSORS - 1), proc)?;
    let from = read_within(1, MAX_EVENTS, from)?;
    Some(ScheduleWord::Hold(ProcNo(proc as u16), from))
}

// The number that the word spells, where it is from `low` to `high`.
fn read_within(low: u64, high: u64, word: &[u8]) -> Option<u64>
    ensures { result ≡ number_within low high word.now }
{
    let n = read_number(word)?;
    if low <= n && n <= high { Some(n) } else { None }
}

// The schedule that the word asks for.
fn read_give(word: &[u8]) -> Option<GiveWord>
    ensures { result ≡ give_of word.now }
{
    if word == b"alldone".as_slice() {
        return Some(GiveWord::AllDone);
    }
    if word == b"stuck".as_slice() {
        return Some(GiveWord::Stuck);
    }
    if word == b"endless".as_slice() {
        return Some(GiveWord::Endless);
    }
    None
}
