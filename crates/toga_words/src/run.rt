// The requests of runs.
ghost use Rattle.std.specs.Prelude.{◌≡◌, Ok, Err, MatchResult};
ghost use Rattle.clap.specs.Matches.{found_of};
ghost use Rattle.clap.specs.Walk.{rows_of};
ghost use Rattle.toga_words.specs.Asked.{asked, objected};
ghost use Rattle.toga_words.specs.Requests.{budget_of, run_of, explore_of, states_of, vp_of};

use crate::refusal::{Refusal, Setting};
use crate::request::Request;
use crate::value::{give, input, number, one, package, schedule};
use clap::ArgMatches;
use sa_base::{DEFAULT_BUDGET, MAX_EVENTS};
use sa_command::DEFAULT_STATES;
use sa_states::MAX_STATES;

/// What `run` is asked for.
pub(crate) fn run<'a>(matches: &ArgMatches<'a>) -> Result<Request<'a>, Refusal<'a>>
    ensures { let rows = rows_of (found_of matches.now) in
        MatchResult result (λ r. run_of rows ≡ Ok (asked r)) (λ e. run_of rows ≡ Err (objected e)) }
{
    let schedule = match schedule(matches) {
        Ok(schedule) => schedule,
        Err(refusal) => return Err(refusal),
    };
    let package = match package(matches) {
        Ok(package) => package,
        Err(refusal) => return Err(refusal),
    };
    let budget = match budget(matches) {
        Ok(budget) => budget,
        Err(refusal) => return Err(refusal),
    };
    Ok(Request::Run {
        source: input(matches, "SOURCE"),
        schedule,
        package,
        budget,
        trace: one(matches, "trace"),
        page: one(matches, "page"),
        picture: one(matches, "picture"),
    })
}

/// What `explore` is asked for.
pub(crate) fn explore<'a>(matches: &ArgMatches<'a>) -> Result<Request<'a>, Refusal<'a>>
    ensures { let rows = rows_of (found_of matches.now) in
        MatchResult result (λ r. explore_of rows ≡ Ok (asked r)) (λ e. explore_of rows ≡ Err (objected e)) }
{
    let package = match package(matches) {
        Ok(package) => package,
        Err(refusal) => return Err(refusal),
    };
    let states = match states(matches) {
        Ok(states) => states,
        Err(refusal) => return Err(refusal),
    };
    let give = match give(matches) {
        Ok(give) => give,
        Err(refusal) => return Err(refusal),
    };
    Ok(Request::Explore {
        source: input(matches, "SOURCE"),
        package,
        states,
        give,
        output: one(matches, "output"),
    })
}

/// What `vp` is asked for.
pub(crate) fn vp<'a>(matches: &ArgMatches<'a>) -> Result<Request<'a>, Refusal<'a>>
    ensures { let rows = rows_of (found_of matches.now) in
        MatchResult result (λ r. vp_of rows ≡ Ok (asked r)) (λ e. vp_of rows ≡ Err (objected e)) }
{
    let schedule = match schedule(matches) {
        Ok(schedule) => schedule,
        Err(refusal) => return Err(refusal),
    };
    let budget = match budget(matches) {
        Ok(budget) => budget,
        Err(refusal) => return Err(refusal),
    };
    Ok(Request::Vp {
        source: input(matches, "SOURCE"),
        schedule,
        budget,
        trace: one(matches, "trace"),
    })
}

// The most events of a run.
fn budget<'a>(matches: &ArgMatches<'a>) -> Result<u64, Refusal<'a>>
    ensures { let rows = rows_of (found_of matches.now) in
        MatchResult result (λ n. budget_of rows ≡ Ok n) (λ e. budget_of rows ≡ Err (objected e)) }
{
    number(
        Setting::Budget,
        1,
        MAX_EVENTS,
        DEFAULT_BUDGET,
        one(matches, "budget"),
    )
}

// The most states that a search keeps.
fn states<'a>(matches: &ArgMatches<'a>) -> Result<u32, Refusal<'a>>
    ensures { let rows = rows_of (found_of matches.now) in
        MatchResult result (λ n. states_of rows ≡ Ok n) (λ e. states_of rows ≡ Err (objected e)) }
{
    let read = number(
        Setting::States,
        1,
        u64::from(MAX_STATES),
        u64::from(DEFAULT_STATES),
        one(matches, "states"),
    );
    match read {
        Ok(states) => Ok(states as u32),
        Err(refusal) => Err(refusal),
    }
}
