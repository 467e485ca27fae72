// The requests that read a trace.
ghost use Rattle.std.specs.Prelude.{◌≡◌, Ok, Err, MatchResult};
ghost use Rattle.clap.specs.Matches.{found_of};
ghost use Rattle.clap.specs.Walk.{rows_of};
ghost use Rattle.toga_words.specs.Asked.{asked, objected};
ghost use Rattle.toga_words.specs.Requests.{check_of, events_of, in_order, judged_of, page_of, picture_of, width_of};

use crate::refusal::{Refusal, Setting};
use crate::request::Request;
use crate::value::{input, number, number_if, one, package};
use clap::ArgMatches;
use sa_base::PackageName;
use sa_svg::{DEFAULT_WIDTH, MAX_WIDTH, MIN_WIDTH};

/// What `check` is asked for.
pub(crate) fn check<'a>(matches: &ArgMatches<'a>) -> Result<Request<'a>, Refusal<'a>>
    ensures { let rows = rows_of (found_of matches.now) in
        MatchResult result (λ r. check_of rows ≡ Ok (asked r)) (λ e. check_of rows ≡ Err (objected e)) }
{
    match judged(matches) {
        Ok((source, trace, package)) => Ok(Request::Check {
            source,
            trace,
            package,
        }),
        Err(refusal) => Err(refusal),
    }
}

/// What `page` is asked for.
pub(crate) fn page<'a>(matches: &ArgMatches<'a>) -> Result<Request<'a>, Refusal<'a>>
    ensures { let rows = rows_of (found_of matches.now) in
        MatchResult result (λ r. page_of rows ≡ Ok (asked r)) (λ e. page_of rows ≡ Err (objected e)) }
{
    match judged(matches) {
        Ok((source, trace, package)) => Ok(Request::Page {
            source,
            trace,
            package,
            output: one(matches, "output"),
        }),
        Err(refusal) => Err(refusal),
    }
}

// A source, a trace and a package. Only one of the two may be standard input.
fn judged<'a>(matches: &ArgMatches<'a>) -> Result<(&'a str, &'a str, PackageName), Refusal<'a>>
    ensures { let rows = rows_of (found_of matches.now) in MatchResult result
        (λ j. judged_of rows ≡ Ok (record { source = j.0.now; trace = j.1.now; level = j.2 }))
        (λ e. judged_of rows ≡ Err (objected e)) }
{
    let package = match package(matches) {
        Ok(package) => package,
        Err(refusal) => return Err(refusal),
    };
    let source = input(matches, "SOURCE");
    let trace = input(matches, "TRACE");
    if source == "-" && trace == "-" {
        return Err(Refusal::SameInput);
    }
    Ok((source, trace, package))
}

/// What `picture` is asked for.
pub(crate) fn picture<'a>(matches: &ArgMatches<'a>) -> Result<Request<'a>, Refusal<'a>>
    ensures { let rows = rows_of (found_of matches.now) in
        MatchResult result (λ r. picture_of rows ≡ Ok (asked r)) (λ e. picture_of rows ≡ Err (objected e)) }
{
    let from = match number_if(Setting::From, 0, u64::MAX, one(matches, "from")) {
        Ok(from) => from,
        Err(refusal) => return Err(refusal),
    };
    let to = match number_if(Setting::To, 0, u64::MAX, one(matches, "to")) {
        Ok(to) => to,
        Err(refusal) => return Err(refusal),
    };
    let width = match width(matches) {
        Ok(width) => width,
        Err(refusal) => return Err(refusal),
    };
    if !in_order(from, to) {
        return Err(Refusal::Backward);
    }
    Ok(Request::Picture {
        trace: input(matches, "TRACE"),
        from,
        to,
        width,
        output: one(matches, "output"),
    })
}

// How wide the picture is.
fn width<'a>(matches: &ArgMatches<'a>) -> Result<u64, Refusal<'a>>
    ensures { let rows = rows_of (found_of matches.now) in
        MatchResult result (λ n. width_of rows ≡ Ok n) (λ e. width_of rows ≡ Err (objected e)) }
{
    number(
        Setting::Width,
        MIN_WIDTH,
        MAX_WIDTH,
        DEFAULT_WIDTH,
        one(matches, "width"),
    )
}

// The last event is not before the first, where both are named.
fn in_order(from: Option<u64>, to: Option<u64>) -> bool
    ensures { result ≡ in_order from to }
{
    match (from, to) {
        (Some(from), Some(to)) => from <= to,
        _ => true,
    }
}

/// What `events` is asked for.
pub(crate) fn events<'a>(matches: &ArgMatches<'a>) -> Request<'a>
    ensures { asked result ≡ events_of (rows_of (found_of matches.now)) }
{
    Request::Events {
        trace: input(matches, "TRACE"),
        output: one(matches, "output"),
    }
}
