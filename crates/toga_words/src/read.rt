// From words to what is asked for.
ghost use Rattle.std.specs.Prelude.{◌≡◌, map, string_bytes, IfOk};
ghost use Rattle.clap.specs.Matches.{found_of};
ghost use Rattle.clap.specs.Simple.{subcommand_rows_of};
ghost use Rattle.clap.specs.Values.{kind_of};
ghost use Rattle.clap.specs.Walk.{rows_of};
ghost use Rattle.toga_words.specs.Requests.{plain_of, request_of};
ghost use Rattle.toga_words.specs.Said.{Asks, AsksBy, IsAnswered, IsSaid, IsTold, status_of};

use crate::commands::program;
use crate::errors::text_of;
use crate::files::{compile, explain, show};
use crate::refusal::Refusal;
use crate::request::Request;
use crate::run::{explore, run, vp};
use crate::traces::{check, events, page, picture};
use clap::error::ErrorKind;
use clap::{ArgMatches, Error};
use std::alloc::{AllocError, Global};

/// What words say: a request, or a text in place of it, for standard output where the exit status is 0, else for standard error.
#[derive(Drop)]
pub enum Said<'a> {
    Asked(Request<'a>),
    Text { text: Vec<u8>, status: u8 },
}

/// What these words say, which are those after the program's name.
///
/// Fails only where memory runs out.
pub fn read_words<'a>(alloc: Global, words: &'a [String]) -> Result<Said<'a>, AllocError>
    ensures { IfOk result (IsSaid (map string_bytes words.entry.now)) }
{
    match program(alloc)?.try_get_matches_from(words) {
        Ok(matches) => asked_by(alloc, &matches),
        Err(error) => said_of(alloc, &error),
    }
}

// What is said where clap has matches.
fn asked_by<'a>(alloc: Global, matches: &ArgMatches<'a>) -> Result<Said<'a>, AllocError>
    ensures { IfOk result (IsAnswered (subcommand_rows_of matches.now)) }
{
    match request_of(alloc, matches)? {
        Ok(request) => Ok(Said::Asked(request)),
        Err(refusal) => {
            let text = text_of(alloc, refusal)?;
            Ok(Said::Text { text, status: 1 })
        }
    }
}

// What clap says, where it has no matches.
fn said_of<'a>(alloc: Global, error: &Error) -> Result<Said<'a>, AllocError>
    ensures { IfOk result (IsTold (kind_of error.now)) }
{
    let kind = error.kind();
    if matches!(kind, ErrorKind::OutOfMemory) {
        return Err(AllocError);
    }
    let text = format!(in alloc; "{error}")?.into_bytes();
    Ok(Said::Text {
        text,
        status: status_of(kind),
    })
}

// The exit status of what clap says: help and the version are what was asked for.
fn status_of(kind: ErrorKind) -> u8
    ensures { result ≡ status_of kind }
{
    match kind {
        ErrorKind::DisplayHelp | ErrorKind::DisplayVersion => 0,
        _ => 1,
    }
}

// What the matches ask for, or why they ask for nothing.
fn request_of<'a>(
    alloc: Global,
    matches: &ArgMatches<'a>,
) -> Result<Result<Request<'a>, Refusal<'a>>, AllocError>
    ensures { IfOk result (AsksBy (subcommand_rows_of matches.now)) }
{
    match matches.subcommand() {
        Some((name, given)) => request_by(alloc, name, given),
        None => Err(AllocError),
    }
}

// What the command of this name is asked for.
fn request_by<'a>(
    alloc: Global,
    name: &str,
    given: &ArgMatches<'a>,
) -> Result<Result<Request<'a>, Refusal<'a>>, AllocError>
    ensures { IfOk result (Asks (request_of name.now (rows_of (found_of given.now)))) }
{
    match name {
        "run" => Ok(run(given)),
        "explore" => Ok(explore(given)),
        "check" => Ok(check(given)),
        "vp" => Ok(vp(given)),
        "picture" => Ok(picture(given)),
        "page" => Ok(page(given)),
        _ => plain_request(alloc, name, given),
    }
}

// The same, of the commands that refuse nothing.
fn plain_request<'a>(
    alloc: Global,
    name: &str,
    given: &ArgMatches<'a>,
) -> Result<Result<Request<'a>, Refusal<'a>>, AllocError>
    ensures { IfOk result (Asks (plain_of name.now (rows_of (found_of given.now)))) }
{
    match name {
        "compile" => Ok(Ok(compile(given))),
        "show" => Ok(Ok(show(given))),
        "events" => Ok(Ok(events(given))),
        _ => Ok(Ok(explain(alloc, given)?)),
    }
}
