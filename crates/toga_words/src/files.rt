// The requests that only write a text anew, and `explain`.
ghost use Rattle.std.specs.Prelude.{◌≡◌, IfOk};
ghost use Rattle.clap.specs.Matches.{found_of};
ghost use Rattle.clap.specs.Walk.{rows_of};
ghost use Rattle.toga_words.specs.Asked.{asked};
ghost use Rattle.toga_words.specs.Requests.{compile_of, show_of, explain_of};

use crate::request::Request;
use crate::value::{all, input, one};
use clap::ArgMatches;
use std::alloc::{AllocError, Global};

/// What `compile` is asked for.
pub(crate) fn compile<'a>(matches: &ArgMatches<'a>) -> Request<'a>
    ensures { asked result ≡ compile_of (rows_of (found_of matches.now)) }
{
    Request::Compile {
        source: input(matches, "SOURCE"),
        output: one(matches, "output"),
    }
}

/// What `show` is asked for.
pub(crate) fn show<'a>(matches: &ArgMatches<'a>) -> Request<'a>
    ensures { asked result ≡ show_of (rows_of (found_of matches.now)) }
{
    Request::Show {
        source: input(matches, "SOURCE"),
        output: one(matches, "output"),
    }
}

/// What `explain` is asked for.
pub(crate) fn explain<'a>(
    alloc: Global,
    matches: &ArgMatches<'a>,
) -> Result<Request<'a>, AllocError>
    ensures { IfOk result (λ r. asked r ≡ explain_of (rows_of (found_of matches.now))) }
{
    let words = all(alloc, matches, "WORD")?;
    Ok(Request::Explain { words })
}
