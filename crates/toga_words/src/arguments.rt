// The arguments that commands share.
ghost use Rattle.std.specs.Prelude.{◌≡◌, false};
ghost use Rattle.clap.specs.Walk.{rule_of};
ghost use Rattle.toga_words.specs.Program as program;

use clap::{Arg, ArgAction};
use std::alloc::Global;

// An input that has to be named.
fn input<'a>(alloc: Global, id: &'a str, help: &'a str) -> Arg<'a>
    ensures rule { rule_of result ≡ program.input id.entry.now }
    ensures local { result.global ≡ false }
{
    Arg::new(alloc, id).value_name(id).required(true).help(help)
}

/// An option of this name, with the name of its value.
pub(crate) fn option<'a>(alloc: Global, id: &'a str, value: &'a str, help: &'a str) -> Arg<'a>
    ensures rule { rule_of result ≡ program.option id.entry.now }
    ensures local { result.global ≡ false }
{
    Arg::new(alloc, id)
        .long(id)
        .value_name(value)
        .action(ArgAction::Set)
        .help(help)
}

/// A source or a workload text.
pub(crate) fn source<'a>(alloc: Global) -> Arg<'a>
    ensures rule { rule_of result ≡ program.source }
    ensures local { result.global ≡ false }
{
    input(
        alloc,
        "SOURCE",
        "A source or a workload text; - for standard input",
    )
}

/// A trace text.
pub(crate) fn trace<'a>(alloc: Global) -> Arg<'a>
    ensures rule { rule_of result ≡ program.trace }
    ensures local { result.global ≡ false }
{
    input(alloc, "TRACE", "A trace text; - for standard input")
}

/// The package in each space.
pub(crate) fn package<'a>(alloc: Global) -> Arg<'a>
    ensures rule { rule_of result ≡ program.which }
    ensures local { result.global ≡ false }
{
    option(
        alloc,
        "package",
        "PACKAGE",
        "Which thread package [default: fast] [possible values: fast, prio]",
    )
    .short('p')
}

/// The order of turns.
pub(crate) fn schedule<'a>(alloc: Global) -> Arg<'a>
    ensures rule { rule_of result ≡ program.schedule }
    ensures local { result.global ≡ false }
{
    option(
        alloc,
        "schedule",
        "ORDER",
        "Whose turn each event is: given, rr, seed:N or hold:P:N [default: given]",
    )
    .short('s')
}

/// The most events of a run.
pub(crate) fn budget<'a>(alloc: Global) -> Arg<'a>
    ensures rule { rule_of result ≡ program.budget }
    ensures local { result.global ≡ false }
{
    option(
        alloc,
        "budget",
        "EVENTS",
        "The run is ended after so many events [default: 100000]",
    )
    .short('b')
}

/// Where the text goes.
pub(crate) fn output<'a>(alloc: Global) -> Arg<'a>
    ensures rule { rule_of result ≡ program.output }
    ensures local { result.global ≡ false }
{
    option(
        alloc,
        "output",
        "FILE",
        "Where to write, in place of standard output",
    )
    .short('o')
}

/// The end whose schedule is asked for.
pub(crate) fn give<'a>(alloc: Global) -> Arg<'a>
    ensures rule { rule_of result ≡ program.give }
    ensures local { result.global ≡ false }
{
    option(
        alloc,
        "give",
        "END",
        "Write the source with a schedule to: alldone, stuck, endless",
    )
    .short('g')
}

/// A word to be explained, or several.
pub(crate) fn word<'a>(alloc: Global) -> Arg<'a>
    ensures rule { rule_of result ≡ program.words }
    ensures local { result.global ≡ false }
{
    Arg::new(alloc, "WORD")
        .value_name("WORD")
        .num_args(1..)
        .help("Such as join, told, U1 or why 2; without it all words")
}
