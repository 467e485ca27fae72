ghost use Rattle.std.specs.Prelude.{◌≡◌, Some, None};
ghost use Rattle.std.specs.Option.{ForSome};
ghost use Rattle.sa_command.specs.declared.command.Command.TheVariants.{Threads};
ghost use Rattle.sa_command.specs.Commands.{command_of};
ghost use Rattle.sa_command.specs.Ranges.{IsInRange};
ghost use Rattle.sa_cli.specs.Commands.{SearchesNothing};
ghost use Rattle.sa_cli.specs.Shared.{limits_of};
ghost use Rattle.sa_cli.specs.Streams.{streams, world_by};
ghost use Rattle.sa_cli.specs.TopCall.{DoesTheCommand, DoesTheProgram, AsksForNoSearch};

use crate::commands::{check_texts, migrate, run_generated, run_text};
use crate::debug::debug_texts;
use crate::explore::explore_text;
use crate::kernel::run_by_replies;
use crate::outcome::{Outcome, Status};
use crate::shared::run_shared;
use crate::vp::run_virtual;
use sa_command::laws::commands_are_in_range;
use sa_command::{Command, read_words};
use sa_explore::Progress;
use sa_io::{Sink, Source, Words};
use sa_workers::{FreeGate, Gate, Limits};
use std::alloc::Global;
use std::env::Args;
use std::io;
use std::sync::Wait;
use std::thread::Threads;

/// The program: does what its arguments ask for, the first of which is its name. Under `explore` alone it is told how far the search
/// has come. Under `threads` host threads wait for locks, so what is promised there holds if the call returns.
pub fn run_program<S: Source, K: Sink, P: Progress, R: Threads + Wait + Sync>(
    rt: &R,
    alloc: Global,
    args: io::Result<Args>,
    source: &mut S,
    sink: &mut K,
    progress: &mut P,
) -> Outcome
    ensures does { DoesTheProgram (world_by S.left K.taken S.faults K.faults) args
        (streams source.old sink.old) (streams source.new sink.new) result }
    ensures untold { AsksForNoSearch args → progress.new ≡ progress.old }
{
    match Words::read(alloc, args) {
        Ok(words) => run_words(rt, alloc, &words, source, sink, progress, &FreeGate),
        Err(why) => Outcome::nothing(Status::from(why)),
    }
}

/// Does the command of the words: `threads` with this gate, or another. Under `explore` alone it is told how far the search has come.
pub fn run_words<S: Source, K: Sink, P: Progress, G: Gate, R: Threads + Wait + Sync>(
    rt: &R,
    alloc: Global,
    words: &Words,
    source: &mut S,
    sink: &mut K,
    progress: &mut P,
    gate: &G,
) -> Outcome
    ensures does { DoesTheCommand (world_by S.left K.taken S.faults K.faults) (command_of words.now)
        (streams source.old sink.old) (streams source.new sink.new) result }
    ensures untold { SearchesNothing (command_of words.now) → progress.new ≡ progress.old }
{
    commands_are_in_range();
    match read_words(words) {
        Some(Command::Threads { budget, burst }) => {
            let limits = Limits { budget, burst };
            run_threads(rt, alloc, limits, source, sink, gate)
        }
        command => run_one(alloc, command, source, sink, progress),
    }
}

/// Does the command `threads` within these limits: a host thread for each processor runs the workload, and passes the gate
/// before each of its entries. These threads wait for locks, so what is promised holds if the call returns.
pub fn run_threads<S: Source, K: Sink, G: Gate, R: Threads + Wait + Sync>(
    rt: &R,
    alloc: Global,
    limits: Limits,
    source: &mut S,
    sink: &mut K,
    gate: &G,
) -> Outcome
    requires { IsInRange (Threads limits.budget limits.burst) }
    ensures { DoesTheCommand (world_by S.left K.taken S.faults K.faults) (Some (Threads limits.budget limits.burst))
        (streams source.old sink.old) (streams source.new sink.new) result }
{
    run_shared(rt, alloc, limits, source, sink, gate)
}

/// Does the command, which is not `threads`: it runs a workload of the source or a generated one and writes its trace to the
/// sink, writes a workload of the source anew, judges a trace of the source, debugs a workload of the source by a script, runs
/// one by the replies of the source, or goes through every order of turns of a workload of the source, and is told then alone how far
/// that has come. It always returns.
pub fn run_one<S: Source, K: Sink, P: Progress>(
    alloc: Global,
    command: Option<Command>,
    source: &mut S,
    sink: &mut K,
    progress: &mut P,
) -> Outcome
    requires range { ForSome command IsInRange }
    requires here { limits_of command ≡ None }
    ensures does { DoesTheCommand (world_by S.left K.taken S.faults K.faults) command
        (streams source.old sink.old) (streams source.new sink.new) result }
    ensures untold { SearchesNothing command → progress.new ≡ progress.old }
{
    match command {
        None => Outcome::nothing(Status::Usage),
        Some(
            Command::Run {
                schedule,
                budget,
                user_level,
            },
        ) => run_text(alloc, schedule, budget, user_level, source, sink),
        Some(Command::Threads { .. }) => unreachable!(),
        Some(Command::Load { number, budget }) => run_generated(alloc, number, budget, sink),
        Some(Command::Migrate { slice }) => Outcome::nothing(migrate(alloc, slice, source, sink)),
        Some(Command::Check { rules }) => {
            Outcome::nothing(check_texts(alloc, rules, source, sink))
        }
        Some(Command::Vp { schedule, budget }) => {
            run_virtual(alloc, schedule, budget, source, sink)
        }
        Some(Command::Debug { budget }) => debug_texts(alloc, budget, source, sink),
        Some(
            Command::Explore {
                states,
                user_level,
                give,
            },
        ) => Outcome::nothing(explore_text(
            alloc, states, user_level, give, source, sink, progress,
        )),
        Some(Command::Kernel { schedule, budget }) => {
            run_by_replies(alloc, schedule, budget, source, sink)
        }
    }
}
