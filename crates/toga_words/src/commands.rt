// The commands, as clap reads them.
ghost use Rattle.std.specs.Prelude.{◌≡◌, IfOk, false};
ghost use Rattle.clap.specs.Simple.{app_of};
ghost use Rattle.toga_words.specs.Program as program;
ghost use Rattle.toga_words.specs.Local.{IsLocalApp};

use crate::arguments::{budget, give, option, output, package, schedule, source, trace, word};
use clap::Command;
use std::alloc::{AllocError, Global};

/// The program with its commands.
pub(crate) fn program<'a>(alloc: Global) -> Result<Command<'a>, AllocError>
    ensures { IfOk result (λ c. app_of c ≡ program.program) }
{
    bare(alloc)?
        .subcommand(run(alloc)?)?
        .subcommand(explore(alloc)?)?
        .subcommand(check(alloc)?)?
        .subcommand(vp(alloc)?)?
        .subcommand(compile(alloc)?)?
        .subcommand(show(alloc)?)?
        .subcommand(picture(alloc)?)?
        .subcommand(page(alloc)?)?
        .subcommand(events(alloc)?)?
        .subcommand(explain(alloc)?)
}

// The program with no command.
fn bare<'a>(alloc: Global) -> Result<Command<'a>, AllocError>
    ensures { IfOk result (IsLocalApp program.bare) }
{
    let bare = Command::new(alloc, "togaslate")
        .bin_name("togaslate")?
        .version("1.0.0-dev")
        .about("Run threads on scheduler activations, and see what happens")
        .no_binary_name(true)
        .subcommand_required(true)
        .arg_required_else_help(true);
    Ok(bare)
}

fn run<'a>(alloc: Global) -> Result<Command<'a>, AllocError>
    ensures { IfOk result (IsLocalApp program.run) }
{
    Command::new(alloc, "run")
        .about("Run a source, and say how it ended")
        .arg(source(alloc))?
        .arg(schedule(alloc))?
        .arg(package(alloc))?
        .arg(budget(alloc))?
        .arg(option(alloc, "trace", "FILE", "Write the trace too"))?
        .arg(option(
            alloc,
            "page",
            "FILE",
            "Write a page to step through the run too, as HTML",
        ))?
        .arg(option(
            alloc,
            "picture",
            "FILE",
            "Write a picture of the run too, as SVG",
        ))
}

fn explore<'a>(alloc: Global) -> Result<Command<'a>, AllocError>
    ensures { IfOk result (IsLocalApp program.explore) }
{
    Command::new(alloc, "explore")
        .about("Try every order of turns: can it get stuck, and how")
        .arg(source(alloc))?
        .arg(package(alloc))?
        .arg(option(
            alloc,
            "states",
            "STATES",
            "How many states are kept at most [default: 1000000]",
        ))?
        .arg(give(alloc))?
        .arg(output(alloc))
}

fn check<'a>(alloc: Global) -> Result<Command<'a>, AllocError>
    ensures { IfOk result (IsLocalApp program.check) }
{
    Command::new(alloc, "check")
        .about("Judge a trace: legal, or the first event that breaks a rule")
        .arg(source(alloc))?
        .arg(trace(alloc))?
        .arg(package(alloc))
}

fn vp<'a>(alloc: Global) -> Result<Command<'a>, AllocError>
    ensures { IfOk result (IsLocalApp program.vp) }
{
    Command::new(alloc, "vp")
        .about("Run it on virtual processors too, and say what is lost there")
        .arg(source(alloc))?
        .arg(schedule(alloc))?
        .arg(budget(alloc))?
        .arg(option(
            alloc,
            "trace",
            "FILE",
            "Write the trace of the virtual processors too",
        ))
}

fn compile<'a>(alloc: Global) -> Result<Command<'a>, AllocError>
    ensures { IfOk result (IsLocalApp program.compile) }
{
    Command::new(alloc, "compile")
        .about("Write a source as a workload text, which sa reads")
        .arg(source(alloc))?
        .arg(output(alloc))
}

fn show<'a>(alloc: Global) -> Result<Command<'a>, AllocError>
    ensures { IfOk result (IsLocalApp program.show) }
{
    Command::new(alloc, "show")
        .about("Write a source or a workload text as a source, laid out")
        .arg(source(alloc))?
        .arg(output(alloc))
}

fn picture<'a>(alloc: Global) -> Result<Command<'a>, AllocError>
    ensures { IfOk result (IsLocalApp program.picture) }
{
    Command::new(alloc, "picture")
        .about("Draw a trace, as SVG")
        .arg(trace(alloc))?
        .arg(option(alloc, "from", "EVENT", "The first event that is drawn"))?
        .arg(option(alloc, "to", "EVENT", "The last event that is drawn"))?
        .arg(option(
            alloc,
            "width",
            "PIXELS",
            "How wide the picture is [default: 838]",
        ))?
        .arg(output(alloc))
}

fn page<'a>(alloc: Global) -> Result<Command<'a>, AllocError>
    ensures { IfOk result (IsLocalApp program.page) }
{
    Command::new(alloc, "page")
        .about("Write a page to step through a trace, as HTML")
        .arg(source(alloc))?
        .arg(trace(alloc))?
        .arg(package(alloc))?
        .arg(output(alloc))
}

fn events<'a>(alloc: Global) -> Result<Command<'a>, AllocError>
    ensures { IfOk result (IsLocalApp program.events) }
{
    Command::new(alloc, "events")
        .about("Write a trace for viewers such as Perfetto, as JSON")
        .arg(trace(alloc))?
        .arg(output(alloc))
}

fn explain<'a>(alloc: Global) -> Result<Command<'a>, AllocError>
    ensures { IfOk result (IsLocalApp program.explain) }
{
    Command::new(alloc, "explain")
        .about("Explain a word: an instruction, a record, a rule, why 2")
        .arg(word(alloc))
}
