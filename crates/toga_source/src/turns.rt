// The turns, as runs of turns of one processor.
ghost use Rattle.std.specs.Prelude.{◌≡◌, ◌++◌, ◌<◌, ◌^◌, IfOk, OnOk};
ghost use Rattle.toga_source.specs.Runs.{joined, runs_of, with_turn};
ghost use Rattle.toga_source.specs.Show.{run_text, run_word, schedule_text, turns_text, with_numbers};

use sa_base::ProcNo;
use sa_text::print_number;
use std::alloc::{AllocError, Global};

/// Turns of one processor, one after another: from the turn of one number up to that of another.
#[derive(Clone, Copy)]
pub struct Run {
    /// The processor.
    pub processor: u16,
    /// The number of the first turn, from 0.
    pub from: usize,
    /// The number of the turn after the last.
    pub to: usize,
}

/// Appends the lines of the turns, if there are any, after an empty line.
#[tactic(auto, unfolding(crate::specs::Show::turns_text))]
pub(crate) fn push_turns(
    out: &mut Vec<u8>,
    alloc: Global,
    turns: &[ProcNo],
) -> Result<(), AllocError>
    ensures { OnOk result (out.new.items ≡ out.old.items ++ turns_text turns.now) }
{
    if turns.len() == 0 {
        return Ok(());
    }
    push_schedule(out, alloc, b"", turns)
}

/// Ends a line, and appends the lines of the turns, each after these bytes. Fails only if memory runs out.
pub fn push_schedule(
    out: &mut Vec<u8>,
    alloc: Global,
    indent: &[u8],
    turns: &[ProcNo],
) -> Result<(), AllocError>
    ensures { OnOk result (out.new.items ≡ out.old.items ++ schedule_text indent.now turns.now) }
{
    let runs = runs_of(alloc, turns)?;
    push_runs(out, indent, &runs)?;
    out.extend_from_slice(b"\n")
}

// The longest runs of equal turns.
fn runs_of(alloc: Global, turns: &[ProcNo]) -> Result<Vec<Run>, AllocError>
    ensures { IfOk result (λ runs. runs.items ≡ runs_of turns.now) }
{
    let mut runs = Vec::new(alloc);
    for (number, turn) in turns.iter().enumerate() {
        push_turn(&mut runs, number, *turn)?;
    }
    Ok(runs)
}

// Makes the last run longer, or begins another.
fn push_turn(runs: &mut Vec<Run>, number: usize, turn: ProcNo) -> Result<(), AllocError>
    requires { number < 2 ^ 63 }
    ensures { OnOk result (runs.new.items ≡ with_turn runs.old.items number turn) }
{
    let last = runs.last().copied();
    runs.truncate(runs.len().saturating_sub(1));
    push_joined(runs, last, number, turn)
}

// Appends the last run of others, made longer by the turn of this number, or that run and one of the turn alone.
fn push_joined(
    runs: &mut Vec<Run>,
    last: Option<Run>,
    number: usize,
    turn: ProcNo,
) -> Result<(), AllocError>
    requires { number < 2 ^ 63 }
    ensures { OnOk result (runs.new.items ≡ runs.old.items ++ joined last number turn) }
{
    let mut run = Run {
        processor: turn.0,
        from: number,
        to: number + 1,
    };
    if let Some(last) = last {
        if last.processor == turn.0 {
            run.from = last.from;
        } else {
            runs.push(last)?;
        }
    }
    runs.push(run)?;
    Ok(())
}

// Appends the runs, twelve to a line.
fn push_runs(out: &mut Vec<u8>, indent: &[u8], runs: &[Run]) -> Result<(), AllocError>
    ensures { OnOk result (out.new.items ≡ out.old.items ++ with_numbers (run_text indent.now) runs.now) }
{
    for (number, run) in runs.iter().enumerate() {
        push_run(out, indent, number, *run)?;
    }
    Ok(())
}

// Appends the run of this number, and before it what begins a line or a word.
fn push_run(out: &mut Vec<u8>, indent: &[u8], number: usize, run: Run) -> Result<(), AllocError>
    ensures { OnOk result (out.new.items ≡ out.old.items ++ run_text indent.now number run) }
{
    if number % 12 == 0 {
        out.extend_from_slice(b"\n")?;
        out.extend_from_slice(indent)?;
        out.extend_from_slice(b"turns ")?;
    } else {
        out.extend_from_slice(b" ")?;
    }
    push_run_word(out, run)
}

// Appends a run as a word.
fn push_run_word(out: &mut Vec<u8>, run: Run) -> Result<(), AllocError>
    ensures { OnOk result (out.new.items ≡ out.old.items ++ run_word run) }
{
    print_number(u64::from(run.processor), out)?;
    let times = run.to.saturating_sub(run.from);
    if times == 1 {
        return Ok(());
    }
    out.extend_from_slice(b"*")?;
    print_number(times as u64, out)
}
