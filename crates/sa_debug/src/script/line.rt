// What a line of a script says.
ghost use Rattle.std.specs.Prelude.{◌≡◌};
ghost use Rattle.sa_text.specs.Line.{IsWithin, text_of_line};
ghost use Rattle.sa_trace.specs.Pieces.{with_rest};
ghost use Rattle.sa_debug.specs.script.Line.{command_at, said_by, line_in, cause_after};

use crate::script::MAX_LINES;
use crate::script::command::DebugCommand;
use crate::script::fields::{read_point, read_proc, read_thread, read_turns};
use crate::script::word::{Word, read_word};
use sa_base::Cause;
use sa_spaces::Workload;
use sa_text::{Line, Pieces};
use sa_trace::words::{finish, next, read_pieces};

/// The command of the line, `None` where it is the last line; or the first thing that is wrong with it.
pub(crate) fn read_line(
    w: &Workload,
    text: &[u8],
    line: Line,
) -> Result<Option<DebugCommand>, Cause>
    requires { IsWithin text.now line }
    ensures { result ≡ line_in w.now line.number (text_of_line text.now line) }
{
    let mut words = read_pieces(text, line)?;
    if line.number > MAX_LINES {
        return Err(Cause::TooMany);
    }
    read_words(w, &mut words)
}

// What the pieces of a line say.
fn read_words(w: &Workload, words: &mut Pieces) -> Result<Option<DebugCommand>, Cause>
    ensures { result ≡ said_by w.now words.old }
{
    let piece = next(words)?;
    let word = read_word(piece)?;
    let command = read_command(w, word, words)?;
    finish(words)?;
    Ok(command)
}

// The command of this word.
fn read_command(w: &Workload, word: Word, words: &mut Pieces) -> Result<Option<DebugCommand>, Cause>
    ensures { with_rest result words.new ≡ command_at w.now word words.old }
{
    let command = match word {
        Word::Break => DebugCommand::Break(read_point(w, words)?),
        Word::Clear => DebugCommand::Clear(read_point(w, words)?),
        Word::Halt => DebugCommand::Halt(read_proc(w, words)?),
        Word::Go => DebugCommand::Go(read_proc(w, words)?),
        Word::Step => DebugCommand::Step(read_proc(w, words)?),
        Word::Run => DebugCommand::Run(read_turns(words)?),
        Word::Show => {
            let named = read_thread(w, words)?;
            DebugCommand::Show(named.space, named.thread)
        }
        Word::Quit => return Ok(None),
    };
    Ok(Some(command))
}

/// Why the line may not follow the last one.
pub(crate) fn cause_after(text: &[u8], line: Line) -> Cause
    requires { IsWithin text.now line }
    ensures { result ≡ cause_after line.number (text_of_line text.now line) }
{
    match read_pieces(text, line) {
        Err(cause) => cause,
        Ok(_) => {
            if line.number > MAX_LINES {
                Cause::TooMany
            } else {
                Cause::BadWord
            }
        }
    }
}
