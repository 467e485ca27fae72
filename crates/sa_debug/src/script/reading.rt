ghost use Rattle.std.specs.Prelude.{◌≡◌, map};
ghost use Rattle.std.specs.Result.{result_err};
ghost use Rattle.sa_text.specs.Line.{text_of_line};
ghost use Rattle.sa_debug.specs.script.Reading.{script_of, IsReading};
ghost use Rattle.sa_trace.specs.Reading.{bad_after};
ghost use Rattle.sa_debug.specs.script.Line.{cause_after};

use crate::script::Script;
use crate::script::line::{cause_after, read_line};
use sa_base::{Bad, Cause, Unread};
use sa_spaces::Workload;
use sa_text::Lines;
use std::alloc::Global;

/// The commands of which these bytes are the script, for a session of this workload.
///
/// `Bad` exactly where they are no script, with the first line that no script has after the lines before it, and the
/// first cause that applies to that line.
pub fn read_script(alloc: Global, bytes: &[u8], w: &Workload) -> Result<Script, Unread>
    ensures { IsReading (script_of w.now bytes.now) result }
{
    let mut lines = Lines::new(bytes);
    let mut commands = Vec::new(alloc);
    while let Some(line) = lines.next() {
        match read_line(w, bytes, line) {
            Err(cause) => return Err(Unread::Bad(Bad::new(line.number, cause))),
            Ok(Some(command)) => commands.push(command)?,
            Ok(None) => {
                return match check_end(bytes, &mut lines) {
                    Err(bad) => Err(Unread::Bad(bad)),
                    Ok(()) => Ok(Script { commands }),
                };
            }
        }
    }
    Err(Unread::Bad(Bad::new(lines.number(), Cause::Missing)))
}

// That no line is left.
fn check_end(text: &[u8], lines: &mut Lines) -> Result<(), Bad>
    requires { lines.old.text ≡ text.now }
    ensures { result_err result
        ≡ bad_after cause_after lines.old.number (map (text_of_line text.now) lines.old.left) }
{
    match lines.next() {
        None => Ok(()),
        Some(line) => Err(Bad::new(line.number, cause_after(text, line))),
    }
}
