//! What holds of scripts, whichever they are: each contract is a law, and the bodies do nothing.
ghost use Rattle.sa_debug.specs.script.TextLaws.{ScriptsAreRead, ScriptsDiffer, RefusedLinesAreFirst, FirstLinesAreOne};

/// A text is read as the commands of which it is the script, and as nothing else; so no two lists of commands share a
/// script, and a text that is refused is the script of none.
pub fn scripts_are_read()
    ensures read { ScriptsAreRead }
    ensures differ { ScriptsDiffer }
{}

/// The line that is refused is the first that no script, of any number of lines, has after the lines before it, or the
/// first that is one too many; and there is no other such line.
pub fn refused_lines_are_first()
    ensures first { RefusedLinesAreFirst }
    ensures one { FirstLinesAreOne }
{}
