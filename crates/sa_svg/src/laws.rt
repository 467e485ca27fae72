//! What holds of every text of a picture. No function here does anything.
ghost use Rattle.sa_svg.specs.Laws.{LinesArePlain};

/// The lines of a trace, all that a picture has from its input but numbers, hold no sign of markup.
pub fn lines_are_plain()
    ensures { LinesArePlain }
{}
