// What holds of every text: each contract is a law, and the body does nothing.
ghost use Rattle.sa_cells.specs.Laws.{NamesArePlain, TextsArePlain, WordsArePlain};

/// The names and texts of cells and the words of records hold no sign of markup.
pub fn texts_are_plain()
    ensures names { NamesArePlain }
    ensures texts { TextsArePlain }
    ensures words { WordsArePlain }
{}
