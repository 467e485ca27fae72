// What holds of lines, pieces and numbers, whatever the text: each contract is a law, and the bodies do
// nothing.
ghost use Rattle.sa_text.specs.Laws.{LinesAreTheText, LinesFollowLineFeeds, LinesEndAtLineFeeds, RestIsLine, PrintedLinesAreTheLines, PlacesHoldLines, LinesLieWithin, NumbersRiseByOne, PiecesAreTheLine, PiecesEndAtSpaces, RestIsPiece, SpacedWordsAreThePieces, NumbersHaveOneSpelling, SpellingsDiffer, SpellingsAreOnePiece};

/// The lines of a text, with their line feeds, are the text, and no other lines are.
pub fn lines_are_the_text()
    ensures { LinesAreTheText }
{}

/// A line feed ends a line, and the rest after the last one is a line exactly where it is not empty.
pub fn lines_end_at_line_feeds()
    ensures follow { LinesFollowLineFeeds }
    ensures end { LinesEndAtLineFeeds }
    ensures rest { RestIsLine }
    ensures printed { PrintedLinesAreTheLines }
{}

/// The places of the lines hold the lines, lie within the text and are numbered from 1 on.
pub fn lines_stand_in_order()
    ensures hold { PlacesHoldLines }
    ensures within { LinesLieWithin }
    ensures numbers { NumbersRiseByOne }
{}

/// The pieces of a line, with a space between each two, are the line, and no other pieces are.
pub fn pieces_are_the_line()
    ensures { PiecesAreTheLine }
{}

/// A space ends a piece, and the rest after the last one is a piece, also where it is empty.
pub fn pieces_end_at_spaces()
    ensures end { PiecesEndAtSpaces }
    ensures rest { RestIsPiece }
    ensures spaced { SpacedWordsAreThePieces }
{}

/// A number of 64 bits has one spelling, no other number has it, and it is one piece of one line.
pub fn numbers_have_one_spelling()
    ensures one { NumbersHaveOneSpelling }
    ensures differ { SpellingsDiffer }
    ensures piece { SpellingsAreOnePiece }
{}
