// What holds of records and of texts, whichever they are: each contract is a law, and the bodies do nothing.
ghost use Rattle.sa_trace.specs.FieldLaws.{PartsMakeTheRecord, RecordsHaveTheParts, FittingPartsMakeRecords, WordsDiffer};
ghost use Rattle.sa_trace.specs.TextLaws.{TextsAreRead, TextsDiffer, RefusedLinesAreFirst, FirstLinesAreOne};

/// A record and its kind and fields undo each other, and a kind with fields that fit it is a record's.
pub fn parts_are_the_record()
    ensures made { PartsMakeTheRecord }
    ensures parts { RecordsHaveTheParts }
    ensures fit { FittingPartsMakeRecords }
{}

/// No two kinds have one word.
pub fn words_differ()
    ensures { WordsDiffer }
{}

/// A text is read as the trace, end and number of events of which it is the text, and as nothing else; so
/// no two of them share a text, and a text that is refused is the text of none.
pub fn texts_are_read()
    ensures read { TextsAreRead }
    ensures differ { TextsDiffer }
{}

/// The line that is refused is the first that no accepted text has after the lines before it, and there
/// is no other such line.
pub fn refused_lines_are_first()
    ensures first { RefusedLinesAreFirst }
    ensures one { FirstLinesAreOne }
{}
