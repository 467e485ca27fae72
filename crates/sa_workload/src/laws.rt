// What holds of workload texts, whatever the bytes: each contract is a law, and the bodies do nothing.
ghost use Rattle.sa_workload.specs.TextLaws.{AllAreOfThree, FirstsAreOfOne};
ghost use Rattle.sa_workload.specs.Laws.{BadOnce, FirstWrongWords, LastCauseIsNoEnd, TextOrBad, TextsAreNotBad, TextsDiffer};
ghost use Rattle.sa_workload.specs.TextLaws.{LinesAreTheWorkload, LinesDiffer, WordsAreTheWorkload, WordsMakeTheText, TextsArePrinted, Texts1AreNotBad, Bad1Once, Text1OrBad};

/// The lines and words of a text are those of its workload, no other bytes have them, and each byte is a
/// printed ASCII character or a line feed.
pub fn texts_are_lines_of_words()
    ensures lines { LinesAreTheWorkload }
    ensures words { WordsAreTheWorkload }
    ensures only { WordsMakeTheText }
    ensures printed { TextsArePrinted }
{}

/// Two workloads never have the same lines, and never share a text.
pub fn texts_differ()
    ensures lines { LinesDiffer }
    ensures texts { TextsDiffer }
{}

/// A text is never bad, and bytes are bad in one line at most, with one cause; the same by version 1 alone.
pub fn texts_are_bad_once()
    ensures text { TextsAreNotBad }
    ensures once { BadOnce }
    ensures text1 { Texts1AreNotBad }
    ensures once1 { Bad1Once }
{}

/// Bytes are the text of some workload, or bad; the same by version 1 alone.
pub fn text_or_bad()
    ensures any { TextOrBad }
    ensures version1 { Text1OrBad }
{}

/// Where the table of lines says that a word is the first wrong one, some text goes on with the words
/// before it, and none with that word too; the same by version 1 alone. Lines whose numbers have to be
/// greater than those of the line before are excepted.
pub fn first_wrong_words_are_first()
    ensures any { FirstWrongWords 3 }
    ensures version1 { FirstWrongWords 1 }
{}

/// Where all words of a line are right and yet no text goes on with it, it is an instruction other than
/// `end` in the last place of its program; the same by version 1 alone.
pub fn last_causes_are_no_end()
    ensures any { LastCauseIsNoEnd 3 }
    ensures version1 { LastCauseIsNoEnd 1 }
{}

/// Of three versions are all workloads, and of one version those that are written in the first.
pub fn versions_are_counted()
    ensures any { AllAreOfThree }
    ensures version1 { FirstsAreOfOne }
{}
