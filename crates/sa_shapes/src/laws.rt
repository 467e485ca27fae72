//! What holds of every picture. No function here does anything.
ghost use Rattle.sa_shapes.specs.Laws.{EventsHavePlaces, LanesAreThere, MarksAreCounted, RecordsHaveMarks, StretchesAreConstant, StretchesEndInChanges, StretchesShowTheTrace, TracksAreFilled};

/// The stretches of a track fill the window, so no two overlap and each event that is drawn has its place; each shows what its
/// track shows there, nothing changes inside of it, and the item at its end makes the track show another thing.
pub fn tracks_are_filled()
    ensures filled { TracksAreFilled }
    ensures places { EventsHavePlaces }
    ensures shown { StretchesShowTheTrace }
    ensures constant { StretchesAreConstant }
    ensures ends { StretchesEndInChanges }
{}

/// Each record of an event that is drawn and that has a mark has it, above its lane and at its event, and there are no other marks.
pub fn records_have_marks()
    ensures there { RecordsHaveMarks }
    ensures counted { MarksAreCounted }
{}

/// Each lane that an item is on is in the picture.
pub fn lanes_are_there()
    ensures { LanesAreThere }
{}
