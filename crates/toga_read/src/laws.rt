// What holds of every source that is read: each contract is a law, and the bodies do nothing.
ghost use Rattle.toga_read.specs.Laws.{NamesFit};

/// The names of a source fit its workload: each space has a name for each thing that it declares, and each label is at a place of its
/// program.
pub fn names_fit()
    ensures { NamesFit }
{}
