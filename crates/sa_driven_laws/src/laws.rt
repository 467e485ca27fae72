//! What the driven user level owes to the history of a run. No function here does anything.
ghost use Rattle.sa_driven_laws.specs.Laws.{DrivenLevelKeepsItsLaws};

/// The driven user level meets what every user level owes to the history, with the rules of any user level: how its value
/// and the contexts of its space's activations stand beside what is read holds at the opening and is kept by every reply,
/// done or not, run of local instructions, stop, block, return and upcall; each record that it adds is a step of the
/// abstract machine, and each of its events is legal.
pub fn driven_level_keeps_its_laws()
    ensures { DrivenLevelKeepsItsLaws }
{}
