//! What the package with thread priorities owes to the history of a run. No function here does anything.
ghost use Rattle.sa_prio_laws.specs.Laws.{PrioThreadsKeepsItsLaws};

/// The package with thread priorities meets what every user level owes to the history, with its own rules: how its value
/// and the contexts of its space's activations stand beside what is read holds at the opening and is kept by every step,
/// run of local instructions, stop, block, return and upcall; each record that it adds is a step of the abstract machine;
/// and by the table of steps, demand, the pairs that are served, the lock of the one list and its order by rank each of its
/// events is legal.
pub fn prio_threads_keeps_its_laws()
    ensures { PrioThreadsKeepsItsLaws }
{}
