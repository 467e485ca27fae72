//! What FastThreads owes to the history of a run. No function here does anything.
ghost use Rattle.sa_fast_laws.specs.Laws.{FastThreadsKeepsItsLaws};

/// FastThreads meets what every user level owes to the history, with its own rules: how its value and the contexts of its
/// space's activations stand beside what is read holds at the opening and is kept by every step, run of local
/// instructions, stop, block, return and upcall; each record that it adds is a step of the abstract machine; and by the
/// table of steps, demand, list locks and list order each of its events is legal.
pub fn fast_threads_keeps_its_laws()
    ensures { FastThreadsKeepsItsLaws }
{}
