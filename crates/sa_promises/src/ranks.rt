//! What follows from the laws of a legal run with thread priorities after each event of it. No function here does anything.
ghost use Rattle.sa_promises.specs.Outranking.{EveryLegalRunOutranksNobody};

/// After each event of a legal run, where nothing of a space is on its way, no ready thread of it outranks a running one.
pub fn legal_runs_outrank_nobody()
    ensures { EveryLegalRunOutranksNobody }
{}
