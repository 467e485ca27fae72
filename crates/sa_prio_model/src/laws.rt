//! What holds of pairs. No function here does anything.
ghost use Rattle.sa_prio_model.specs.Laws.{TheLowestIsFirst, NobodyIsOutranked};

/// The processor to be interrupted runs a thread that some ready thread outranks, and its line is low; none of the others
/// runs a thread of a lower rank, and none before it one of the same rank.
pub fn the_lowest_is_the_first_of_the_lowest_rank()
    ensures { TheLowestIsFirst }
{}

/// Where there is no such processor, no thread on a processor with a low line is outranked.
pub fn there_is_one_where_somebody_is_outranked()
    ensures { NobodyIsOutranked }
{}
