/// A rule of legal runs. The rules are in the order in which they are looked at.
#[derive(Clone, Copy)]
pub enum Rule {
    /// Event 0 is the opening, and the events after it are numbered one by one.
    Numbered,
    /// Each record is a step of the abstract machine.
    Stepwise,
    /// Each stop, block and return is told at most once.
    ToldOnce,
    /// Each stop, block and return is told in time.
    ToldInTime,
    /// Each processor is owned by the space of the activation that runs there.
    WhereOwned,
    /// An upcall is in a fresh activation, and tells all.
    AllTold,
    /// A block gives an upcall.
    UpcallGiven,
    /// A raised line is an interrupt at its processor's next turn, and nothing else is.
    InterruptNext,
    /// A line has its cause.
    LineCause,
    /// A want has its cause.
    WantCause,
    /// Each space has at least its share of aims, and aims come in their order.
    SharesCovered,
    /// Demand is announced.
    DemandAnnounced,
    /// An event is one of those that may come, with the records that belong to it.
    TurnsTaken,
    /// List locks are kept.
    LocksKept,
    /// The order of ready lists is kept.
    OrderKept,
    /// No event comes after the end, and the last line says it.
    EndTold,
}
