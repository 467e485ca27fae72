use sa_base::ProcNo;

/// What kind of order a schedule has.
#[derive(Drop)]
pub enum Kind {
    /// Each processor in turn, from processor 0 on.
    RoundRobin,
    /// By the words that the generator `rand_pcg::Lcg64Xsh32` makes of this seed: the k-th, modulo
    /// the number of processors, is the processor of event k.
    Seed(u64),
    /// These processors, and after them the one that has its turn by round robin.
    Given(Vec<ProcNo>),
    /// Round robin, but that one processor stands still for `HOLD_EVENTS` events, while the others
    /// take turns.
    Hold {
        /// The processor that is held, if there is such a one and another.
        proc: ProcNo,
        /// The first event at which it is held.
        from: u64,
    },
}
