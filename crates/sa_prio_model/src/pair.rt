use sa_base::ProcNo;

/// A processor whose thread a ready thread outranks.
#[derive(Clone, Copy)]
pub struct Outranked {
    pub proc: ProcNo,
    /// The rank of the thread on the processor.
    pub rank: u16,
}
