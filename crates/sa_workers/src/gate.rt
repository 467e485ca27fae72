// Gates, and the one that holds nothing.
use sa_base::ProcNo;
use std::marker::Sync;

/// A place that the worker of each processor passes before each of its entries. Workers of all processors share it.
pub trait Gate: Sync {
    /// The worker of the processor arrives. Returns.
    fn arrive(&self, p: ProcNo);
}

/// A gate that is open.
#[derive(Clone, Copy)]
pub struct FreeGate;

impl Gate for FreeGate {
    fn arrive(&self, _p: ProcNo) {}
}
