use sa_laws::Rule;

/// What a trace text is found to be, beside its workload.
#[derive(Clone, Copy)]
pub enum Verdict {
    /// Each rule holds at each event, and the last line tells the end.
    Legal,
    /// The number of the first event at which a rule does not hold, and the first such rule there.
    Broken { event: u64, rule: Rule },
}
