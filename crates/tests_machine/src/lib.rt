//! A caller of the kernel that relies on its contracts alone; a run of the smallest user level on the core; and what stands below
//! the kernel: sources and sinks, the workload of a probe, and what a line word holds. With a host thread for each processor: a
//! machine behind its lock.
#![tactic(auto)]

#[cfg(test)]
mod fitting;
#[cfg(test)]
mod lawful;
#[cfg(test)]
mod lines;
#[cfg(test)]
mod probes;
#[cfg(test)]
mod rows;
#[cfg(test)]
mod seat;
#[cfg(test)]
mod second;
#[cfg(test)]
mod sources;
