// The numbers that name things.

/// A processor, numbered from 0. A workload has 1 to 16 of them.
#[derive(Clone, Copy, PartialEq, Eq)]
pub struct ProcNo(pub u16);

/// An address space, numbered from 0. A workload has 1 to 16 of them.
#[derive(Clone, Copy, PartialEq, Eq)]
pub struct SpaceNo(pub u16);

/// A thread of one space, numbered from 0 in the order of making. A space makes at most 512.
#[derive(Clone, Copy, PartialEq, Eq)]
pub struct ThreadNo(pub u16);

/// An activation. A number is in use from its upcall until it is given back.
#[derive(Clone, Copy, PartialEq, Eq)]
pub struct ActNo(pub u64);

/// An I/O or a page fetch, numbered from 0 in the order of beginning.
#[derive(Clone, Copy, PartialEq, Eq)]
pub struct IoNo(pub u32);
