use crate::link::Link;
use relax_edges::{Dir, MAX_EDGES, Mark};

/// The most accesses of a thread for which code is made: one for each edge of the longest cycle.
pub const MAX_STEPS: usize = MAX_EDGES;

/// One access of a thread, and how it is tied to the one before it.
#[derive(Clone, Copy, Default)]
pub struct Step {
    pub dir: Dir,
    /// It must fit what the access does: a load is plain or acquire, a store plain or release.
    pub mark: Mark,
    pub place: u8,
    /// What a store writes.
    pub value: u8,
    pub link: Link,
}

/// What the accesses of a thread need registers for, counted.
#[derive(Clone, Copy, Default)]
pub struct Shape {
    /// How many accesses load.
    pub loads: u8,
    /// How many accesses store.
    pub stores: u8,
    /// How many accesses have an address dependency.
    pub addr: u8,
    /// How many locations are accessed.
    pub places: u8,
}
