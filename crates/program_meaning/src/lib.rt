//! What a program means: the runs of its threads, its executions and interleavings, which edges of a cycle stand
//! in an execution, and the tests that decide whether one is a candidate and coherent.
#![tactic(auto)]

mod execution;
mod seen;

pub use execution::{Execution, Read};
use micro_ops::Barrier;
use relax_edges::Dir;
pub use seen::SeenAccess;

/// Names an access of a program, such as a write: its thread, and its number among the thread's accesses, both from 0.
#[derive(Clone, Copy, PartialEq, Eq)]
pub struct WriteAt {
    pub thread: u8,
    pub access: u8,
}

/// An access of a thread: what it does, at which location, and the value that it reads or writes.
#[derive(Clone, Copy)]
pub struct Access {
    pub dir: Dir,
    pub place: u8,
    pub value: u32,
}

/// A barrier of a thread, with the loads that the branches before it depend on: bit `k` of the mask names load
/// number `k` of the thread, from 0.
#[derive(Clone, Copy)]
pub struct Barred {
    pub kind: Barrier,
    pub control: u64,
}
