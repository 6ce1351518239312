//! Paths and cycles of edges: how they compose, their rotations, and the one normal form of a cycle.
#![tactic(auto)]

mod compose;
mod cycles;
mod errors;
mod laws;
mod normal;
mod paths;

pub use compose::cycle;
pub use cycles::Cycle;
pub use errors::{CycleError, JoinError, NotClosed};
pub use laws::{composes_exactly, joining_is_associative};
pub use normal::{is_normal, ranks_of};
pub use paths::Path;
