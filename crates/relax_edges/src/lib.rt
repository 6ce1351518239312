//! The edges of a cycle: what each one joins, its printed name, and the order of the names.
#![tactic(auto)]

mod arch;
mod edge;
mod kinds;
mod marked;
mod named;
mod order;
mod table;
mod word;

pub use arch::read_arch;
pub use edge::Edge;
pub use kinds::{
    ArchName, Com, DepKind, Dir, FenceKind, Kind, Mark, ObsMode, Pick, Reach, Sd, Value,
};
pub use marked::MarkedEdge;
pub use named::WordHash;
pub use order::EDGES;

/// The most edges that a cycle may have.
pub const MAX_EDGES: usize = 48;
