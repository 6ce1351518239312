//! Whether a given execution is one of a test, whether it is coherent, how it ends, and which edges of a cycle stand in it.
#![tactic(auto)]

mod accesses;
mod candidate;
mod coherent;
mod edges;
mod final_state;
mod runs;
mod seen;
mod visits;

pub use candidate::is_candidate;
pub use coherent::is_coherent;
pub use edges::edge_stands;
pub use final_state::final_of;
pub use program_meaning::{Access, Execution, Read, SeenAccess, WriteAt};
pub use runs::candidate_runs;
pub use seen::seen_accesses;
