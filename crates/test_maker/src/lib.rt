//! The test of a cycle.
#![tactic(auto)]

mod acceptance;
mod condition;
mod law;
mod maker;
mod refusal;
mod steps;
mod threads;

pub use acceptance::{accepted, all_of_arch, all_of_name};
pub use law::resolved_edges;
pub use maker::{make, make_into, make_unobserved};
pub use refusal::{CrowdedThread, ForeignEdge, MakeRefusal, Refusal};
pub use threads::put_thread;
