//! Coherence tests: the tests of edges at one location, which no coherent execution meets, and their laws.
#![tactic(auto)]

mod condition;
mod law;
mod maker;
mod refusal;
mod shape;
mod steps;
mod threads;

pub use law::{accepted_have_tests, printed_show_incoherence, values_count_along_arc};
pub use maker::{co_test, co_test_into};
pub use refusal::CoRefusal;
pub use shape::{cut_of, external_count, write_count};
pub use steps::value_of;
