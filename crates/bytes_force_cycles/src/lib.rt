//! The printed text of the test of a cycle, and what its bytes mean: they are read as a test that forces the cycle.
#![tactic(auto)]

mod printed_tests;
mod sc_and_links;

pub use printed_tests::{printed_tests_force, tests_readable};
pub use sc_and_links::{
    condition_decides, each_link_may_break, links_decide, printed_are_sc_per_location,
    tests_are_sc_per_location,
};
