//! Coherence per location is SC per location; no interleaving of a program makes a cycle; orders that are kept forbid a cycle; and without
//! any one link a cycle is broken.
#![tactic(auto)]

mod each_link;
mod interleavings;
mod sc_per_location;
mod sequential_executions;

pub use each_link::{each_link_closes, kept_orders_forbid, others_are_kept, standing_is_outcome};
pub use interleavings::{
    interleavings_make_executions, sequential_is_coherent, standing_is_not_sequential,
};
pub use sc_per_location::{
    candidates_are_sc_per_location, coherence_is_sc_per_location, cycle_tests_are_sc_per_location,
};
pub use sequential_executions::{along_is_sequential, sequential_goes_along};
