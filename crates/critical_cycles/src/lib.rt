//! An execution that is coherent per location is sequentially consistent, or it has a critical cycle, whose accesses are the
//! events of a cycle of edges.
#![tactic(auto)]

mod critical;
mod listed;
mod shown;

pub use critical::{critical_cycles_are_short, critical_is_not_sequential, sequential_or_critical};
pub use listed::{listed_are_critical, standing_is_critical};
pub use shown::{
    candidates_show_cycles, critical_cycles_have_events, linked_cycles_have_events,
    two_threads_show_six,
};
