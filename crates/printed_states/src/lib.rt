//! The verdicts of states of printed tests: of the state that has the star, and of the states that interleavings give; and
//! which states fix one execution.
#![tactic(auto)]

mod law;

pub use law::{
    architectures_keep_loads, interleaved_is_sequential, interleaved_stays_sequential,
    printed_states_are_fixed, printed_states_fix_reads, starred_is_incoherent, starred_is_relaxed,
};
