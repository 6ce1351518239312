//! Which states of logs have a verdict: a state whose equalities have the forms of a condition is read, and if it has all left sides of the
//! condition of a printed test, something is said of it.
#![tactic(auto)]

mod law;

pub use law::{formed_states_are_read, printed_states_are_decided, printed_states_are_open};
