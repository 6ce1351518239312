//! The states of a test in a sum of logs, each with its verdict.
#![tactic(auto)]

mod judging;
mod printing;
mod said;

pub use judging::{JudgedState, judged_states};
pub use printing::write_judged;
pub use said::state_said;
