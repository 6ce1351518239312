//! How a call of the tools ended: its exit status, and its lines on standard error.
#![tactic(auto)]

mod line;
mod outcome;
mod status;

pub use outcome::{Outcome, report};
pub use status::{Device, Status, TextKind};
