//! The cycles of all choices of one relaxation from each of some lists.
#![tactic(auto)]

mod choose;
mod kept;
mod laws;
mod normal_form;

pub use choose::crossed_cycles;
pub use laws::crosses_all;
