//! Relaxations that can stand in no cycle: idle ones.
#![tactic(auto)]

mod bytes;
mod idle;
mod items;
mod laws;

pub use items::{Item, first_idle};
pub use laws::{found_are_idle, standing_are_not_idle};
