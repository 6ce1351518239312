//! The cycles of a listing, one after another in order, by a walk that keeps only the last of them.
#![tactic(auto)]

mod alphabet;
mod crossing;
mod endings;
mod letter;
mod letters;
mod limits;
mod places;
mod prefix;
mod progress;
mod relax_set;
mod relaxed;
mod spread;
mod taken;
mod walk;

pub use limits::Limits;
pub use spread::is_spread;
pub use taken::Taken;
pub use walk::Walk;
