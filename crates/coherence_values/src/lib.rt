//! Which value each event of a cycle writes or reads, and which locations need an observer.
#![tactic(auto)]

mod valued;

pub use cycle_events::{NeedsObserver, arc_laws};
pub use valued::{Valued, value, value_unobserved};
