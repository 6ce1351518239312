//! Where each event of a cycle is: in which thread, in which slot and at which location.
#![tactic(auto)]

mod resolved;

pub use cycle_events::{Event, ResolveError};
pub use resolved::{Resolved, resolve};
