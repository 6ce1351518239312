//! The events of a cycle as definitions: the thread, slot, location and value of each, the arcs of the locations and their observers.
#![tactic(auto)]

pub mod arc_laws;
mod errors;
mod event;
mod needs;

pub use errors::ResolveError;
pub use event::Event;
pub use needs::NeedsObserver;
