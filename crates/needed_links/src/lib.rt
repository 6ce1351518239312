//! What suffices against the outcome of a cycle's test: the orders within threads that forbid it if they are kept, as a text.
#![tactic(auto)]

mod law;
mod needs;

pub use law::lists_orders;
pub use needs::write_needs;
