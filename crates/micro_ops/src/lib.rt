//! The machine of one thread: what each operation does to registers, and the run of a list of operations.
#![tactic(auto)]

mod held;
mod machine;
mod operand;
mod operation;
mod run;
pub mod run_laws;

pub use held::Held;
pub use machine::{Machine, Stepped, Stuck};
pub use operation::{Barrier, Item, Micro};
pub use run::{RunError, Trace, run_thread};
