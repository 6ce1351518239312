//! The execution that a final state fixes, rebuilt from it: what the loads of a thread read, the accesses that they lead to, and the one
//! execution that can be meant. And whether the accesses of an execution can be put into an order of one memory.
#![tactic(auto)]

mod accesses;
mod common_order;
mod forced;
mod law;
mod loads;
mod names;
mod order;
mod rebuilding;
mod settled;
mod sorted;

pub use accesses::{Accesses, accesses_of_run};
pub use common_order::have_an_order;
pub use forced::are_forced;
pub use law::loads_are_read;
pub use loads::values_of_loads;
pub use order::can_be_ordered;
pub use program_meaning::{Access, Execution, Read, SeenAccess, WriteAt};
pub use rebuilding::rebuilt_execution;
