//! The text of an execution, read and written: what each read of a test reads, and in which order the writes to each
//! location come.
#![tactic(auto)]

mod errors;
mod heads;
mod law;
mod lines;
mod reading;
mod words;
mod writing;

pub use errors::{ExecError, ExecFault, ExecKind};
pub use law::written_reads_back;
pub use reading::read_execution;
pub use writing::write_execution;
