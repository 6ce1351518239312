//! The verdict on an execution of a test: whether it is a candidate, is coherent and meets the condition, and which edges stand; and it or
//! the graph of the execution for a test and an execution that are read from files, which arguments name.
#![tactic(auto)]

mod checked_errors;
mod checking;
mod edges;
mod errors;
mod file;
mod files;
mod law;
mod shown;
mod text_sink;
mod verdict;
mod writing;

pub use checked_errors::{CheckEnd, CheckedKind};
pub use checking::check;
pub use errors::CheckError;
pub use exec_text::ExecKind;
pub use files::{FileWords, check_files};
pub use law::{one_graph, one_verdict, quoted_arrows};
pub use litmus_text::TestKind;
pub use shown::{Shown, draw_execution};
pub use verdict::{JudgedEdges, Verdict};
pub use writing::write_verdict;
