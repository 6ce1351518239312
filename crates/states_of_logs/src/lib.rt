//! The states that logs have of a test, each with its verdict: the test is read from a file, the logs from files or from the input.
#![tactic(auto)]

mod files;
mod input;
mod log_end;
mod states_end;
mod test_file;
mod writing;

pub use files::{StatesWords, judge_files};
pub use input::judge_input;
pub use states_end::{StatesEnd, StatesKind};
