//! Reads a log that is the input, or the logs in files that arguments name, and writes their sum or its table.
#![tactic(auto)]

mod feeding;
mod files;
mod input;
mod logs_fault;
mod reading;
mod sift_files;
mod sift_input;
mod sifting;
mod sum_end;
mod sum_form;

pub use files::sum_files;
pub use input::sum_input;
pub use logs_fault::LogsFault;
pub use reading::{read_files, read_input};
pub use sift_files::skip_files;
pub use sift_input::skip_input;
pub use sum_end::SumEnd;
pub use sum_form::SumForm;
