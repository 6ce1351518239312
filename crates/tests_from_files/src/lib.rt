//! Files of tests: a file is read from a shelf, to its end or up to one byte more than a test may have; its text is read as a test of an
//! architecture; and the names of the cycles that such tests quote are written by their families.
#![tactic(auto)]

mod classified_errors;
mod classified_file;
mod errors;
mod file;
mod files;
mod quoted_cycle;
mod said;
mod text;

pub use classified_errors::{FileError, FileKind, FilesEnd};
pub use errors::{FileFault, NoTest, TestFileError, TestFileKind};
pub use file::read_named_file;
pub use files::classify_files;
pub use said::test_of_text;
