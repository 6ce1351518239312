//! The text of a test: how a test is printed, and what a text is read as.
#![tactic(auto)]

mod cell;
mod column;
mod errors;
mod head;
mod initial;
mod kept;
mod law;
mod limits;
mod padded;
mod parts;
mod print;
mod reading;
mod separators;
mod table;
mod test;

pub use errors::{ReadError, TestKind, TextError};
pub use head::put_header;
pub use kept::KeptTable;
pub use law::printed_reads_back;
pub use limits::{MAX_ACCESSES, MAX_ROWS, MAX_TEST_NAME, MAX_TEST_TEXT, MAX_THREADS};
pub use parts::{TextPart, put_part};
pub use print::{print_test, print_test_by};
pub use reading::{ReadTest, arch_of, read_test};
pub use test::Test;
