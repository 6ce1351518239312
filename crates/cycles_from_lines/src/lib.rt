//! Lines of cycles: each is read, and the names of the cycles are written.
#![tactic(auto)]

mod classify;
mod edges;
mod errors;
mod families;
mod line;
mod named;
mod names;
mod norm;
mod reader;
mod table;

pub use classify::classify_lines;
pub use edges::{cycle_spelled, quoted_cycle};
pub use errors::{ClassifyError, LineKind, LinesError, NormError};
pub use families::Families;
pub use line::{LineForm, read_line};
pub use named::{cycle_named, named_cycles_are_found};
pub use norm::{norm_lines, send_name_line, write_name_line};

/// The most bytes of a line, without its line feed and a carriage return right before that: 4,096.
pub const MAX_CYCLE_LINE: usize = 4_096;
