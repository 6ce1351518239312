//! The condition of a test on its final state.
#![tactic(auto)]

mod cond;
mod errors;
mod law;
mod names;
mod numbers;
mod print;
mod read;
mod state;

pub use cond::{Cond, Left, MAX_TERMS, PlaceName, Quantifier, RegName, Term};
pub use errors::{CondError, CondFault, CondKind};
pub use law::printed_reads_back;
pub use names::{MAX_CONDITION_NAME, is_place_name, is_register_name, place_name, register_name};
pub use numbers::number_of;
pub use print::{print_cond, put_cond};
pub use read::{Follow, read_cond, read_follow, read_left, read_opening, read_right, read_term};
pub use state::{Final, holds};
