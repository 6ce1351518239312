//! The sum of the logs of litmus tests: the counts of equal states, added over all logs.
#![tactic(auto)]

mod blocks;
mod counted;
mod counts;
mod errors;
mod facts;
mod first_seen;
mod kinds;
mod law;
mod lines;
mod places;
mod print;
mod reading;
mod skipping;
mod spelling;
mod state_table;
mod states;
mod summer;
mod table;
mod test_sum;
mod undo;

pub use counted::CountedState;
pub use errors::{LogError, LogKind, SumError};
pub use kinds::{Kind, Mark, Place, Verdict};
pub use law::{same_answers, skipping_laws, sum_of_kept, sum_or_fault, table_is_observed};
pub use skipping::{SkippedBlock, SkippingSummer};
pub use summer::{MAX_LOG_LINE, Summer};
