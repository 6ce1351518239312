//! Examples: for each subject that other programs may use, a caller of its crates that is proved.
#![tactic(auto)]

mod conditions;
mod cycles;
mod edges;
mod executions;
mod logs;
mod names;
mod tests;
mod texts;
mod walks;

pub use conditions::meets;
pub use cycles::are_alike;
pub use edges::printed_name;
pub use executions::{is_coherent_text, shows_outcome};
pub use logs::sum_of_two;
pub use names::name_in_text;
pub use tests::{print_cycle, print_for_x86};
pub use texts::thread_count;
pub use walks::first_cycle;
