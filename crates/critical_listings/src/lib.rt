//! One listing of diy7 has a test of every critical cycle: what it lists is all there is.
#![tactic(auto)]

mod architectures;
mod listings;
mod relaxations;
mod two_threads;

pub use architectures::architectures_have_room;
pub use listings::{
    cycles_are_listed, cycles_have_tests, listed_cycles_are_critical, listings_show_all,
};
pub use relaxations::{cycles_are_made, text_is_read};
pub use two_threads::{two_threads_list_six, two_threads_show};
