//! The tests of the demonstration, made for each family in turn, and their summary; every cycle made from a family's has a test.
#![tactic(auto)]

mod choices;
mod draws;
mod families;
mod family_cycles;
mod filling;
mod laws;
mod making;
mod measure;
mod summary;
mod tally;

pub use families::families_have_tests;
pub use laws::cycle_texts_short;
pub use making::demo;
