//! The tools agree on what they print: laws of the lines and texts that one tool writes and another reads.
#![tactic(auto)]

mod files;
mod lines;
mod verdicts;

pub use files::{
    coherence_tests_say_cycles, crossed_are_accepted, files_are_classified, listed_are_accepted,
    tests_say_cycles, texts_say_cycles, turned_have_families,
};
pub use lines::{
    lines_are_classified, lines_read_as_themselves, listed_are_cycles, norms_again,
    said_are_cycles, words_read_back,
};
pub use verdicts::{
    checked_are_written, coherence_executions_exist, coherence_executions_say, executions_exist,
    executions_say_yes,
};
