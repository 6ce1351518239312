//! Parts of texts: runs of bytes of a class, blanks, words, cuts and ends of lines.
#![tactic(auto)]

mod blanks;
mod classes;
mod cuts;
mod lines;
mod runs;
mod words;

pub use blanks::{trim_blanks, without_blanks, without_last_blanks};
pub use classes::Class;
pub use cuts::cut;
pub use lines::without_return;
pub use runs::split_run;
pub use words::next_word;
