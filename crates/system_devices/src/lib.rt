//! The devices over the system: a source over a reader, a sink over a writer, and a shelf over the files of a folder.
#![tactic(auto)]

mod again;
mod dir_shelf;
mod std_sink;
mod std_source;

pub use dir_shelf::DirShelf;
pub use std_sink::StdSink;
pub use std_source::StdSource;
