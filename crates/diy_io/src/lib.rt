//! The outside of the tools: where their bytes come from and go to, and the arguments that they are given.
#![tactic(auto)]

mod errors;
mod line_feeds;
mod page;
mod shelf;
mod sink;
mod source;
mod tally_sink;
mod words;

pub use errors::{Failed, NoMemory};
pub use page::{LINE_ROOM, PAGE_ROOM, Page, SPILL};
pub use shelf::{MAX_FOLDER, OpenError, Shelf};
pub use sink::Sink;
pub use source::{MAX_INPUT, Source, ends_after};
pub use tally_sink::TallySink;
pub use words::Words;
