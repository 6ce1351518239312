//! The devices in memory, which show their bytes and fail exactly where they are told to.
#![tactic(auto)]

mod mem_files;
mod mem_shelf;
mod mem_sink;
mod mem_source;
mod sure_source;

pub use mem_shelf::MemShelf;
pub use mem_sink::MemSink;
pub use mem_source::MemSource;
pub use sure_source::SureSource;
