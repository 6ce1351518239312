use log_sum::LogKind;

/// Why logs weren't all read. A `file` is the index of the argument that names it, and `None` is the input; lines count
/// from 1. It is the first cause in the order of the logs.
#[derive(Clone, Copy)]
pub enum LogsFault {
    /// A line of a log is wrong.
    Wrong {
        file: Option<usize>,
        line: u64,
        kind: LogKind,
    },
    /// A log has more than 2^40 bytes. The line is the one of the byte after these.
    TooMuch {
        file: Option<usize>,
        line: u64,
    },
    /// The argument at this index names a file that doesn't exist.
    NoFile {
        word: usize,
    },
    /// The input failed.
    InputFault,
    /// The shelf failed.
    ShelfFault,
    /// There was no memory.
    NoMemory,
}
