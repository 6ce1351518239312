use log_sum::LogKind;

/// How a call that sums logs ended. A `file` is the index of the argument that names it, and `None` is
/// the input; lines count from 1.
#[derive(Clone, Copy)]
pub enum SumEnd {
    /// The sum is written.
    Done,
    /// A line of a log is wrong.
    Wrong {
        file: Option<usize>,
        line: u64,
        kind: LogKind,
    },
    /// A log has more than 2^40 bytes. The line is the one of the byte after these.
    TooMuch {
        file: Option<usize>,
        line: u64,
    },
    /// The argument at this index names a file that doesn't exist.
    NoFile {
        word: usize,
    },
    /// The input failed.
    InputFault,
    /// The shelf failed.
    ShelfFault,
    /// The output failed.
    OutFault,
    /// There was no memory.
    NoMemory,
}
