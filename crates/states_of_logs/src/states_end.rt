use litmus_text::TestKind;
use log_sum::LogKind;

/// What is wrong with a text that is read.
#[derive(Clone, Copy)]
pub enum StatesKind {
    /// The file of the test has too many bytes or no header, or isn't a test of the architecture that the header names.
    Test(TestKind),
    /// The file of the test is one of another architecture than the one asked for. The line is 1.
    WrongArch,
    /// A line of a log is wrong.
    Log(LogKind),
}

/// How a call that judges the states of logs ended, by the first cause: the test comes first, then the logs in order.
/// A `file` and a `word` are the index of the argument that names the file; no `file` is the input.
#[derive(Clone, Copy)]
pub enum StatesEnd {
    /// The states are written with their verdicts.
    Done,
    /// The first text that is wrong: the line of its first error, from 1, and the error.
    Wrong {
        file: Option<usize>,
        line: u64,
        kind: StatesKind,
    },
    /// A log has more than 2^40 bytes. The line is the one of the byte after these.
    TooMuch {
        file: Option<usize>,
        line: u64,
    },
    /// The argument names no file.
    NoFile {
        word: usize,
    },
    /// No log has a block of the test that this argument names, by its name.
    NoBlock {
        word: usize,
    },
    /// The input failed.
    InputFault,
    /// The shelf failed.
    ShelfFault,
    /// The output failed; it has taken a prefix of the text.
    OutFault,
    /// There is no memory. Nothing was written.
    NoMemory,
}
