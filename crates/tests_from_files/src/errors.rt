use litmus_text::TestKind;

/// Why a file wasn't read.
#[derive(Clone, Copy)]
pub enum FileFault {
    /// It doesn't exist.
    Missing,
    /// The shelf failed, when the file was opened or read.
    Failed,
    /// There is no memory for its text.
    NoMemory,
}

/// The kind of the first error of a text that is no test of an architecture.
#[derive(Clone, Copy)]
pub enum TestFileKind {
    /// It has too many bytes or no header, or isn't a test of the architecture that the header names.
    Test(TestKind),
    /// Its header names another architecture than the one asked for.
    WrongArch,
}

/// The first error of a text that is no test of an architecture, and its line.
#[derive(Clone, Copy)]
pub struct TestFileError {
    /// The number of the line, from 1. It is 1 for `WrongArch`.
    pub line: u64,
    pub kind: TestFileKind,
}

/// Why there is no test of a text.
#[derive(Clone, Copy)]
pub enum NoTest {
    /// The text has an error.
    Wrong(TestFileError),
    /// There is no memory for the test.
    NoMemory,
}

/// Why a file that is open couldn't be read.
#[derive(Clone, Copy)]
pub(crate) enum ReadFault {
    /// The shelf failed.
    Failed,
    /// There is no memory for the text.
    NoMemory,
}
