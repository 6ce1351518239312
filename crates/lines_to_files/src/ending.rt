use crate::form::WrongTest;

/// How the writing of the tests of lines ended.
#[derive(Clone, Copy)]
pub enum LineTestsEnd {
    /// All files and the line on their number were written.
    Done,
    /// The line of this number, counted from 1, is the first that is wrong or whose test is. The files of the lines before it were
    /// written, but not the file that names them, and nothing to the sink.
    Wrong { line: u64, kind: WrongTest },
    /// There are more than `MAX_INPUT` bytes. The line is the one after the last line feed among the first `MAX_INPUT` of them. The
    /// files of the lines before it were written, but not the file that names them, and nothing to the sink.
    TooMuch { line: u64 },
    /// The source failed. The files of the lines that had ended by then were written, but not the file that names them, and nothing to
    /// the sink.
    InputFault,
    /// The shelf failed at a file. Those before it were written, and nothing to the sink.
    ShelfFault,
    /// All files were written, and the sink failed at the line on their number.
    OutFault,
    /// There is no memory. No file was written, and nothing to the sink.
    NoMemory,
}
