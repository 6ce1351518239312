ghost use Rattle.std.specs.Prelude.{◌≡◌};
ghost use Rattle.exec_text.specs.declared.errors.ExecError.TheVariants.{Text, NoMemory};

use std::alloc::{AllocError, AllocFailed};

/// What is faulty or missing in the text of an execution.
#[derive(Clone, Copy, Debug)]
pub enum ExecKind {
    /// The first word of a thread's line isn't the expected one, which is `P`, the thread's number and a colon, or is missing.
    BadThread,
    /// A further word of a thread's line isn't `VALUE@init` or `VALUE@T.N`.
    BadRead,
    /// The first word of a location's line isn't the expected one, which is its name and a colon, or is missing.
    BadPlace,
    /// A further word of a location's line isn't `T.N`.
    BadWrite,
    /// A line is missing.
    EndMissing,
    /// There is an extra line.
    StrayLine,
    /// The text has more bytes than a test's text may have: more than `litmus_text::MAX_TEST_TEXT`.
    TooLarge,
}

/// Why a text is no execution: the first line with an error, and the leftmost error in it.
#[derive(Clone, Copy)]
pub struct ExecFault {
    /// The number of the line, from 1: for a missing line, the number that it would have; for a text that is too
    /// large, 1.
    pub line: u64,
    pub kind: ExecKind,
}

/// Why a text can't be read as an execution.
#[derive(Clone, Copy)]
pub enum ExecError {
    /// The text is no execution.
    Text(ExecFault),
    /// There is no memory for the execution.
    NoMemory,
}
