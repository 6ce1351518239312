ghost use Rattle.std.specs.Prelude.{◌≡◌};
ghost use Rattle.litmus_text.specs.declared.errors.ReadError.TheVariants.{Text, NoMemory};

use std::alloc::{AllocError, AllocFailed};
use thiserror::Error;

/// What is wrong or missing in the text of a test.
#[derive(Clone, Copy, Debug, Error)]
pub enum TestKind {
    /// The first line that isn't skipped isn't an architecture and a name of at most `MAX_TEST_NAME`
    /// bytes, or the architecture isn't the expected one.
    #[error("the header is wrong")]
    BadHeader,
    /// A line that begins with a double quote doesn't end with its second one.
    #[error("a quoted line doesn't end with its second quote")]
    BadQuote,
    /// The initial state is missing or has a wrong item, or something comes after its `}`.
    #[error("the initial state is wrong")]
    BadInit,
    /// A cell of the table's header isn't that of the next thread, a row doesn't have one cell for each
    /// thread, a line of the table doesn't end with its first `;`, or the initial state gives a value
    /// to a thread that doesn't exist.
    #[error("the table has the wrong cells")]
    BadTable,
    /// A cell that isn't blank is neither an instruction of the architecture nor a label that one may
    /// follow.
    #[error("a cell is no instruction")]
    BadInstruction,
    /// The label of a branch doesn't come exactly once in its thread, after the branch.
    #[error("a label is wrong")]
    BadLabel,
    /// The condition is wrong.
    #[error("the condition is wrong")]
    BadCondition,
    /// The text is longer than `MAX_TEST_TEXT`, or has more threads, rows, locations, accesses, labels
    /// or terms than a test can have.
    #[error("the text or a part of it is too large")]
    TooLarge,
    /// The text ends before its condition begins.
    #[error("the text ends before its condition")]
    EndMissing,
}

/// Why a text isn't a test: its first error, in the order in which a text is judged. (The labels of
/// branches are judged after all rows.)
#[derive(Clone, Copy, Debug, Error)]
#[error("line {line}: {kind}")]
pub struct TextError {
    /// The number of the line, from 1. All lines are counted.
    pub line: u64,
    pub kind: TestKind,
}

/// Why a text can't be read as a test.
#[derive(Clone, Copy, Debug, Error)]
pub enum ReadError {
    /// The text isn't a test.
    #[error("{0}")]
    Text(TextError),
    /// There is no memory for the test.
    #[error("there is no memory")]
    NoMemory,
}

impl From<TextError> for ReadError {
    ghost from_gives = { λ fault error. error ≡ Text fault };

    fn from(fault: TextError) -> ReadError {
        ReadError::Text(fault)
    }
}

impl From<AllocError> for ReadError {
    ghost from_gives = { λ _ error. error ≡ NoMemory };

    fn from(_error: AllocError) -> ReadError {
        ReadError::NoMemory
    }
}

impl<T: Drop> From<AllocFailed<T>> for ReadError {
    ghost from_gives = { λ _ error. error ≡ NoMemory };

    fn from(_error: AllocFailed<T>) -> ReadError {
        ReadError::NoMemory
    }
}

/// An error of this kind at a line.
pub(crate) fn error_at_line(kind: TestKind, line: u64) -> TextError
    ensures { result ≡ record { line = line; kind = kind } }
{
    TextError { line, kind }
}
