ghost use Rattle.std.specs.Prelude.{◌≡◌};
ghost use Rattle.tests_from_files.specs.{declared.classified_errors.CycleFault.TheVariants.{Device, Text}, Read.{file_end, file_fault}};
ghost use Rattle.tests_from_files.specs.QuotedCycle.{test_error, classified_kind};

use crate::{FileFault, TestFileError, TestFileKind};
use diy_io::Failed;
use litmus_text::TestKind;

/// What is wrong with a file of a test.
#[derive(Clone, Copy)]
pub enum FileKind {
    /// It has too many bytes or no header, or isn't a test of the architecture that the header names.
    Test(TestKind),
    /// Its header names another architecture than the one asked for.
    WrongArch,
    /// It is a test, but quotes no text, or one that spells no cycle of the architecture.
    NoCycle,
}

/// The first error of a file, and its line.
#[derive(Clone, Copy)]
pub struct FileError {
    /// The number of the line, from 1. It is 1 for `WrongArch`, and 2 for `NoCycle`.
    pub line: u64,
    pub kind: FileKind,
}

/// How a call that classifies files ended. `file` and `word` are the position, from 0, of the argument
/// that names the file.
#[derive(Clone, Copy)]
pub enum FilesEnd {
    /// The names are written by their families.
    Done,
    /// A file has an error, its first one, and the files before it have none.
    Wrong {
        file: usize,
        line: u64,
        kind: FileKind,
    },
    /// The argument names no file, and the files before it have no error.
    NoFile {
        word: usize,
    },
    /// The shelf failed at a file, and the files before it have no error.
    ShelfFault,
    /// The sink failed, and has taken a prefix of what was to be written.
    OutFault,
    /// There is no memory.
    NoMemory,
}

/// Why a text gives no cycle.
#[derive(Clone, Copy)]
pub(crate) enum TextFault {
    Wrong(FileError),
    /// There is no memory.
    NoMemory,
}

/// Why a file gives no cycle.
#[derive(Clone, Copy)]
pub(crate) enum CycleFault {
    /// It doesn't exist.
    Missing,
    /// The shelf failed.
    Device,
    Text(TextFault),
}

impl FileKind {
    /// The kind of an error of a text, as that of a file.
    fn of_test(kind: TestFileKind) -> FileKind
        ensures { result ≡ classified_kind kind }
    {
        match kind {
            TestFileKind::Test(kind) => FileKind::Test(kind),
            TestFileKind::WrongArch => FileKind::WrongArch,
        }
    }
}

impl FileError {
    /// The error of a text, as that of a file.
    pub(crate) fn of_test(error: TestFileError) -> FileError
        ensures { result ≡ test_error error }
    {
        FileError {
            line: error.line,
            kind: FileKind::of_test(error.kind),
        }
    }
}

impl From<FileFault> for CycleFault {
    ghost from_gives = { λ fault error. error ≡ file_fault fault };

    fn from(fault: FileFault) -> CycleFault {
        match fault {
            FileFault::Missing => CycleFault::Missing,
            FileFault::Failed => CycleFault::Device,
            FileFault::NoMemory => CycleFault::Text(TextFault::NoMemory),
        }
    }
}

impl From<Failed> for CycleFault {
    ghost from_gives = { λ _ error. error ≡ Device };

    fn from(_failed: Failed) -> CycleFault {
        CycleFault::Device
    }
}

impl From<TextFault> for CycleFault {
    ghost from_gives = { λ fault error. error ≡ Text fault };

    fn from(fault: TextFault) -> CycleFault {
        CycleFault::Text(fault)
    }
}

impl CycleFault {
    /// How a call ends if the file that the argument at this position names gives no cycle.
    pub(crate) fn end_at(self, word: usize) -> FilesEnd
        ensures { result ≡ file_end word self }
    {
        match self {
            CycleFault::Missing => FilesEnd::NoFile { word },
            CycleFault::Device => FilesEnd::ShelfFault,
            CycleFault::Text(TextFault::Wrong(FileError { line, kind })) => FilesEnd::Wrong {
                file: word,
                line,
                kind,
            },
            CycleFault::Text(TextFault::NoMemory) => FilesEnd::NoMemory,
        }
    }
}
