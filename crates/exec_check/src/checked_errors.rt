ghost use Rattle.std.specs.Prelude.{◌≡◌};
ghost use Rattle.exec_check.specs.declared.checked_errors.CheckFault.TheVariants.{Device};
ghost use Rattle.exec_check.specs.CheckingSteps.{check_end, exec_fault, check_file_fault, test_fault, checked_test_kind};

use crate::CheckError;
use diy_io::Failed;
use exec_text::ExecKind;
use litmus_text::TestKind;
use tests_from_files::{FileFault, NoTest, TestFileKind};

/// What is wrong with a file.
#[derive(Clone, Copy)]
pub enum CheckedKind {
    /// The file of the test has no header, or isn't a test of the architecture that the header names.
    Test(TestKind),
    /// The file of the test is one of another architecture than the one asked for. The line is 1.
    WrongArch,
    /// The text of the file of the execution gives no execution of the test.
    Exec(ExecKind),
}

/// How a call that checks an execution of a test ended. A `file` and a `word` are the position of the argument that
/// names the file.
#[derive(Clone, Copy)]
pub enum CheckEnd {
    /// The verdict or the graph is written.
    Done,
    /// The first file that is wrong: the line of its first error, from 1, and the error.
    Wrong {
        file: usize,
        line: u64,
        kind: CheckedKind,
    },
    /// The argument names no file.
    NoFile {
        word: usize,
    },
    /// The shelf failed.
    ShelfFault,
    /// The output failed; it has taken a prefix of the text.
    OutFault,
    /// There is no memory. Nothing was written.
    NoMemory,
}

/// Why a file can't be used.
#[derive(Clone, Copy)]
pub(crate) enum CheckFault {
    /// It doesn't exist.
    Missing,
    /// The shelf failed.
    Device,
    /// It is wrong: the line of its first error, and the error.
    Wrong { line: u64, kind: CheckedKind },
    /// There is no memory.
    NoMemory,
}

impl CheckedKind {
    fn of_test(kind: TestFileKind) -> CheckedKind
        ensures { result ≡ checked_test_kind kind }
    {
        match kind {
            TestFileKind::Test(kind) => CheckedKind::Test(kind),
            TestFileKind::WrongArch => CheckedKind::WrongArch,
        }
    }
}

impl From<FileFault> for CheckFault {
    ghost from_gives = { λ fault error. error ≡ check_file_fault fault };

    fn from(fault: FileFault) -> CheckFault {
        match fault {
            FileFault::Missing => CheckFault::Missing,
            FileFault::Failed => CheckFault::Device,
            FileFault::NoMemory => CheckFault::NoMemory,
        }
    }
}

impl From<Failed> for CheckFault {
    ghost from_gives = { λ _ error. error ≡ Device };

    fn from(_failed: Failed) -> CheckFault {
        CheckFault::Device
    }
}

impl From<NoTest> for CheckFault {
    ghost from_gives = { λ fault error. error ≡ test_fault fault };

    fn from(fault: NoTest) -> CheckFault {
        match fault {
            NoTest::Wrong(error) => CheckFault::Wrong {
                line: error.line,
                kind: CheckedKind::of_test(error.kind),
            },
            NoTest::NoMemory => CheckFault::NoMemory,
        }
    }
}

impl From<CheckError> for CheckFault {
    ghost from_gives = { λ fault error. error ≡ exec_fault fault };

    fn from(fault: CheckError) -> CheckFault {
        match fault {
            CheckError::Exec { line, kind } => CheckFault::Wrong {
                line,
                kind: CheckedKind::Exec(kind),
            },
            CheckError::NoMemory => CheckFault::NoMemory,
        }
    }
}

impl CheckFault {
    /// How a call ends if the file that the argument at position `word` names can't be used.
    pub(crate) fn end_at(self, word: usize) -> CheckEnd
        ensures { result ≡ check_end word self }
    {
        match self {
            CheckFault::Missing => CheckEnd::NoFile { word },
            CheckFault::Device => CheckEnd::ShelfFault,
            CheckFault::Wrong { line, kind } => CheckEnd::Wrong {
                file: word,
                line,
                kind,
            },
            CheckFault::NoMemory => CheckEnd::NoMemory,
        }
    }
}
