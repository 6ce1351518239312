ghost use Rattle.std.specs.Prelude.{◌≡◌, ◌<◌, length};
ghost use Rattle.diy_io.specs.{Shelf.{Idle}, Opened.{name_at}};
ghost use Rattle.states_of_logs.specs.declared.test_file.TestFault.TheVariants.{Device};
ghost use Rattle.states_of_logs.specs.JudgingSteps.{TestFileTo, TestClosedTo, file_fault, states_kind, test_end, test_fault};

use crate::states_end::{StatesEnd, StatesKind};
use arch_trait::Arch;
use diy_io::{Failed, Shelf, Words};
use litmus_text::ReadTest;
use std::alloc::Global;
use tests_from_files::{
    FileFault, NoTest, TestFileError, TestFileKind, read_named_file, test_of_text,
};

/// How many bytes are read at once.
const PIECE: usize = 4_096;

/// Why the file of the test can't be used.
#[derive(Clone, Copy)]
pub(crate) enum TestFault {
    /// It doesn't exist.
    Missing,
    /// The shelf failed.
    Device,
    /// Its text has an error.
    Wrong(TestFileError),
    /// There is no memory.
    NoMemory,
}

impl From<FileFault> for TestFault {
    ghost from_gives = { λ fault error. error ≡ file_fault fault };

    fn from(fault: FileFault) -> TestFault {
        match fault {
            FileFault::Missing => TestFault::Missing,
            FileFault::Failed => TestFault::Device,
            FileFault::NoMemory => TestFault::NoMemory,
        }
    }
}

impl From<Failed> for TestFault {
    ghost from_gives = { λ _ error. error ≡ Device };

    fn from(_failed: Failed) -> TestFault {
        TestFault::Device
    }
}

impl From<NoTest> for TestFault {
    ghost from_gives = { λ fault error. error ≡ test_fault fault };

    fn from(fault: NoTest) -> TestFault {
        match fault {
            NoTest::Wrong(error) => TestFault::Wrong(error),
            NoTest::NoMemory => TestFault::NoMemory,
        }
    }
}

/// The kind of an error of a test, as that of a text that is read.
fn states_kind(kind: TestFileKind) -> StatesKind
    ensures { result ≡ states_kind kind }
{
    match kind {
        TestFileKind::Test(kind) => StatesKind::Test(kind),
        TestFileKind::WrongArch => StatesKind::WrongArch,
    }
}

impl TestFault {
    /// How a call ends if the file of the test, which the argument `word` names, can't be used.
    pub(crate) fn end_at(self, word: usize) -> StatesEnd
        ensures { result ≡ test_end word self }
    {
        match self {
            TestFault::Missing => StatesEnd::NoFile { word },
            TestFault::Device => StatesEnd::ShelfFault,
            TestFault::Wrong(TestFileError { line, kind }) => StatesEnd::Wrong {
                file: Some(word),
                line,
                kind: states_kind(kind),
            },
            TestFault::NoMemory => StatesEnd::NoMemory,
        }
    }
}

/// The test in the file that the argument at a position names.
pub(crate) fn test_in_file<A: Arch, H: Shelf>(
    alloc: Global,
    words: &Words,
    place: usize,
    shelf: &mut H,
) -> Result<ReadTest<A>, TestFault>
    requires idle { (H.seen shelf.old).mode ≡ Idle }
    requires within { place < length words.now }
    ensures mode { (H.seen shelf.new).mode ≡ Idle }
    ensures files { (H.seen shelf.new).files ≡ (H.seen shelf.old).files }
    ensures file { TestFileTo A.NAME A.writing (H.seen shelf.old) (H.seen shelf.new) (name_at words.now place) result }
{
    let mut piece = [0; PIECE];
    let mut text = Vec::new(alloc);
    let closed = read_named_file(shelf, words, place, &mut piece, &mut text)?;
    closed_test::<A>(alloc, text.as_slice(), closed)
}

/// The test that a file's text is, if closing the file returned `closed`. An error in the text is returned even if
/// closing failed.
fn closed_test<A: Arch>(
    alloc: Global,
    text: &[u8],
    closed: Result<(), Failed>,
) -> Result<ReadTest<A>, TestFault>
    ensures { TestClosedTo A.NAME A.writing text.now closed result }
{
    let test = test_of_text::<A>(alloc, text)?;
    closed?;
    Ok(test)
}
