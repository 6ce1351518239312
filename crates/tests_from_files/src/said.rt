ghost use Rattle.std.specs.Prelude.{◌≡◌, Ok};
ghost use Rattle.tests_from_files.specs.{declared.errors.NoTest.TheVariants.{Wrong}, declared.errors.TestFileKind.TheVariants.{Test}};
ghost use Rattle.tests_from_files.specs.TestSaid.{is_arch, headed_said, test_said, SaysTestInMemory};

use crate::errors::{NoTest, TestFileError, TestFileKind};
use arch_trait::Arch;
use litmus_text::{MAX_TEST_TEXT, ReadError, ReadTest, TestKind, TextError, arch_of, read_test};
use relax_edges::ArchName;
use std::alloc::Global;

/// The line of a test that names its architecture.
const HEADER_LINE: u64 = 1;

/// The test of an architecture that a text is, or the text's first error: too many bytes come first, then the header,
/// then another architecture, then the rest of the text. `NoMemory` may come for any text.
#[tactic(auto, unfolding(crate::specs::TestSaid::test_said))]
pub fn test_of_text<A: Arch>(alloc: Global, text: &[u8]) -> Result<ReadTest<A>, NoTest>
    ensures { SaysTestInMemory result (test_said A.NAME A.writing text.now) }
{
    if text.len() > MAX_TEST_TEXT {
        return Err(fault_at_line(TestFileKind::Test(TestKind::TooLarge), HEADER_LINE));
    }
    match arch_of(text) {
        Ok(named) => test_of_headed::<A>(alloc, named, text),
        Err(error) => Err(no_test(error)),
    }
}

/// The same for a text whose header names an architecture.
fn test_of_headed<A: Arch>(
    alloc: Global,
    named: ArchName,
    text: &[u8],
) -> Result<ReadTest<A>, NoTest>
    ensures { SaysTestInMemory result (headed_said A.NAME A.writing text.now (Ok named)) }
{
    if !is_arch(named, A::NAME) {
        return Err(fault_at_line(TestFileKind::WrongArch, HEADER_LINE));
    }
    match read_test::<A>(alloc, text) {
        Ok(test) => Ok(test),
        Err(ReadError::Text(error)) => Err(no_test(error)),
        Err(ReadError::NoMemory) => Err(NoTest::NoMemory),
    }
}

fn is_arch(named: ArchName, asked: ArchName) -> bool
    ensures { result ≡ is_arch named asked }
{
    named == asked
}

/// An error of this kind at a line.
fn fault_at_line(kind: TestFileKind, line: u64) -> NoTest
    ensures { result ≡ Wrong (record { line = line; kind = kind }) }
{
    NoTest::Wrong(TestFileError { line, kind })
}

/// The error of a text that is no test.
fn no_test(error: TextError) -> NoTest
    ensures { result ≡ Wrong (record { line = error.line; kind = Test error.kind }) }
{
    fault_at_line(TestFileKind::Test(error.kind), error.line)
}
