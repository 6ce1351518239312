ghost use Rattle.std.specs.Prelude.{◌≡◌, IfOk, Ok};
ghost use Rattle.litmus_text.specs.{Tests.{test_seen}, TestText.{test_text}, TestReading.{test_read}};
ghost use Rattle.test_maker.specs.Made.{CanPrint};
ghost use Rattle.two_runs.specs.IntendedRuns.{IsRead};

use crate::text::text_of;
use arch_trait::Arch;
use diy_io::NoMemory;
use litmus_text::{ReadError, ReadTest, Test, read_test};
use std::alloc::Global;

/// What the text of a test under a name is read as.
pub(crate) fn read_printed<A: Arch>(
    alloc: Global,
    test: &Test,
    name: &str,
) -> Result<ReadTest<A>, NoMemory>
    requires printable { CanPrint A.puts A.REGISTERS test.now }
    requires reads { IsRead A.NAME A.writing (test_text A.NAME A.writing name.now (test_seen test.now)) }
    ensures { IfOk result (λ read. test_read A.NAME A.writing (test_text A.NAME A.writing name.now (test_seen test.now)) ≡ Ok read) }
{
    let text = text_of::<A>(alloc, test, name)?;
    read_text::<A>(alloc, text.as_slice())
}

/// What the bytes of a test's text are read as.
pub(crate) fn read_text<A: Arch>(alloc: Global, bytes: &[u8]) -> Result<ReadTest<A>, NoMemory>
    requires { IsRead A.NAME A.writing bytes.now }
    ensures { IfOk result (λ test. test_read A.NAME A.writing bytes.now ≡ Ok test) }
{
    match read_test::<A>(alloc, bytes) {
        Ok(test) => Ok(test),
        Err(ReadError::NoMemory) => Err(NoMemory),
        Err(ReadError::Text(_)) => unreachable!(),
    }
}
