ghost use Rattle.std.specs.Prelude.{◌≡◌, IfOk, Ok, length};
ghost use Rattle.litmus_text.specs.TestReading.{TestRead, test_read};

use arch_trait::Arch;
use litmus_text::{ReadError, read_test};
use std::alloc::Global;

/// How many threads the test has that a text is read as, as a test of an architecture.
pub fn thread_count<A: Arch>(alloc: Global, text: &[u8]) -> Result<u8, ReadError>
    ensures { IfOk result (λ count. (test : TestRead) × (test_read A.NAME A.writing text.now ≡ Ok test) × (count ≡ length test.threads)) }
{
    let test = read_test::<A>(alloc, text)?;
    Ok(test.threads())
}
