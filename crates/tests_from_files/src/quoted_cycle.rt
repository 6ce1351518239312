ghost use Rattle.std.specs.Prelude.{◌≡◌};
ghost use Rattle.tests_from_files.specs.{QuotedCycle.{cycle_or_fault, text_said}};
ghost use Rattle.tests_from_files.specs.Read.{SaysCycleInMemory};

use crate::classified_errors::{FileError, FileKind, TextFault};
use crate::{NoTest, test_of_text};
use arch_trait::Arch;
use cycles_from_lines::quoted_cycle;
use edge_algebra::Cycle;
use std::alloc::Global;

/// The line of a test that quotes its cycle.
const QUOTED_LINE: u64 = 2;

/// The cycle that a text quotes as a test, or the text's first error: those of a test come first, and then that it
/// quotes no cycle.
#[tactic(auto, unfolding(crate::specs::QuotedCycle::text_said))]
pub(crate) fn cycle_of_text<A: Arch>(alloc: Global, text: &[u8]) -> Result<Cycle, TextFault>
    ensures { SaysCycleInMemory result (text_said A.NAME A.writing text.now) }
{
    match test_of_text::<A>(alloc, text) {
        Ok(test) => cycle_or_fault(quoted_cycle(A::NAME, test.quoted())),
        Err(NoTest::Wrong(error)) => Err(TextFault::Wrong(FileError::of_test(error))),
        Err(NoTest::NoMemory) => Err(TextFault::NoMemory),
    }
}

fn cycle_or_fault(cycle: Option<Cycle>) -> Result<Cycle, TextFault>
    ensures { SaysCycleInMemory result (cycle_or_fault cycle) }
{
    cycle.ok_or(TextFault::Wrong(FileError {
        line: QUOTED_LINE,
        kind: FileKind::NoCycle,
    }))
}
