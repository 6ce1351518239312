ghost use Rattle.demo_tests.specs.CycleTexts.{CycleTextsShort};

use arch_trait::Arch;

/// On every architecture, for each cycle that isn't refused, the printed text of its test, under the
/// name of the cycle, has at most `MAX_TEST_TEXT` bytes.
pub fn cycle_texts_short<A: Arch>()
    ensures { CycleTextsShort A.puts A.writing }
{}
