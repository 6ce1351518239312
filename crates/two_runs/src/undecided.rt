//! If the mode avoid refuses a cycle because a write needs an observer, no condition on the final state would have sufficed.

ghost use Rattle.two_runs.specs.Undecided.{PrintedUndecided, TestsUndecided};

use arch_trait::Arch;

/// On every architecture that keeps the laws: if the mode avoid refuses a cycle because a write needs an observer,
/// and the cycle's test without observers has code, two coherent executions of this test have one final state. All
/// edges stand in the first, and the edge into that write doesn't in the second, so that no condition on the final
/// state would have sufficed. The same holds for each test that is the same except for the numbers of locations.
pub fn tests_undecided()
    ensures { TestsUndecided }
{}

/// On every architecture, the printed text of that test, under a name that tests may have, is read as a test
/// for which the same holds.
pub fn printed_undecided<A: Arch>()
    ensures { PrintedUndecided A.puts A.NAME A.writing }
{}
