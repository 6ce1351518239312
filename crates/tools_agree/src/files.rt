//! Texts of tests: what classify7 makes of those that diyone7 and diy7 print.

ghost use Rattle.tools_agree.specs.SaidCycles.{TestsSayCycles, CoherenceTestsSayCycles, TurnedHaveFamilies, ListedAreAccepted, CrossedAreAccepted, TextsSayCycles, FilesAreClassified};

use arch_trait::Arch;

/// On every architecture, the printed text of the test of a cycle that isn't refused says the cycle, in the rotation in which
/// the text quotes its edges: the first whose last edge leads to another thread.
pub fn tests_say_cycles<A: Arch>()
    ensures { TestsSayCycles A.puts A.writing }
{}

/// On every architecture, the printed text of the coherence test of a cycle that isn't refused says the cycle in this rotation too.
pub fn coherence_tests_say_cycles<A: Arch>()
    ensures { CoherenceTestsSayCycles A.puts A.writing }
{}

/// Cycles in this rotation have the names and the families that they had.
pub fn turned_have_families()
    ensures { TurnedHaveFamilies }
{}

/// The cycles of a listing have tests that nothing refuses.
pub fn listed_are_accepted()
    ensures { ListedAreAccepted }
{}

/// So have the cycles of choices.
pub fn crossed_are_accepted()
    ensures { CrossedAreAccepted }
{}

/// On every architecture, the texts of the tests of such cycles, as diy7 and diycross7 write them, say these cycles, in order.
pub fn texts_say_cycles<A: Arch>()
    ensures { TextsSayCycles A.puts A.writing }
{}

/// On every architecture, if the files that the arguments of classify7 name have these texts, in order, it writes the families of the
/// cycles, unless a device fails or there is no memory.
pub fn files_are_classified<A: Arch>()
    ensures { FilesAreClassified A.puts A.writing }
{}
