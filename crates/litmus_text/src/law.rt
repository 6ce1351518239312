ghost use Rattle.std.specs.Prelude.{ℕ, List};
ghost use Rattle.arch_trait.specs.SeenTests.{TestSeen};
ghost use Rattle.litmus_text.specs.{Reread.{IsReadable}, TestReadsBack.{TestReadsBack}};

use arch_trait::Arch;

/// A law: the text that `print_test` writes for a test under a name is read as that test, except for
/// the numbers of its locations, if the test is as `IsReadable` says.
pub fn printed_reads_back<A: Arch>()
    ensures { (name : List ℕ) → (test : TestSeen) → IsReadable A.puts A.NAME A.writing name test → TestReadsBack A.NAME A.writing name test }
{}
