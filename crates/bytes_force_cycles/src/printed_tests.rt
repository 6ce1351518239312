//! The printed text of the test of a cycle, and what its bytes mean: they are read as a test that forces the cycle.

ghost use Rattle.bytes_force_cycles.specs.PrintedHeadline.{TestsReadable, PrintedForce};

use arch_trait::Arch;

/// On every architecture, the test of each cycle that has one is, under a name of its form, within
/// the limits of the format, so that its printed text reads back.
pub fn tests_readable<A: Arch>()
    ensures { TestsReadable A.puts A.NAME A.writing }
{}

/// On every architecture, the printed text of the test of each cycle that has one, under a name of its
/// form, forces the cycle: its bytes are read as a test, no interleaving and no sequentially consistent
/// candidate execution of that reading meets its condition, all edges of the cycle stand in every
/// candidate execution that is coherent per location and meets it, there is one such execution, the
/// intended one, and no other.
pub fn printed_tests_force<A: Arch>()
    ensures { PrintedForce A.puts A.NAME A.writing }
{}
