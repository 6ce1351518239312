ghost use Rattle.co_tests.specs.{Arc.{ValuesCountAlongArc}, Incoherence.{AcceptedHaveTests, PrintedShowIncoherence}};

use arch_trait::Arch;

/// The value of an event in the coherence test of a cycle that has one is the number of writes on the arc
/// up to and including it. The arc begins with the event that the cut enters and goes once round.
pub fn values_count_along_arc()
    ensures { ValuesCountAlongArc }
{}

/// A cycle that isn't refused has a coherence test, once it is rotated so that its last edge leads to another thread.
pub fn accepted_have_tests<A: Arch>()
    ensures { AcceptedHaveTests A.puts }
{}

/// On every architecture, the printed text of each coherence test, under a name of its form, is read as a test whose
/// condition exactly one candidate execution meets: in it all edges of the cycle stand, program order at one
/// location, reads-from, coherence order and from-read have a cycle, and it isn't coherent.
pub fn printed_show_incoherence<A: Arch>()
    ensures { PrintedShowIncoherence A.puts A.NAME A.writing }
{}
