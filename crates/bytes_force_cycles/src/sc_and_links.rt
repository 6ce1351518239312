//! What printed tests of cycles mean: coherence per location is SC per location, each link may alone be the culprit, links that are
//! kept forbid the outcome, and what it means that the outcome never comes.

ghost use Rattle.bytes_force_cycles.specs.{ScLaws.{PrintedAreScPerLocation, TestsAreScPerLocation}, Links.{ConditionDecides, EachLinkMayBreak, LinksDecide}};

use arch_trait::Arch;

/// On every architecture that keeps the laws, each candidate execution of the test of a cycle is
/// coherent per location exactly when it is SC per location. The same holds for each test that differs
/// from it only in the numbers of its locations.
pub fn tests_are_sc_per_location()
    ensures { TestsAreScPerLocation }
{}

/// On every architecture, each candidate execution of what is read from the printed text of the test of
/// a cycle, under a name of its form, is coherent per location exactly when it is SC per location.
pub fn printed_are_sc_per_location<A: Arch>()
    ensures { PrintedAreScPerLocation A.puts A.NAME A.writing }
{}

/// On every architecture, each internal edge of a cycle to another location may alone be the culprit
/// if the outcome of its printed test is seen: in the intended execution, program order without the
/// pairs across this edge, with reads-from, coherence order and from-read, has no cycle.
pub fn each_link_may_break<A: Arch>()
    ensures { EachLinkMayBreak A.puts A.NAME A.writing }
{}

/// On every architecture, the links of a cycle decide whether the outcome of its printed test can be seen
/// on a machine on which a write reaches all other threads at once. If the machine keeps an order across
/// each edge that orders (program order, a fence, a dependency, a read of the thread's own write), it
/// shows no execution that the test asks for; and each of these edges to another location is needed.
pub fn links_decide<A: Arch>()
    ensures { LinksDecide A.puts A.NAME A.writing }
{}

/// On every architecture, a coherent candidate execution of a printed test without observers meets its
/// condition exactly when all edges of the cycle stand.
pub fn condition_decides<A: Arch>()
    ensures { ConditionDecides A.puts A.NAME A.writing }
{}
