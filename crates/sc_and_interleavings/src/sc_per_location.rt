//! Coherence per location is SC per location: program order at one location, reads-from, coherence order and from-read have no cycle.

ghost use Rattle.sc_and_interleavings.specs.CoherenceLaws.{CandidatesAreScPerLocation, CoherenceIsScPerLocation, CycleTestsAreScPerLocation};

/// An execution of threads whose writes are to its locations is coherent per location exactly when
/// program order at one location, reads-from, coherence order and from-read together have no cycle.
pub fn coherence_is_sc_per_location()
    ensures { CoherenceIsScPerLocation }
{}

/// The same holds for a candidate execution of a program whose writes there are to its locations.
pub fn candidates_are_sc_per_location()
    ensures { CandidatesAreScPerLocation }
{}

/// The same holds for each candidate execution of a program that makes the accesses of a cycle's test,
/// whatever its reads read.
pub fn cycle_tests_are_sc_per_location()
    ensures { CycleTestsAreScPerLocation }
{}
