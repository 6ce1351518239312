//! A candidate execution without a cycle in program order, reads-from, coherence order and from-read is an interleaving's, and back.

ghost use Rattle.sc_and_interleavings.specs.SequentialLaws.{AlongIsSequential, SequentialGoesAlong};

/// Each candidate execution whose writes are to the program's locations, and in which program order,
/// reads-from, coherence order and from-read have no cycle, goes along an interleaving of the program.
pub fn sequential_goes_along()
    ensures { SequentialGoesAlong }
{}

/// In each candidate execution that goes along an interleaving of the program, these have no cycle.
pub fn along_is_sequential()
    ensures { AlongIsSequential }
{}
