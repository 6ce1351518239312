//! Why coherence and a test's final condition force every edge of a cycle, whatever the instructions are.
#![tactic(auto)]

ghost use Rattle.accesses_force_cycles.specs.Laws.{EdgesJoin, OnlyTheIntended, TheIntendedMeets, NoConditionServes, AllEdgesStand, OneOutcome, AnOutcome};

/// Unless the mode refuses the cycle, each edge of a resolved cycle joins its events in every execution
/// of the accesses of its test that is coherent per location and meets its condition: the communication
/// of the edge holds, its events have its directions and are at one location or at two as the edge
/// says, and in one thread, one after the other, or in two.
pub fn edges_join()
    ensures { EdgesJoin }
{}

/// Every such execution is the intended one: every read reads the write of its
/// value, and the writes of each location are in the order of their values.
pub fn only_the_intended()
    ensures { OnlyTheIntended }
{}

/// The intended execution is such an execution.
pub fn the_intended_meets()
    ensures { TheIntendedMeets }
{}

/// If observers are to be avoided and a cycle is refused for this, two coherent executions have
/// the same reads and the same final values, and an edge of the cycle holds in only one of them.
pub fn no_condition_serves()
    ensures { NoConditionServes }
{}

/// Unless the mode refuses the cycle, all edges stand in every outcome of a program that makes the
/// accesses of the cycle's test, with the marks of the edges, with their barriers and dependencies
/// between them, and with nothing else.
pub fn all_edges_stand()
    ensures { AllEdgesStand }
{}

/// Unless the mode refuses the cycle, every outcome of a program that makes these accesses is the
/// intended execution.
pub fn one_outcome()
    ensures { OneOutcome }
{}

/// The intended execution is an outcome of such a program, if the runs on its reads come to their ends.
pub fn an_outcome()
    ensures { AnOutcome }
{}
