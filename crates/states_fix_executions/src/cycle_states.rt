//! States of the test of a cycle.

ghost use Rattle.states_fix_executions.specs.CycleStates.{CyclesAreDecided, CyclesAreRebuilt, StarredIsRelaxed};

/// Unless the mode refuses the cycle, the state that the condition of its test asks for is relaxed: a
/// coherent candidate execution ends in it, and none that is sequentially consistent.
pub fn starred_is_relaxed()
    ensures { StarredIsRelaxed }
{}

/// If the test of a cycle has at most two writes to each location, and a state gives the final values of
/// the locations with two, only the rebuilt execution can be a candidate that ends in the state.
pub fn cycles_are_rebuilt()
    ensures { CyclesAreRebuilt }
{}

/// Then the verdict of the state is found by looking at the rebuilt execution alone.
pub fn cycles_are_decided()
    ensures { CyclesAreDecided }
{}
