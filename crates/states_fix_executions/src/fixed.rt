//! Final states that fix an execution: reads by their values, orders of writes by final values.

ghost use Rattle.states_fix_executions.specs.FixedLaws.{ExecutionIsFixed, LookingDecides, OnlyTheRebuilt, ReadsAreFixed, RebuiltDecides};

/// If each write to a location has a value of its own, which isn't the initial value, a state fixes what
/// each read reads.
pub fn reads_are_fixed()
    ensures { ReadsAreFixed }
{}

/// If moreover each location has at most one write, or at most two and its final value is given, at most
/// one candidate execution ends in the state.
pub fn execution_is_fixed()
    ensures { ExecutionIsFixed }
{}

/// That one is the execution rebuilt from the state.
pub fn only_the_rebuilt()
    ensures { OnlyTheRebuilt }
{}

/// So the verdict of the state is found by looking at the rebuilt execution alone.
pub fn rebuilt_decides()
    ensures { RebuiltDecides }
{}

/// Wherever at most one candidate execution ends in a state, the verdict is found by looking at that
/// one alone.
pub fn looking_decides()
    ensures { LookingDecides }
{}
