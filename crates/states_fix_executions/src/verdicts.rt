//! The verdict of a final state, for any program that writes only to its own locations.

ghost use Rattle.states_fix_executions.specs.VerdictLaws.{OneVerdict, SequentialIsDecided, SequentialIsInterleaved, VerdictIsExact};

/// A candidate execution is sequentially consistent exactly when its accesses can be taken away one by
/// one, each when no other that is left has to come before it.
pub fn sequential_is_decided()
    ensures { SequentialIsDecided }
{}

/// The verdict of a state, found by listing all executions of the accesses that its loads lead to, is
/// exactly the one that holds.
pub fn verdict_is_exact()
    ensures { VerdictIsExact }
{}

/// No two verdicts hold of a state.
pub fn one_verdict()
    ensures { OneVerdict }
{}

/// A state is sequential exactly when an interleaving of the program ends in it.
pub fn sequential_is_interleaved()
    ensures { SequentialIsInterleaved }
{}
