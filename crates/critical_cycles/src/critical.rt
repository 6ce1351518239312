//! Sequential consistency and critical cycles: a coherent execution has exactly one of both, and a critical cycle is short.

ghost use Rattle.critical_cycles.specs.CriticalLaws.{CriticalCyclesAreShort, CriticalIsNotSequential, SequentialOrCritical};

/// An execution that is coherent per location, and whose writes are to its locations, is sequentially
/// consistent or has a critical cycle.
pub fn sequential_or_critical()
    ensures { SequentialOrCritical }
{}

/// An execution that has a critical cycle isn't sequentially consistent.
pub fn critical_is_not_sequential()
    ensures { CriticalIsNotSequential }
{}

/// A critical cycle goes through at most as many threads as there are, and has at most twice as many
/// edges.
pub fn critical_cycles_are_short()
    ensures { CriticalCyclesAreShort }
{}
