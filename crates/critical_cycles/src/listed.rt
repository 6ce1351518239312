//! The converse: what shows a cycle of `Pod**` edges and arcs is a critical cycle.

ghost use Rattle.critical_cycles.specs.Listed.{ListedAreCritical, StandingIsCritical};

/// If accesses are the events of a resolved cycle that consists of parts, `Pod**` and an arc each, from one of its
/// edges on, they are the accesses of a critical cycle with its edges.
pub fn listed_are_critical()
    ensures { ListedAreCritical }
{}

/// If all edges of such a cycle stand in a candidate execution of a program that makes the accesses of its test,
/// the events of the cycle are the accesses of a critical cycle.
pub fn standing_is_critical()
    ensures { StandingIsCritical }
{}
