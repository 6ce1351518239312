//! Critical cycles as cycles of edges: the accesses are the events, and with two threads there are six.

ghost use Rattle.critical_cycles.specs.CriticalLaws.{CandidatesShowCycles, CriticalCyclesHaveEvents, TwoThreadsShowSix};
ghost use Rattle.critical_cycles.specs.Links.{LinkedCyclesHaveEvents};

/// The accesses of a critical cycle are the events of its edges: `Pod**` for each segment, and external
/// communications for each arc.
pub fn critical_cycles_have_events()
    ensures { CriticalCyclesHaveEvents }
{}

/// With any choice of links between neighbours in place of `Pod**`, the accesses of a critical cycle are the
/// events of these edges.
pub fn linked_cycles_have_events()
    ensures { LinkedCyclesHaveEvents }
{}

/// Each coherent candidate execution of a program, whose writes are to the program's locations, is
/// sequentially consistent, or its accesses show a critical cycle.
pub fn candidates_show_cycles()
    ensures { CandidatesShowCycles }
{}

/// With at most two threads, the edges of a critical cycle are SB, MP, R, LB, S or 2+2W.
pub fn two_threads_show_six()
    ensures { TwoThreadsShowSix }
{}
