ghost use Rattle.exec_graph.specs.GraphLaws.{DashedArrowsLaw, EndsLaw, NodesLaw, StandingArrowsLaw, ThinArrowsLaw};

/// A graph shows exactly the accesses and the initial writes that some read reads. A pair of these has a thin arrow of program order to
/// the next access, reads-from, coherence order to the next write, from-read or a dependency exactly when that relation leads from the
/// first to the second, and no edge of the cycle stands along it. The dependencies are exactly those that the masks of the accesses name.
pub fn drawn_relations()
    ensures nodes { NodesLaw }
    ensures ends { EndsLaw }
    ensures thin { ThinArrowsLaw }
{}

/// If the edges of a cycle are judged by whether they stand in an execution, the bold arrows are those of exactly the edges that
/// stand in it, each from the access of its event to that of the next event. The dashed arrows are those of exactly the edges that
/// don't stand in it, if both accesses are there.
pub fn drawn_edges()
    ensures bold { StandingArrowsLaw }
    ensures dashed { DashedArrowsLaw }
{}
