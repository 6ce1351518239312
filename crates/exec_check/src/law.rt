ghost use Rattle.exec_check.specs.{Verdicts.{OneVerdict}, ShownTexts.{OneGraph, QuotedArrowsLaw}};

/// An execution of a test has one verdict: all that are right have the same text.
#[tactic(auto, using(crate::proofs::OneVerdict::one_verdict))]
pub fn one_verdict()
    ensures { OneVerdict }
{}

/// An execution of a test has one graph.
pub fn one_graph()
    ensures { OneGraph }
{}

/// The bold arrows of the graph of a candidate execution are those of exactly the edges of the quoted cycle that stand in it,
/// each from the access of its event to that of the next event; the dashed arrows are those of exactly the others that have both
/// accesses.
pub fn quoted_arrows()
    ensures { QuotedArrowsLaw }
{}
