use arrayvec::ArrayVec;
use exec_meaning::Execution;
use relax_edges::{Edge, MAX_EDGES};

/// The edges of a cycle, each with whether it stands.
pub type JudgedEdges = ArrayVec<(Edge, bool), MAX_EDGES>;

/// What is said of an execution of a test.
#[derive(Drop)]
pub struct Verdict {
    /// Whether it is a candidate execution of the test. If it isn't, nothing more is said: the two fields that
    /// follow are `false`, and there are no edges.
    pub candidate: bool,
    /// Whether it is coherent per location.
    pub coherent: bool,
    /// Whether the terms of the test's condition hold in its final state.
    pub condition: bool,
    /// The edges of the cycle that the test quotes, in the rotation in which threads are counted, each with whether
    /// it stands. There are none if the test quotes no cycle of its architecture that has a resolution.
    pub edges: JudgedEdges,
}

/// An execution of a test, with the verdict on it.
#[derive(Drop)]
pub(crate) struct Judged {
    pub(crate) exec: Execution,
    pub(crate) verdict: Verdict,
}
