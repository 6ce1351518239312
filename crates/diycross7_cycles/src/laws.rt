ghost use Rattle.diycross7_cycles.specs.Laws.{CrossesAll};

/// Each of the crossed cycles is a choice of one relaxation from each list, joined, that is a cycle with a test; no
/// two of them are rotations of each other; and each choice that is a cycle with a test is a rotation of one of them.
#[tactic(auto, using(crate::proofs::CrossedCycles::crosses_all))]
pub fn crosses_all()
    ensures { CrossesAll }
{}
