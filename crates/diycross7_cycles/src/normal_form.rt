ghost use Rattle.diycross7_cycles.specs.NormalForms.{IsNormalForm};

use arrayvec::ArrayVec;
use edge_algebra::{Cycle, ranks_of};
use relax_edges::MAX_EDGES;

/// The normal form of a cycle, by the ranks of its edges: two cycles have the same exactly when they
/// are rotations of each other.
#[derive(PartialEq, Eq, Hash, Drop)]
pub(crate) struct NormalForm {
    ranks: ArrayVec<u16, MAX_EDGES>,
}

impl NormalForm {
    /// The normal form of a cycle.
    pub(crate) fn of(cycle: &Cycle) -> NormalForm
        ensures { IsNormalForm cycle.now result.ranks.items }
    {
        let least = cycle.least();
        NormalForm {
            ranks: ranks_of(least.edges()),
        }
    }
}
