ghost use Rattle.std.specs.Prelude.{◌≡◌, ◌<◌, map, slice_index_or};
ghost use Rattle.cycle_names.specs.{declared.family.Family.TheVariants.{Other}, Families.{all_families, family_edges}};

use crate::filling::Edges;
use crate::summary::FAMILY_COUNT;
use arrayvec::ArrayVec;
use cycle_names::{FAMILIES, edges_of};
use relax_edges::Edge;

/// The edges of the cycle of each family, in the order of the table.
#[derive(Drop)]
pub(crate) struct FamilyCycles {
    cycles: ArrayVec<Edges, FAMILY_COUNT>,
    ghost whole: { map (λ cycle. cycle.items) cycles.items ≡ map family_edges all_families },
}

impl FamilyCycles {
    pub(crate) fn new() -> FamilyCycles {
        let mut cycles = ArrayVec::new();
        for family in &FAMILIES {
            cycles.push(edges_of(*family));
        }
        FamilyCycles { cycles }
    }

    /// The edges of the cycle of the family at an index of the table.
    pub(crate) fn edges(&self, place: usize) -> &[Edge]
        requires { place < 14 }
        ensures { result.now ≡ family_edges (slice_index_or all_families place Other) }
    {
        self.cycles[place].as_slice()
    }
}
