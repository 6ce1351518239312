ghost use Rattle.std.specs.Prelude.{◌≤◌, length, IfErr};
ghost use Rattle.edge_algebra.specs.Compose.{composed};
ghost use Rattle.test_maker.specs.Made.{NamesLocation};
ghost use Rattle.diy_tools.specs.{KeptRequests.{MakesCycle, edges_kept, refused_edges}, Refused.{refused_list, refused_composing}};

use edge_algebra::{Cycle, cycle};
use edges_from_text::EdgeList;
use relax_edges::{ArchName, Edge, MAX_EDGES};
use test_maker::{Refusal, all_of_name};

/// The cycle of an architecture that edges make, or why they make none.
pub(crate) fn cycle_of_edges(list: &EdgeList, arch: ArchName) -> Result<Cycle, Refusal>
    ensures made { MakesCycle (refused_edges arch list.now) (edges_kept list.now) result }
    ensures location { IfErr result NamesLocation }
{
    match list {
        EdgeList::TooLong => Err(Refusal::TooLong),
        EdgeList::Whole(edges) => cycle_in(edges.as_slice(), arch),
    }
}

fn cycle_in(edges: &[Edge], arch: ArchName) -> Result<Cycle, Refusal>
    requires { length edges.now ≤ MAX_EDGES }
    ensures made { MakesCycle (refused_list arch edges.now) edges.now result }
    ensures location { IfErr result NamesLocation }
{
    if edges.is_empty() {
        return Err(Refusal::Empty);
    }
    all_of_name(edges, arch)?;
    compose(edges)
}

fn compose(edges: &[Edge]) -> Result<Cycle, Refusal>
    ensures made { MakesCycle (refused_composing (composed edges.now)) edges.now result }
    ensures location { IfErr result NamesLocation }
{
    Ok(cycle(edges)?)
}
