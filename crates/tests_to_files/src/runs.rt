ghost use Rattle.std.specs.Prelude.{◌≡◌, ◌<◌, ◌≤◌, ◌+◌, length};
ghost use Rattle.relax_edges.specs.declared.TheConstants.{MAX_EDGES};
ghost use Rattle.cycle_events.specs.Resolution.{external_count};
ghost use Rattle.tests_to_files.specs.{Plans.{has_few_accesses}, InternalRuns.{next_run, run_after, stays_below}};

use relax_edges::Edge;

/// Whether each own thread of a cycle has at most this many accesses: nowhere around the cycle do as
/// many internal edges come one after another. `None` is no limit.
#[tactic(auto, using(crate::proofs::RunLaws::few_accesses_round), unfolding(crate::specs::Plans::has_few_accesses))]
pub(crate) fn has_few_accesses(cycle: &[Edge], accesses: Option<u8>) -> bool
    requires few { length cycle.now ≤ MAX_EDGES }
    requires threads { 0 < external_count cycle.now }
    ensures { result ≡ has_few_accesses accesses cycle.now }
{
    match accesses {
        Some(most) => stays_below(most, run_after(0, cycle), cycle),
        None => true,
    }
}

/// Whether each run of internal edges in a list is shorter than `many`, if a run of length `run` ends
/// before the list.
pub(crate) fn stays_below(many: u8, run: u8, edges: &[Edge]) -> bool
    ensures { result ≡ stays_below many run edges.now }
{
    match edges {
        [] => run < many,
        [first, rest @ ..] => run < many && stays_below(many, next_run(run, *first), rest),
    }
}

/// The length of the run of internal edges at the end of a list, if a run of length `run` ends before the list.
fn run_after(run: u8, edges: &[Edge]) -> u8
    requires { run + length edges.now ≤ MAX_EDGES }
    ensures { result ≡ run_after run edges.now }
{
    match edges {
        [] => run,
        [first, rest @ ..] => run_after(next_run(run, *first), rest),
    }
}

/// The length of the run of internal edges that ends with an edge, if a run of length `run` ends before it.
fn next_run(run: u8, edge: Edge) -> u8
    requires { run < 255 }
    ensures { result ≡ next_run run edge }
{
    if edge.is_external() { 0 } else { run + 1 }
}
