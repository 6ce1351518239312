ghost use Rattle.std.specs.{Prelude.{◌≡◌, ◌↔◌, IsFalse, nat_le}, List.{list_all}};
ghost use Rattle.relax_edges.specs.EdgeTable.{is_of_arch};
ghost use Rattle.cycle_events.specs.Resolution.{external_count};
ghost use Rattle.tests_to_files.specs.{Plans.{ends_inside, ends_of_arch, has_few_threads, is_sought, may_lead}, InternalRuns.{HasLongRun}};

use crate::runs::{has_few_accesses, stays_below};
use arch_trait::Arch;
use cycle_enum::is_spread;
use edge_algebra::Cycle;
use relax_edges::{Edge, ObsMode};

/// What is required of a cycle that has a file in a listing, and where the file is.
#[derive(Clone, Copy)]
pub(crate) struct Wanted<'a> {
    pub(crate) threads: u8,
    pub(crate) accesses: Option<u8>,
    pub(crate) mode: ObsMode,
    pub(crate) folder: Option<&'a str>,
}

impl Wanted<'_> {
    /// Whether a required cycle may begin with the edges, if it may with those before the last: the last must be of
    /// the architecture, and, if it leads to another thread, not too many edges may do so. A walk calls this for each
    /// list as it grows, so the edges before an internal one needn't be looked at again.
    #[tactic(auto, unfolding(crate::specs::Plans::may_lead))]
    pub(crate) fn may_lead<A: Arch>(&self, edges: &[Edge]) -> bool
        ensures { result ≡ may_lead A.puts.name self.now.threads edges.now }
    {
        ends_of_arch::<A>(edges) && (ends_inside(edges) || has_few_threads(edges, self.threads))
    }

    /// Whether a required cycle may begin with the edges, by the accesses of its threads: there aren't as many
    /// internal edges one after another as a thread may have accesses, since these join one access more.
    #[tactic(auto, using(crate::proofs::RunLaws::long_run_exactly))]
    pub(crate) fn may_fit(&self, edges: &[Edge]) -> bool
        ensures { IsFalse result ↔ HasLongRun self.now.accesses edges.now }
    {
        match self.accesses {
            Some(most) => stays_below(most, 0, edges),
            None => true,
        }
    }

    /// Whether a cycle is a required one, if it has a test: its edges lead to two threads or more, but to no
    /// more than are allowed, two threads have edges to another location, no thread has too many accesses, and
    /// the edges are of the architecture.
    #[tactic(auto, using(crate::proofs::WantedCycles::two_are_some), unfolding(crate::specs::Plans::is_sought))]
    pub(crate) fn seeks<A: Arch>(&self, cycle: &Cycle) -> bool
        ensures { result ≡ is_sought A.puts.name self.now.threads self.now.accesses cycle.now }
    {
        is_spread(cycle.edges())
            && has_two_threads(cycle.edges())
            && are_of_arch::<A>(cycle.edges())
            && has_few_threads(cycle.edges(), self.threads)
            && has_few_accesses(cycle.edges(), self.accesses)
    }
}

/// Whether the last edge, if there is one, is of the architecture.
fn ends_of_arch<A: Arch>(edges: &[Edge]) -> bool
    ensures { result ≡ ends_of_arch A.puts.name edges.now }
{
    match edges {
        [] => true,
        [.., last] => A::supports(*last),
    }
}

/// Whether the last edge, if there is one, stays in its thread.
fn ends_inside(edges: &[Edge]) -> bool
    ensures { result ≡ ends_inside edges.now }
{
    match edges {
        [] => true,
        [.., last] => !last.is_external(),
    }
}

/// Whether all edges are of the architecture.
fn are_of_arch<A: Arch>(edges: &[Edge]) -> bool
    ensures { result ≡ list_all (λ edge. is_of_arch edge A.puts.name) edges.now }
{
    edges.iter().all(|edge| A::supports(*edge))
}

/// Whether at most `threads` edges lead to another thread.
fn has_few_threads(edges: &[Edge], threads: u8) -> bool
    ensures { result ≡ has_few_threads threads edges.now }
{
    edges.iter().filter(|edge| edge.is_external()).count() <= usize::from(threads)
}

/// Whether two edges or more lead to another thread.
fn has_two_threads(edges: &[Edge]) -> bool
    ensures { result ≡ nat_le 2 (external_count edges.now) }
{
    edges.iter().filter(|edge| edge.is_external()).count() >= 2
}
