ghost use Rattle.std.specs.Prelude.{◌≡◌, ◌≤◌, length};
ghost use Rattle.test_maker.specs.{Refusals.{crowded_refusal, crowded_thread, foreign_edge, foreign_refusal, is_crowded, make_refusal, refusal_of}, Made.{Judges}};

use crate::refusal::{CrowdedThread, ForeignEdge, MakeRefusal};
use crate::steps::{Steps, fill_events, fill_observer, steps_of, thread_count};
use arch_trait::{Arch, MAX_STEPS, Step, shape_of};
use coherence_values::{Valued, value};
use cycle_resolve::resolve;
use edge_algebra::Cycle;
use relax_edges::{ArchName, Edge, MAX_EDGES, ObsMode};

/// Says whether the cycle has a test, or the first reason why it has none: `Ok` exactly when `make`
/// makes one. It makes no code.
pub fn accepted<A: Arch>(cycle: &Cycle, mode: ObsMode) -> Result<(), MakeRefusal>
    ensures { Judges make_refusal (refusal_of A.puts cycle.now mode) result }
{
    all_of_arch::<A>(cycle.edges())?;
    let resolution = resolve(cycle);
    let valuation = value(resolution.as_ref()?, mode);
    enough_registers::<A>(valuation.as_ref()?)?;
    Ok(())
}

/// Says whether all edges, at most `MAX_EDGES`, are of the architecture, or which is the first that isn't.
pub fn all_of_arch<A: Arch>(edges: &[Edge]) -> Result<(), ForeignEdge>
    requires { length edges.now ≤ MAX_EDGES }
    ensures { Judges foreign_refusal (foreign_edge A.puts.name edges.now) result }
{
    all_of_name(edges, A::NAME)
}

/// Says whether all edges, at most `MAX_EDGES`, are of the architecture with this name, or which is the first
/// that isn't.
pub fn all_of_name(edges: &[Edge], arch: ArchName) -> Result<(), ForeignEdge>
    requires { length edges.now ≤ MAX_EDGES }
    ensures { Judges foreign_refusal (foreign_edge arch edges.now) result }
{
    for (at, edge) in edges.iter().enumerate() {
        if !edge.of_arch(arch) {
            return Err(ForeignEdge { at: at as u8 });
        }
    }
    Ok(())
}

/// Whether the architecture has enough registers for each thread, or which is the first that needs more.
fn enough_registers<A: Arch>(valued: &Valued) -> Result<(), CrowdedThread>
    ensures { Judges crowded_refusal (crowded_thread A.puts valued.now.edges valued.now.mode) result }
{
    let mut events = Steps::new();
    let mut reads = Steps::new();
    fill_events(valued, &mut events);
    for thread in 0..thread_count(valued) {
        fill_observer(valued, thread, &mut reads);
        if is_crowded::<A>(steps_of(valued, thread, &events, &reads)) {
            return Err(CrowdedThread { thread });
        }
    }
    Ok(())
}

/// Whether the accesses of a thread need more registers than the architecture has.
fn is_crowded<A: Arch>(steps: &[Step]) -> bool
    requires { length steps.now ≤ MAX_STEPS }
    ensures { result ≡ is_crowded A.puts steps.now }
{
    A::need(&shape_of(steps)) > u32::from(A::REGISTERS)
}
