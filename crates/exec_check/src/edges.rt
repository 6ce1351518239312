ghost use Rattle.std.specs.Prelude.{◌≡◌, IfOk};
ghost use Rattle.litmus_text.specs.ReadPrograms.{program_read};
ghost use Rattle.program_meaning.specs.Programs.{IsCandidate};
ghost use Rattle.exec_graph.specs.JudgedCycles.{AreJudged, JudgesEdges};
ghost use Rattle.exec_check.specs.Verdicts.{judged_cycle, resolved_cycle};

use crate::verdict::JudgedEdges;
use arch_trait::Arch;
use cycle_resolve::{Resolved, resolve};
use cycles_from_lines::quoted_cycle;
use diy_io::NoMemory;
use edge_algebra::Cycle;
use exec_meaning::{Execution, edge_stands};
use litmus_text::ReadTest;
use std::alloc::Global;

/// Which edges of the cycle that a test quotes stand in a candidate execution of it. There are none if it
/// quotes no cycle of the architecture that has a resolution.
pub(crate) fn edges_on<A: Arch>(
    alloc: Global,
    test: &ReadTest<A>,
    exec: &Execution,
) -> Result<JudgedEdges, NoMemory>
    requires { IsCandidate (program_read test.now) exec.now }
    ensures { IfOk result (λ judged. JudgesEdges (judged_cycle A.NAME test.now) (program_read test.now) exec.now judged.items) }
{
    match resolved_cycle(quoted_cycle(A::NAME, test.quoted())) {
        Some(resolved) => edges_of(alloc, test, exec, &resolved),
        None => Ok(JudgedEdges::new()),
    }
}

/// The resolution of a cycle, if there is a cycle and it has one.
pub(crate) fn resolved_cycle(cycle: Option<Cycle>) -> Option<Resolved>
    ensures { result ≡ resolved_cycle cycle }
{
    match cycle {
        Some(cycle) => resolve(&cycle).ok(),
        None => None,
    }
}

/// The edges of a cycle, each with whether it stands in a candidate execution of a test.
fn edges_of<A: Arch>(
    alloc: Global,
    test: &ReadTest<A>,
    exec: &Execution,
    resolved: &Resolved,
) -> Result<JudgedEdges, NoMemory>
    requires { IsCandidate (program_read test.now) exec.now }
    ensures { IfOk result (λ judged. AreJudged resolved.now (program_read test.now) exec.now judged.items) }
{
    let cycle = resolved.cycle();
    let mut judged = JudgedEdges::new();
    for i in 0..cycle.len() {
        let stands = edge_stands(alloc, test, exec, resolved, i)?;
        judged.push((cycle.edge(i), stands));
    }
    Ok(judged)
}
