ghost use Rattle.std.specs.Prelude.{◌≡◌, List, Ok, Some};
ghost use Rattle.relax_edges.specs.declared.edge.Edge.{Edge};
ghost use Rattle.cycle_events.specs.{Resolution.{resolution_of}, Values.{observer_need}};
ghost use Rattle.litmus_text.specs.Printable.{IsTestName};
ghost use Rattle.test_maker.specs.Made.{AreOfArch};
ghost use Rattle.two_runs.specs.Shown.{Shows, ShowsNeed, ShowsResolution, ShowsResolved};

use crate::errors::WhyError;
use crate::printed::read_text;
use crate::printed_undecided;
use crate::run::run_of;
use crate::text::text_unobserved;
use arch_trait::Arch;
use coherence_values::{NeedsObserver, value, value_unobserved};
use cycle_resolve::{Resolved, resolve};
use diy_io::NoMemory;
use edge_algebra::Cycle;
use exec_meaning::Execution;
use litmus_text::ReadTest;
use relax_edges::ObsMode;
use std::alloc::Global;
use test_maker::{all_of_arch, resolved_edges};

/// A test without observers, and two executions of it that no condition on the final state tells apart.
#[derive(Drop)]
pub struct TwoRuns<A> {
    /// The text of the test.
    pub text: Vec<u8>,
    /// What that text is read as. Both executions number the locations as it does.
    pub test: ReadTest<A>,
    /// The intended execution, in which all edges of the cycle stand.
    pub one: Execution,
    /// The same, except that the write that needs an observer is exchanged with the write before it in the
    /// coherence order: the edge into that write doesn't stand.
    pub two: Execution,
}

/// Shows why the mode avoid refuses a cycle in which a write needs an observer: the text of the cycle's test
/// without observers under a name, and two executions of what that text is read as. Both are candidate
/// executions, are coherent per location and have one final state, so that each condition on it that
/// is met by the first is met by the second; all edges stand in the first, and the edge into the write
/// doesn't in the second. The write is the one that the mode refuses: in the lowest location that needs
/// an observer, the first one in coherence order that needs it.
///
/// The error is the first of these reasons that holds: `NotOfArch`, `TooFewThreads`, `CoherenceOnly`, `NothingToShow`
/// and `TooManyRegisters` (there are no observers among the threads). If none holds, it may be `NoMemory`.
pub fn two_runs<A: Arch>(alloc: Global, cycle: &Cycle, name: &str) -> Result<TwoRuns<A>, WhyError>
    requires named { IsTestName name.now }
    ensures { Shows A.puts A.writing name.now cycle.now result }
{
    resolved_edges();
    all_of_arch::<A>(cycle.edges())?;
    runs_of_arch(alloc, cycle, name)
}

fn runs_of_arch<A: Arch>(alloc: Global, cycle: &Cycle, name: &str) -> Result<TwoRuns<A>, WhyError>
    requires of_arch { (es : List Edge) → resolution_of cycle.now ≡ Ok es → AreOfArch A.puts es }
    requires named { IsTestName name.now }
    ensures { ShowsResolution A.puts A.writing name.now (resolution_of cycle.now) result }
{
    match &resolve(cycle) {
        Err(error) => Err(WhyError::from(error)),
        Ok(resolved) => runs_of_resolved(alloc, resolved, name),
    }
}

fn runs_of_resolved<A: Arch>(
    alloc: Global,
    resolved: &Resolved,
    name: &str,
) -> Result<TwoRuns<A>, WhyError>
    requires of_arch { AreOfArch A.puts resolved.now }
    requires named { IsTestName name.now }
    ensures { ShowsResolved A.puts A.writing name.now resolved.now (observer_need resolved.now) result }
{
    match value(resolved, ObsMode::Avoid) {
        Ok(_) => Err(WhyError::NothingToShow),
        Err(need) => runs_of_need(alloc, resolved, need, name),
    }
}

fn runs_of_need<A: Arch>(
    alloc: Global,
    resolved: &Resolved,
    need: NeedsObserver,
    name: &str,
) -> Result<TwoRuns<A>, WhyError>
    requires of_arch { AreOfArch A.puts resolved.now }
    requires needs { observer_need resolved.now ≡ Some need }
    requires named { IsTestName name.now }
    ensures { ShowsNeed A.puts A.writing name.now resolved.now need result }
{
    printed_undecided::<A>();
    let text = text_unobserved::<A>(alloc, resolved, name)?;
    let test = read_text::<A>(alloc, text.as_slice())?;
    let valued = value_unobserved(resolved);
    let one = run_of(alloc, &valued, test.places(), None)?;
    let two = run_of(alloc, &valued, test.places(), Some(need.event))?;
    Ok(TwoRuns {
        text,
        test,
        one,
        two,
    })
}
