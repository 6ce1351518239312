ghost use Rattle.std.specs.Prelude.{◌≡◌, IfErr, IfOk, None, Ok};
ghost use Rattle.cycle_events.specs.{Resolution.{resolution_of, turned}, Values.{valuation_of}};
ghost use Rattle.arch_trait.specs.Writing.{name_in};
ghost use Rattle.litmus_text.specs.{Printable.{IsTestName}, Tests.{test_seen}};
ghost use Rattle.tests_force_cycles.specs.{TestHeadline.{HasTest}, TestOf.{test_of}};
ghost use Rattle.test_maker.specs.{Made.{CanPrint}, Refusals.{refusal_of}};
ghost use Rattle.two_runs.specs.{IntendedRuns.{GivesRun, RunNamesLocation}, Runs.{numbers_by, run_by}};

use crate::errors::IntendedError;
use crate::printed::read_printed;
use crate::run::run_of;
use arch_trait::{Arch, Places};
use bytes_force_cycles::printed_tests_force;
use coherence_values::value;
use cycle_resolve::resolve;
use diy_io::NoMemory;
use edge_algebra::Cycle;
use exec_meaning::Execution;
use litmus_text::{ReadTest, Test};
use relax_edges::ObsMode;
use std::alloc::Global;
use test_maker::make_into;

/// A test as its printed text is read, and the execution that it asks for.
#[derive(Drop)]
pub struct IntendedRun<A> {
    /// What the text of the test is read as.
    pub test: ReadTest<A>,
    /// The execution, which numbers the locations as the test does. Its text is read as it.
    pub run: Execution,
}

/// The execution that the test of a cycle asks for, and what the text of that test under a name is read
/// as: each read reads the write of its value, each location has its writes in the order of their values, and
/// an observer reads the writes of its location one after the other.
///
/// If there is a reason why the cycle has no test, the error is the first one; otherwise it may be `NoMemory`.
pub fn intended_run<A: Arch>(
    alloc: Global,
    cycle: &Cycle,
    mode: ObsMode,
    name: &str,
) -> Result<IntendedRun<A>, IntendedError>
    requires named { IsTestName name.now }
    ensures given { GivesRun A.puts A.writing name.now cycle.now mode result }
    ensures located { IfErr result RunNamesLocation }
{
    let mut test = Test::new();
    make_into::<A>(cycle, mode, &mut test)?;
    run_of_made::<A>(alloc, cycle, mode, &test, name)
}

/// The same for a cycle whose test has been made.
fn run_of_made<A: Arch>(
    alloc: Global,
    cycle: &Cycle,
    mode: ObsMode,
    test: &Test,
    name: &str,
) -> Result<IntendedRun<A>, IntendedError>
    requires named { IsTestName name.now }
    requires accepted { refusal_of A.puts cycle.now mode ≡ None }
    requires has_test { HasTest A.puts (turned cycle.now) mode }
    requires made { test_seen test.now ≡ test_of A.puts (name_in A.writing.registers) (turned cycle.now) mode }
    requires printable { CanPrint A.puts A.REGISTERS test.now }
    ensures given { GivesRun A.puts A.writing name.now cycle.now mode result }
    ensures located { IfErr result RunNamesLocation }
{
    printed_tests_force::<A>();
    let test = read_printed::<A>(alloc, test, name)?;
    let run = run_of_cycle(alloc, cycle, mode, test.places())?;
    Ok(IntendedRun { test, run })
}

/// The intended execution of a cycle's test, whose locations have these names, in this order.
fn run_of_cycle(
    alloc: Global,
    cycle: &Cycle,
    mode: ObsMode,
    places: &Places,
) -> Result<Execution, NoMemory>
    requires resolved { resolution_of cycle.now ≡ Ok (turned cycle.now) }
    requires valued { valuation_of (turned cycle.now) mode ≡ Ok (record { edges = turned cycle.now; mode = mode }) }
    ensures { IfOk result (λ run. run ≡ run_by (turned cycle.now) mode None (numbers_by places.now)) }
{
    match &resolve(cycle) {
        Ok(resolved) => match value(resolved, mode) {
            Ok(valued) => run_of(alloc, &valued, places, None),
            Err(_) => unreachable!(),
        },
        Err(_) => unreachable!(),
    }
}
