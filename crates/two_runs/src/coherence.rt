ghost use Rattle.std.specs.Prelude.{◌≡◌, IfOk};
ghost use Rattle.arch_trait.specs.Writing.{name_in};
ghost use Rattle.litmus_text.specs.{Printable.{IsTestName}, Tests.{test_seen}, TestText.{test_text}};
ghost use Rattle.test_maker.specs.Made.{CanPrint};
ghost use Rattle.co_tests.specs.CoherenceTests.{HasCoherenceTest, coherence_test_of, incoherent_execution};
ghost use Rattle.two_runs.specs.{IntendedRuns.{IsRunOf}, CoherenceRuns.{GivesCoherenceRun}};

use crate::errors::CoherenceError;
use crate::incoherent::incoherent_run;
use crate::intended::IntendedRun;
use crate::printed::read_printed;
use arch_trait::Arch;
use co_tests::{co_test_into, printed_show_incoherence};
use diy_io::NoMemory;
use edge_algebra::Cycle;
use litmus_text::Test;
use std::alloc::Global;

/// The execution that the coherence test of a cycle asks for, and what the text of that test under a name
/// is read as: each read reads the write of its value, and the writes are in the order of their values. No
/// coherent machine shows it.
///
/// If there is a reason why the cycle has no coherence test, the error is the first one; otherwise it may be
/// `NoMemory`.
pub fn coherence_run<A: Arch>(
    alloc: Global,
    cycle: &Cycle,
    name: &str,
) -> Result<IntendedRun<A>, CoherenceError>
    requires named { IsTestName name.now }
    ensures { GivesCoherenceRun A.puts A.writing name.now cycle.now result }
{
    let mut test = Test::new();
    co_test_into::<A>(cycle, &mut test)?;
    Ok(run_of_test::<A>(alloc, &test, name)?)
}

/// The same for a coherence test that has been made.
fn run_of_test<A: Arch>(alloc: Global, test: &Test, name: &str) -> Result<IntendedRun<A>, NoMemory>
    requires named { IsTestName name.now }
    requires has_test { HasCoherenceTest A.puts test.now.edges.items }
    requires made { test_seen test.now ≡ coherence_test_of A.puts (name_in A.writing.registers) test.now.edges.items }
    requires printable { CanPrint A.puts A.REGISTERS test.now }
    ensures { IfOk result (λ given. IsRunOf A.NAME A.writing (test_text A.NAME A.writing name.now (test_seen test.now)) (λ _. incoherent_execution test.now.edges.items) given.test given.run) }
{
    printed_show_incoherence::<A>();
    let read = read_printed::<A>(alloc, test, name)?;
    let run = incoherent_run(alloc, test.edges.as_slice())?;
    Ok(IntendedRun { test: read, run })
}
