ghost use Rattle.std.specs.Prelude.{◌≡◌, None, IfErr};
ghost use Rattle.test_maker.specs.Made.{Judges, NamesLocation};
ghost use Rattle.lines_to_files.specs.{TestFiles.{refusal_in}, PutLines.{IsReady}};

use crate::form::TestForm;
use arch_trait::Arch;
use co_tests::co_test_into;
use edge_algebra::Cycle;
use litmus_text::{KeptTable, Test};
use test_maker::{Refusal, accepted, make_into};

/// Says whether a cycle has a test of a form, or the first reason why it has none. Nothing is known about `test`.
pub(crate) fn judge_cycle<A: Arch>(
    form: TestForm,
    cycle: &Cycle,
    test: &mut Test,
) -> Result<(), Refusal>
    ensures judges { Judges (λ refusal. refusal) (refusal_in A.puts form cycle.now) result }
    ensures located { IfErr result NamesLocation }
{
    // Brings into the proof that the edges make a cycle.
    let _edges = cycle.edges();
    match form {
        TestForm::Observed(mode) => accepted::<A>(cycle, mode)?,
        TestForm::Coherence => co_test_into::<A>(cycle, test)?,
    }
    Ok(())
}

/// Makes `test` the test of a form of a cycle that has one, ready to be printed.
pub(crate) fn make_test<A: Arch>(
    form: TestForm,
    cycle: &Cycle,
    test: &mut Test,
    table: &mut KeptTable,
)
    requires { refusal_in A.puts form cycle.now ≡ None }
    ensures { IsReady A.NAME A.REGISTERS A.puts A.writing form cycle.now test.new table.new }
{
    match form {
        TestForm::Observed(mode) => match make_into::<A>(cycle, mode, test) {
            Ok(()) => table.keep::<A>(test),
            Err(_) => unreachable!(),
        },
        TestForm::Coherence => match co_test_into::<A>(cycle, test) {
            Ok(()) => table.keep::<A>(test),
            Err(_) => unreachable!(),
        },
    }
}
