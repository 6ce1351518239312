ghost use Rattle.std.specs.Prelude.{◌≡◌, ◌↔◌, IfOk, IsTrue, length};
ghost use Rattle.arch_trait.specs.PlaceNames.{number_in};
ghost use Rattle.litmus_text.specs.ReadPrograms.{program_read};
ghost use Rattle.program_meaning.specs.Programs.{IsCandidate};
ghost use Rattle.exec_check.specs.{Verdicts.{Checks, IsVerdict, EndsInCondition}, CheckingSteps.{Judges}};

use crate::edges::edges_on;
use crate::errors::CheckError;
use crate::verdict::{Judged, JudgedEdges, Verdict};
use arch_trait::Arch;
use diy_io::NoMemory;
use exec_meaning::{Execution, final_of, is_candidate, is_coherent};
use exec_text::{ExecError, ExecFault, read_execution};
use final_cond::holds;
use litmus_text::ReadTest;
use std::alloc::Global;

/// The verdict on the execution of a test that a text gives: whether it is a candidate execution of the
/// test, whether it is coherent per location, whether the terms of the condition hold in its final state,
/// and which edges of the cycle that the test quotes stand in it. The text has the form that
/// `exec_text::read_execution` reads. If it gives no execution, the error is its first line with an error and
/// the leftmost error in it. It may return `NoMemory` instead.
pub fn check<A: Arch>(alloc: Global, test: &ReadTest<A>, text: &[u8]) -> Result<Verdict, CheckError>
    ensures { Checks A.NAME (number_in A.writing.registers) test.now text.now result }
{
    let judged = judge(alloc, test, text)?;
    Ok(judged.verdict)
}

/// The execution of a test that a text gives, with the verdict on it, as `check` reads it.
pub(crate) fn judge<A: Arch>(
    alloc: Global,
    test: &ReadTest<A>,
    text: &[u8],
) -> Result<Judged, CheckError>
    ensures { Judges A.NAME (number_in A.writing.registers) test.now text.now result }
{
    match read_execution(alloc, test.threads(), test.places(), text) {
        Ok(exec) => match verdict_on(alloc, test, &exec) {
            Ok(verdict) => Ok(Judged { exec, verdict }),
            Err(NoMemory) => Err(CheckError::NoMemory),
        },
        Err(ExecError::Text(ExecFault { line, kind })) => Err(CheckError::Exec { line, kind }),
        Err(ExecError::NoMemory) => Err(CheckError::NoMemory),
    }
}

/// The verdict on an execution of a test.
pub(crate) fn verdict_on<A: Arch>(
    alloc: Global,
    test: &ReadTest<A>,
    exec: &Execution,
) -> Result<Verdict, NoMemory>
    requires threads { length exec.now.reads ≡ length test.now.threads }
    requires places { length exec.now.orders ≡ length test.now.places }
    ensures { IfOk result (λ v. IsVerdict A.NAME (number_in A.writing.registers) test.now exec.now v) }
{
    if is_candidate(alloc, test, exec)? {
        return verdict_on_candidate(alloc, test, exec);
    }
    Ok(Verdict {
        candidate: false,
        coherent: false,
        condition: false,
        edges: JudgedEdges::new(),
    })
}

/// The verdict on a candidate execution of a test.
fn verdict_on_candidate<A: Arch>(
    alloc: Global,
    test: &ReadTest<A>,
    exec: &Execution,
) -> Result<Verdict, NoMemory>
    requires { IsCandidate (program_read test.now) exec.now }
    ensures { IfOk result (λ v. IsVerdict A.NAME (number_in A.writing.registers) test.now exec.now v) }
{
    let coherent = is_coherent(alloc, test, exec)?;
    let condition = meets_condition(alloc, test, exec)?;
    let edges = edges_on(alloc, test, exec)?;
    Ok(Verdict {
        candidate: true,
        coherent,
        condition,
        edges,
    })
}

/// Whether the terms of the condition hold in the final state of a candidate execution.
fn meets_condition<A: Arch>(
    alloc: Global,
    test: &ReadTest<A>,
    exec: &Execution,
) -> Result<bool, NoMemory>
    requires { IsCandidate (program_read test.now) exec.now }
    ensures { IfOk result (λ answer. IsTrue answer ↔ EndsInCondition (number_in A.writing.registers) test.now exec.now) }
{
    let state = final_of(alloc, test, exec)?;
    Ok(holds(test.cond(), &state))
}
