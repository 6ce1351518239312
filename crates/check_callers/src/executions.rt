ghost use Rattle.std.specs.Prelude.{◌≡◌, ◌↔◌, IfOk, IsTrue, Ok, length};
ghost use Rattle.arch_trait.specs.PlaceNames.{number_in};
ghost use Rattle.litmus_text.specs.ReadPrograms.{program_read};
ghost use Rattle.program_meaning.specs.{Executions.{Execution}, Programs.{IsCandidate, IsCoherentIn}};
ghost use Rattle.exec_text.specs.ExecutionText.{execution_read};
ghost use Rattle.check_callers.specs.Outcomes.{ShowsOutcome};

use arch_trait::Arch;
use diy_io::NoMemory;
use exec_check::{CheckError, check};
use exec_meaning::{is_candidate, is_coherent};
use exec_text::{ExecError, read_execution};
use litmus_text::ReadTest;
use std::alloc::Global;

/// Whether the execution that a text gives is coherent per location and shows the outcome that its test asks for.
pub fn shows_outcome<A: Arch>(
    alloc: Global,
    test: &ReadTest<A>,
    text: &[u8],
) -> Result<bool, CheckError>
    ensures { IfOk result (λ shows. (x : Execution) × (execution_read (length test.now.threads) test.now.places text.now ≡ Ok x)
        × (IsTrue shows ↔ ShowsOutcome (number_in A.writing.registers) test.now x)) }
{
    let verdict = check(alloc, test, text)?;
    Ok(verdict.coherent && verdict.condition)
}

/// Whether the execution that a text gives is a candidate execution of its test, and coherent per location.
pub fn is_coherent_text<A: Arch>(
    alloc: Global,
    test: &ReadTest<A>,
    text: &[u8],
) -> Result<bool, ExecError>
    ensures { IfOk result (λ coherent. (x : Execution) × (execution_read (length test.now.threads) test.now.places text.now ≡ Ok x)
        × (IsTrue coherent → IsCandidate (program_read test.now) x × IsCoherentIn (program_read test.now) x)) }
{
    let execution = read_execution(alloc, test.threads(), test.places(), text)?;
    match is_candidate(alloc, test, &execution) {
        Ok(true) => {}
        Ok(false) => return Ok(false),
        Err(NoMemory) => return Err(ExecError::NoMemory),
    }
    match is_coherent(alloc, test, &execution) {
        Ok(coherent) => Ok(coherent),
        Err(NoMemory) => Err(ExecError::NoMemory),
    }
}
