ghost use Rattle.std.specs.Prelude.{◌≡◌, ◌<◌, IfOk, length, map, option_map, slice_get};
ghost use Rattle.program_meaning.specs.Programs.{runs_of, IsCandidate};
ghost use Rattle.litmus_text.specs.ReadPrograms.{program_read};
ghost use Rattle.exec_meaning.specs.EndedRuns.{IsRunIn, AreEndedRuns, ended_run};

use diy_io::NoMemory;
use litmus_text::ReadTest;
use micro_ops::{RunError, Trace, run_thread};
use program_meaning::{Execution, Read};
use std::alloc::{AllocError, Global};

/// The values of these reads.
fn values_of(alloc: Global, reads: &[Read]) -> Result<Vec<u32>, AllocError>
    ensures { IfOk result (λ values. values.items ≡ map (λ r. r.0) reads.now) }
{
    let mut values = Vec::with_capacity(alloc, reads.len())?;
    for read in reads {
        values.push(read.0)?;
    }
    Ok(values)
}

/// The run of a thread on the values of its reads, if it ends and uses them all.
fn run_one<A>(
    alloc: Global,
    test: &ReadTest<A>,
    exec: &Execution,
    thread: u8,
) -> Result<Option<Trace>, NoMemory>
    requires within { thread < length test.now.threads }
    requires threads { length exec.now.reads ≡ length test.now.threads }
    ensures { IfOk result (λ trace. IsRunIn trace (slice_get (runs_of (program_read test.now).threads exec.now.reads) thread)) }
{
    let values = values_of(alloc, exec.reads(thread))?;
    match run_thread(alloc, test.code(thread), test.init(thread), &values) {
        Ok(trace) => Ok(Some(trace)),
        Err(RunError::NoMemory) => Err(NoMemory),
        Err(RunError::Stuck { .. }) => Ok(None),
        Err(RunError::ReadsLeft) => Ok(None),
    }
}

/// The runs of all threads on the values of their reads, if they all end and use them all.
pub(crate) fn run_all<A>(
    alloc: Global,
    test: &ReadTest<A>,
    exec: &Execution,
) -> Result<Option<Vec<Trace>>, NoMemory>
    requires { length exec.now.reads ≡ length test.now.threads }
    ensures { IfOk result (λ traces. AreEndedRuns (option_map (λ list. list.items) traces) (runs_of (program_read test.now).threads exec.now.reads)) }
{
    let mut traces = Vec::new(alloc);
    for thread in 0..test.threads() {
        match run_one(alloc, test, exec, thread)? {
            Some(trace) => traces.push(trace)?,
            None => return Ok(None),
        }
    }
    Ok(Some(traces))
}

/// The runs of all threads in a candidate execution, which end. It may return `NoMemory` instead.
pub fn candidate_runs<A>(
    alloc: Global,
    test: &ReadTest<A>,
    exec: &Execution,
) -> Result<Vec<Trace>, NoMemory>
    requires { IsCandidate (program_read test.now) exec.now }
    ensures { IfOk result (λ traces. runs_of (program_read test.now).threads exec.now.reads ≡ map ended_run traces.items) }
{
    match run_all(alloc, test, exec)? {
        Some(traces) => Ok(traces),
        None => unreachable!(),
    }
}
