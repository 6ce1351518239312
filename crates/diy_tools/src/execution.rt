ghost use Rattle.std.specs.Prelude.{◌≡◌, IfOk, length};
ghost use Rattle.arch_trait.specs.Threads.{Puts};
ghost use Rattle.litmus_text.specs.Printable.{IsTestName};
ghost use Rattle.diy_words.specs.Given.{HasForm};
ghost use Rattle.diy_words.specs.declared.request.Request.TheVariants as requests;
ghost use Rattle.diy_tools.specs.{ArchMachines.{machine, machine_of}, KeptRequests.{AnswersIntended, AnswersIncoherent, RunsOn, LoopRunsOn, PrintsShown}};
ghost use Rattle.diy_tools.specs.{ExecutionAnswers.{Shows}, PrintAnswers.{Prints}};
ghost use Rattle.run_status.specs.{Report.{StatusNamesLocation}};

use crate::machines::on_machine;
use crate::testing::{cycle_on, name_for};
use arch_trait::Arch;
use diy_io::{Failed, NoMemory, Sink};
use diy_words::{Coherence, DiyOne, ExecutionForm};
use edge_algebra::Cycle;
use exec_check::draw_execution;
use exec_text::write_execution;
use relax_edges::{ArchName, ObsMode};
use run_status::{Device, Status};
use std::alloc::Global;
use test_maker::Refusal;
use two_runs::{CoherenceError, IntendedError, IntendedRun, coherence_run, intended_run};

/// Prints the execution that the test of the requested cycle asks for, in a form.
#[tactic(auto, using(crate::proofs::ExecutionAnswers::intended_on))]
pub(crate) fn execution<O: Sink>(
    alloc: Global,
    form: ExecutionForm,
    request: &DiyOne,
    out: &mut O,
) -> Status
    requires form { HasForm (requests.Execution form request.now) }
    ensures answers { AnswersIntended form (machine_of request.now.arch) request.now result (O.seen out.old) (O.seen out.new) }
    ensures location { StatusNamesLocation result }
{
    on_machine!(request.arch, execution_on[O](alloc, form, request, out))
}

/// Prints it on an architecture.
#[inline(never)]
fn execution_on<A: Arch, O: Sink>(
    alloc: Global,
    form: ExecutionForm,
    request: &DiyOne,
    out: &mut O,
) -> Status
    requires form { HasForm (requests.Execution form request.now) }
    ensures answers { AnswersIntended form (machine A.puts A.writing) request.now result (O.seen out.old) (O.seen out.new) }
    ensures location { StatusNamesLocation result }
{
    match cycle_on::<A>(&request.edges) {
        Err(refusal) => Status::Refused(refusal),
        Ok(cycle) => {
            let name = name_for(&request.name, &cycle);
            print_intended::<A, O>(alloc, form, &cycle, request.mode, name.as_str(), out)
        }
    }
}

/// Prints the execution that the test of a cycle, under a name, asks for.
fn print_intended<A: Arch, O: Sink>(
    alloc: Global,
    form: ExecutionForm,
    cycle: &Cycle,
    mode: ObsMode,
    name: &str,
    out: &mut O,
) -> Status
    requires named { IsTestName name.now }
    ensures answers { RunsOn form A.puts A.writing mode name.now cycle.now result (O.seen out.old) (O.seen out.new) }
    ensures location { StatusNamesLocation result }
{
    match intended_run::<A>(alloc, cycle, mode, name) {
        Ok(given) => print_run::<A, O>(alloc, form, &given, out),
        Err(IntendedError::Refused(refusal)) => Status::Refused(Refusal::from(refusal)),
        Err(IntendedError::NoMemory) => Status::NoMemory,
    }
}

/// Prints the execution that the coherence test of the requested cycle asks for.
#[tactic(auto, using(crate::proofs::ExecutionAnswers::incoherent_on))]
pub(crate) fn coherence_execution<O: Sink>(
    alloc: Global,
    form: ExecutionForm,
    request: &Coherence,
    out: &mut O,
) -> Status
    requires form { HasForm (requests.CoherenceExecution form request.now) }
    ensures answers { AnswersIncoherent form (machine_of request.now.arch) request.now result (O.seen out.old) (O.seen out.new) }
    ensures location { StatusNamesLocation result }
{
    on_machine!(
        request.arch,
        coherence_execution_on[O](alloc, form, request, out)
    )
}

/// Prints it on an architecture.
#[inline(never)]
fn coherence_execution_on<A: Arch, O: Sink>(
    alloc: Global,
    form: ExecutionForm,
    request: &Coherence,
    out: &mut O,
) -> Status
    requires form { HasForm (requests.CoherenceExecution form request.now) }
    ensures answers { AnswersIncoherent form (machine A.puts A.writing) request.now result (O.seen out.old) (O.seen out.new) }
    ensures location { StatusNamesLocation result }
{
    match cycle_on::<A>(&request.edges) {
        Err(refusal) => Status::Refused(refusal),
        Ok(cycle) => {
            let name = name_for(&request.name, &cycle);
            print_incoherent::<A, O>(alloc, form, &cycle, name.as_str(), out)
        }
    }
}

/// Prints the execution that the coherence test of a cycle, under a name, asks for.
fn print_incoherent<A: Arch, O: Sink>(
    alloc: Global,
    form: ExecutionForm,
    cycle: &Cycle,
    name: &str,
    out: &mut O,
) -> Status
    requires named { IsTestName name.now }
    ensures answers { LoopRunsOn form A.puts A.writing name.now cycle.now result (O.seen out.old) (O.seen out.new) }
    ensures location { StatusNamesLocation result }
{
    match coherence_run::<A>(alloc, cycle, name) {
        Ok(given) => print_run::<A, O>(alloc, form, &given, out),
        Err(CoherenceError::Refused(refusal)) => Status::Refused(Refusal::from(refusal)),
        Err(CoherenceError::NoMemory) => Status::NoMemory,
    }
}

/// Prints an execution of a test, in a form.
fn print_run<A: Arch, O: Sink>(
    alloc: Global,
    form: ExecutionForm,
    given: &IntendedRun<A>,
    out: &mut O,
) -> Status
    requires reads { length given.now.run.reads ≡ length given.now.test.threads }
    requires places { length given.now.run.orders ≡ length given.now.test.places }
    ensures prints { PrintsShown form (machine A.puts A.writing) given.now.test given.now.run result (O.seen out.old) (O.seen out.new) }
    ensures location { StatusNamesLocation result }
{
    match shown_run::<A>(alloc, form, given) {
        Ok(text) => print_bytes(text.as_slice(), out),
        Err(NoMemory) => Status::NoMemory,
    }
}

/// A text that shows an execution of a test, in a form.
fn shown_run<A: Arch>(
    alloc: Global,
    form: ExecutionForm,
    given: &IntendedRun<A>,
) -> Result<Vec<u8>, NoMemory>
    requires reads { length given.now.run.reads ≡ length given.now.test.threads }
    requires places { length given.now.run.orders ≡ length given.now.test.places }
    ensures { IfOk result (λ text. Shows form (machine A.puts A.writing) given.now.test given.now.run text.items) }
{
    match form {
        ExecutionForm::Text => write_execution(alloc, &given.run, given.test.places()),
        ExecutionForm::Drawn => draw_execution(alloc, &given.test, &given.run),
    }
}

/// Prints a text.
fn print_bytes<O: Sink>(text: &[u8], out: &mut O) -> Status
    ensures prints { Prints text.now result (O.seen out.old) (O.seen out.new) }
    ensures location { StatusNamesLocation result }
{
    match out.write_all(text) {
        Ok(()) => Status::Done,
        Err(Failed) => Status::WriteFault { of: Device::Out },
    }
}
