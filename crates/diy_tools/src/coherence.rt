ghost use Rattle.diy_tools.specs.{KeptRequests.{AnswersIncoherence, AnswersLoop}, ArchMachines.{machine, machine_of}};
ghost use Rattle.run_status.specs.{Report.{StatusNamesLocation}};

use crate::machines::on_machine;
use crate::testing::{cycle_on, print_named};
use arch_trait::{Arch, Places, ThreadCodes};
use arrayvec::ArrayVec;
use co_tests::co_test_into;
use diy_io::Sink;
use diy_words::{Coherence, TestName};
use edge_algebra::Cycle;
use final_cond::Cond;
use litmus_text::Test;
use relax_edges::ArchName;
use run_status::Status;
use test_maker::Refusal;

/// Prints the coherence test that is asked for.
#[tactic(auto, using(crate::proofs::Coherent::incoherent_on))]
pub(crate) fn coherence<O: Sink>(request: &Coherence, out: &mut O) -> Status
    ensures answers { AnswersIncoherence (machine_of request.now.arch) request.now result (O.seen out.old) (O.seen out.new) }
    ensures location { StatusNamesLocation result }
{
    on_machine!(request.arch, coherence_on[O](request, out))
}

/// Prints the coherence test that is asked for, on an architecture.
#[inline(never)]
fn coherence_on<A: Arch, O: Sink>(request: &Coherence, out: &mut O) -> Status
    ensures answers { AnswersIncoherence (machine A.puts A.writing) request.now result (O.seen out.old) (O.seen out.new) }
    ensures location { StatusNamesLocation result }
{
    match cycle_on::<A>(&request.edges) {
        Err(refusal) => Status::Refused(refusal),
        Ok(cycle) => answer_loop::<A, O>(&cycle, &request.name, out),
    }
}

/// Prints the coherence test of a cycle, if it has one.
#[tactic(auto, unfolding(co_tests::specs::CoRefusals::coherence_text))]
fn answer_loop<A: Arch, O: Sink>(cycle: &Cycle, name: &Option<TestName>, out: &mut O) -> Status
    ensures answers { AnswersLoop (machine A.puts A.writing) name.now cycle.now result (O.seen out.old) (O.seen out.new) }
    ensures location { StatusNamesLocation result }
{
    // The test is written out here for the reason given in `answer_cycle`.
    let mut test = Test {
        edges: ArrayVec::new(),
        places: Places::new(),
        threads: ThreadCodes::new(),
        cond: Cond::default(),
    };
    match co_test_into::<A>(cycle, &mut test) {
        Err(refusal) => Status::Refused(Refusal::from(refusal)),
        Ok(()) => print_named::<A, O>(&test, cycle, name, out),
    }
}
