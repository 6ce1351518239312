ghost use Rattle.std.specs.Prelude.{◌≡◌, true, IfErr, IfSome};
ghost use Rattle.diy_words.specs.TestNames.{is_name};
ghost use Rattle.litmus_text.specs.{Printable.{IsTestName}, Tests.{test_seen}, TestText.{test_text}};
ghost use Rattle.test_maker.specs.Made.{CanPrint, NamesLocation};
ghost use Rattle.diy_tools.specs.{PrintAnswers.{Prints}, KeptRequests.{AnswersCycle, AnswersOne, MakesCycle, chosen_name, edges_kept, refused_edges}};
ghost use Rattle.diy_tools.specs.{ArchMachines.{machine, machine_of}};
ghost use Rattle.run_status.specs.{Report.{StatusNamesLocation}};

use crate::edges::cycle_of_edges;
use crate::machines::on_machine;
use arch_trait::{Arch, Places, ThreadCodes};
use arrayvec::ArrayVec;
use cycle_names::name_of;
use diy_io::{Failed, Sink};
use diy_words::{DiyOne, TestName};
use edge_algebra::Cycle;
use edges_from_text::EdgeList;
use final_cond::Cond;
use litmus_text::{Test, print_test};
use relax_edges::{ArchName, ObsMode};
use run_status::{Device, Status};
use test_maker::{Refusal, make_into};

/// Prints the test that is asked for.
#[tactic(auto, using(crate::proofs::RunAnswers::answered_on))]
pub(crate) fn diyone<O: Sink>(request: &DiyOne, out: &mut O) -> Status
    ensures answers { AnswersOne (machine_of request.now.arch) request.now result (O.seen out.old) (O.seen out.new) }
    ensures location { StatusNamesLocation result }
{
    on_machine!(request.arch, diyone_on[O](request, out))
}

/// Prints the test that is asked for, on an architecture.
#[inline(never)]
fn diyone_on<A: Arch, O: Sink>(request: &DiyOne, out: &mut O) -> Status
    ensures answers { AnswersOne (machine A.puts A.writing) request.now result (O.seen out.old) (O.seen out.new) }
    ensures location { StatusNamesLocation result }
{
    match cycle_on::<A>(&request.edges) {
        Err(refusal) => Status::Refused(refusal),
        Ok(cycle) => answer_cycle::<A, O>(&cycle, request.mode, &request.name, out),
    }
}

/// The cycle of an architecture that edges make, or why they make none.
#[tactic(auto, using(crate::proofs::RunAnswers::named_refused))]
pub(crate) fn cycle_on<A: Arch>(list: &EdgeList) -> Result<Cycle, Refusal>
    ensures made { MakesCycle (refused_edges A.puts.name list.now) (edges_kept list.now) result }
    ensures location { IfErr result NamesLocation }
{
    cycle_of_edges(list, A::NAME)
}

/// The name of the test of a cycle: the given one, or by default that of the cycle.
pub(crate) fn name_for(name: &Option<TestName>, cycle: &Cycle) -> TestName
    requires form { IfSome name.now (λ name. is_name name.bytes ≡ true) }
    ensures name { result.bytes ≡ chosen_name name.now cycle.now }
    ensures form { IsTestName result.bytes }
{
    // Brings the invariant of `Cycle` into the proof.
    let _edges = cycle.edges();
    let mut chosen = TestName::new();
    match name {
        Some(name) => chosen.push_str(name.as_str()),
        None => name_of(cycle, &mut chosen),
    }
    chosen
}

/// Prints the test of a cycle, if it has one.
#[tactic(auto, unfolding(test_maker::specs::CycleText::cycle_text))]
fn answer_cycle<A: Arch, O: Sink>(
    cycle: &Cycle,
    mode: ObsMode,
    name: &Option<TestName>,
    out: &mut O,
) -> Status
    ensures answers { AnswersCycle (machine A.puts A.writing) mode name.now cycle.now result (O.seen out.old) (O.seen out.new) }
    ensures location { StatusNamesLocation result }
{
    // The test is written out here, and not made by a call of `Test::new`: so the program clears it once in
    // place, and copies none of its 125 KB.
    let mut test = Test {
        edges: ArrayVec::new(),
        places: Places::new(),
        threads: ThreadCodes::new(),
        cond: Cond::default(),
    };
    match make_into::<A>(cycle, mode, &mut test) {
        Err(refusal) => Status::Refused(Refusal::from(refusal)),
        Ok(()) => print_named::<A, O>(&test, cycle, name, out),
    }
}

/// Prints a test of a cycle under the given name, or by default under that of the cycle.
pub(crate) fn print_named<A: Arch, O: Sink>(
    test: &Test,
    cycle: &Cycle,
    name: &Option<TestName>,
    out: &mut O,
) -> Status
    requires { CanPrint A.puts A.REGISTERS test.now }
    ensures prints { Prints (test_text A.puts.name A.writing (chosen_name name.now cycle.now) (test_seen test.now)) result (O.seen out.old) (O.seen out.new) }
    ensures location { StatusNamesLocation result }
{
    match name {
        Some(name) => print::<A, O>(test, name.as_str(), out),
        None => {
            let mut name = TestName::new();
            name_of(cycle, &mut name);
            print::<A, O>(test, name.as_str(), out)
        }
    }
}

/// Prints a test under a name.
fn print<A: Arch, O: Sink>(test: &Test, name: &str, out: &mut O) -> Status
    requires { CanPrint A.puts A.REGISTERS test.now }
    ensures prints { Prints (test_text A.puts.name A.writing name.now (test_seen test.now)) result (O.seen out.old) (O.seen out.new) }
    ensures location { StatusNamesLocation result }
{
    match print_test::<A, O>(test, name, out) {
        Ok(()) => Status::Done,
        Err(Failed) => Status::WriteFault { of: Device::Out },
    }
}
