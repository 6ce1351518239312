ghost use Rattle.std.specs.{Prelude.{◌≡◌, ◌≤◌, length}, Option.{ForSome}};
ghost use Rattle.diy_io.specs.{Shelf.{Idle}, Page.{Sends}, Wrote.{Wrote}};
ghost use Rattle.diy_words.specs.Given.{HasForm};
ghost use Rattle.diy_words.specs.declared.request.Request.TheVariants as requests;
ghost use Rattle.litmus_text.specs.Printable.{IsTestName};
ghost use Rattle.diy_tools.specs.{KeptRequests.{AnswersShowing, PutsRuns, ShowsOn, WritesRunsOf}, ArchMachines.{machine, machine_of}, PrintAnswers.{Prints}};
ghost use Rattle.run_status.specs.{Report.{StatusNamesLocation}};
ghost use Rattle.diy_tools.specs.{WhyAnswers.{why_line}};

use crate::edges::cycle_of_edges;
use crate::machines::on_machine;
use crate::testing::name_for;
use arch_trait::Arch;
use diy_io::{Failed, MAX_FOLDER, NoMemory, Page, Shelf, Sink};
use diy_words::Why;
use edge_algebra::Cycle;
use exec_text::write_execution;
use relax_edges::ArchName;
use run_status::{Device, Status};
use std::alloc::Global;
use tests_to_files::{File, put_files, test_path};
use two_runs::{TwoRuns, two_runs};

/// Writes the test of a cycle without observers, and two executions of it that no condition on the final
/// state distinguishes.
#[tactic(auto, using(crate::proofs::RunAnswers::runs_on))]
pub(crate) fn why<H: Shelf, O: Sink>(
    alloc: Global,
    request: &Why,
    shelf: &mut H,
    out: &mut O,
) -> Status
    requires idle { (H.seen shelf.old).mode ≡ Idle }
    requires form { HasForm (requests.Why request.now) }
    ensures answers { AnswersShowing (machine_of request.now.arch) request.now result (H.seen shelf.old) (H.seen shelf.new) (O.seen out.old) (O.seen out.new) }
    ensures location { StatusNamesLocation result }
{
    on_machine!(request.arch, why_on[H, O](alloc, request, shelf, out))
}

/// Writes them on an architecture.
#[inline(never)]
fn why_on<A: Arch, H: Shelf, O: Sink>(
    alloc: Global,
    request: &Why,
    shelf: &mut H,
    out: &mut O,
) -> Status
    requires idle { (H.seen shelf.old).mode ≡ Idle }
    requires form { HasForm (requests.Why request.now) }
    ensures answers { AnswersShowing (machine A.puts A.writing) request.now result (H.seen shelf.old) (H.seen shelf.new) (O.seen out.old) (O.seen out.new) }
    ensures location { StatusNamesLocation result }
{
    let cycle = match cycle_of_edges(&request.edges, A::NAME) {
        Ok(cycle) => cycle,
        Err(refusal) => return Status::Refused(refusal),
    };
    let name = name_for(&request.name, &cycle);
    why_named::<A, H, O>(alloc, &cycle, name.as_str(), request.folder, shelf, out)
}

/// Writes them for a cycle, under a name.
fn why_named<A: Arch, H: Shelf, O: Sink>(
    alloc: Global,
    cycle: &Cycle,
    name: &str,
    folder: Option<&str>,
    shelf: &mut H,
    out: &mut O,
) -> Status
    requires idle { (H.seen shelf.old).mode ≡ Idle }
    requires named { IsTestName name.now }
    requires folder { ForSome folder (λ folder. length folder.now ≤ MAX_FOLDER) }
    ensures answers { ShowsOn A.puts A.writing folder.entry name.now cycle.now result (H.seen shelf.old) (H.seen shelf.new) (O.seen out.old) (O.seen out.new) }
    ensures location { StatusNamesLocation result }
{
    match two_runs::<A>(alloc, cycle, name) {
        Ok(runs) => write_runs::<A, H, O>(alloc, &runs, name, folder, shelf, out),
        Err(error) => match error.refusal() {
            Some(refusal) => Status::Refused(refusal),
            None => Status::NoMemory,
        },
    }
}

/// Writes a test and two executions of it.
fn write_runs<A: Arch, H: Shelf, O: Sink>(
    alloc: Global,
    runs: &TwoRuns<A>,
    name: &str,
    folder: Option<&str>,
    shelf: &mut H,
    out: &mut O,
) -> Status
    requires idle { (H.seen shelf.old).mode ≡ Idle }
    requires one { length runs.now.test.places ≡ length runs.now.one.orders }
    requires two { length runs.now.test.places ≡ length runs.now.two.orders }
    requires folder { ForSome folder (λ folder. length folder.now ≤ MAX_FOLDER) }
    ensures written { WritesRunsOf folder.entry name.now runs.now result (H.seen shelf.old) (H.seen shelf.new) (O.seen out.old) (O.seen out.new) }
    ensures location { StatusNamesLocation result }
{
    let places = runs.test.places();
    let one = match write_execution(alloc, &runs.one, places) {
        Ok(text) => text,
        Err(NoMemory) => return Status::NoMemory,
    };
    let two = match write_execution(alloc, &runs.two, places) {
        Ok(text) => text,
        Err(NoMemory) => return Status::NoMemory,
    };
    let texts = RunTexts {
        test: runs.text.as_slice(),
        one: one.as_slice(),
        two: two.as_slice(),
    };
    put_runs(folder, name, texts, shelf, out)
}

/// The texts of the three files: a test, and two executions of it.
#[derive(Clone, Copy)]
struct RunTexts<'a> {
    test: &'a [u8],
    one: &'a [u8],
    two: &'a [u8],
}

/// Writes the three files on the shelf, and then the line about them.
fn put_runs<H: Shelf, O: Sink>(
    folder: Option<&str>,
    name: &str,
    texts: RunTexts<'_>,
    shelf: &mut H,
    out: &mut O,
) -> Status
    requires idle { (H.seen shelf.old).mode ≡ Idle }
    requires folder { ForSome folder (λ folder. length folder.now ≤ MAX_FOLDER) }
    ensures written { PutsRuns folder.entry name.now texts.entry.test.now texts.entry.one.now texts.entry.two.now result (H.seen shelf.old) (H.seen shelf.new) (O.seen out.old) (O.seen out.new) }
    ensures location { StatusNamesLocation result }
{
    let files = [
        File {
            path: test_path(folder, 0, name, ".litmus"),
            bytes: texts.test,
        },
        File {
            path: test_path(folder, 0, name, ".one"),
            bytes: texts.one,
        },
        File {
            path: test_path(folder, 0, name, ".two"),
            bytes: texts.two,
        },
    ];
    match put_files(&files, shelf) {
        Ok(()) => finish_line(name, out),
        Err(Failed) => Status::WriteFault { of: Device::Shelf },
    }
}

/// Writes the line about the files.
fn finish_line<O: Sink>(name: &str, out: &mut O) -> Status
    ensures prints { Prints (why_line name.now) result (O.seen out.old) (O.seen out.new) }
    ensures location { StatusNamesLocation result }
{
    match write_line(name, out) {
        Ok(()) => Status::Done,
        Err(Failed) => Status::WriteFault { of: Device::Out },
    }
}

fn write_line<O: Sink>(name: &str, out: &mut O) -> Result<(), Failed>
    ensures { Wrote (O.seen out.old) (O.seen out.new) (why_line name.now) result }
{
    let mut page = Page::new();
    send_line(name.as_bytes(), &mut page, out)?;
    page.flush(out)
}

fn send_line<O: Sink>(name: &[u8], page: &mut Page, out: &mut O) -> Result<(), Failed>
    ensures { Sends (O.seen out.old) page.old (O.seen out.new) page.new (why_line name.now) result }
{
    page.send_pieces(&[b"Two executions of ", name, b"\n"], out)
}
