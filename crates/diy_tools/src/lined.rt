ghost use Rattle.std.specs.Prelude.{◌≡◌};
ghost use Rattle.diy_io.specs.Shelf.{Idle};
ghost use Rattle.lines_to_files.specs.LineTestEnds as line_ends;
ghost use Rattle.lines_to_files.specs.LineTestEnds.{EndNamesLocation};
ghost use Rattle.diy_words.specs.Given.{HasForm};
ghost use Rattle.diy_words.specs.declared.request.Request.TheVariants as requests;
ghost use Rattle.diy_tools.specs.{KeptRequests.{AnswersLined, EndsLinedFor}, LineTestAnswers.{line_tests_status, test_form, wrong_kind}};
ghost use Rattle.run_status.specs.{Report.{KindNamesLocation, StatusNamesLocation}};

use crate::machines::on_machine;
use diy_io::{Shelf, Sink, Source};
use diy_words::{LineTestForm, LineTests};
use lines_to_files::{LineTestsEnd, TestForm, WrongTest, write_line_tests};
use relax_edges::ArchName;
use run_status::{Device, Status, TextKind};
use std::alloc::Global;

/// Writes the tests of the input's lines of cycles, each in a file.
pub(crate) fn line_tests<I: Source, O: Sink, H: Shelf>(
    alloc: Global,
    request: LineTests,
    input: &mut I,
    shelf: &mut H,
    out: &mut O,
) -> Status
    requires idle { (H.seen shelf.old).mode ≡ Idle }
    requires form { HasForm (requests.LineTests request) }
    ensures answers { AnswersLined request.entry result (I.seen input.old, O.seen out.old, H.seen shelf.old) (I.seen input.new, O.seen out.new, H.seen shelf.new) }
    ensures idle { (H.seen shelf.new).mode ≡ Idle }
    ensures location { StatusNamesLocation result }
{
    line_tests_end(write_on(alloc, request, input, shelf, out))
}

#[tactic(auto, using(crate::proofs::LineTestAnswers::lined_on))]
#[inline(never)]
fn write_on<I: Source, O: Sink, H: Shelf>(
    alloc: Global,
    request: LineTests,
    input: &mut I,
    shelf: &mut H,
    out: &mut O,
) -> LineTestsEnd
    requires idle { (H.seen shelf.old).mode ≡ Idle }
    requires form { HasForm (requests.LineTests request) }
    ensures ends { EndsLinedFor request.entry result (I.seen input.old) (I.seen input.new) (H.seen shelf.old) (H.seen shelf.new) (O.seen out.old) (O.seen out.new) }
    ensures located { EndNamesLocation result }
{
    let LineTests { arch, form, folder } = request;
    on_machine!(arch, write_line_tests[I, H, O](alloc, test_form(form), folder, input, shelf, out))
}

/// Which test of a cycle is made.
fn test_form(form: LineTestForm) -> TestForm
    ensures { result ≡ test_form form }
{
    match form {
        LineTestForm::Observed(mode) => TestForm::Observed(mode),
        LineTestForm::Coherence => TestForm::Coherence,
    }
}

fn line_tests_end(end: LineTestsEnd) -> Status
    requires { EndNamesLocation end }
    ensures status { result ≡ line_tests_status end }
    ensures location { StatusNamesLocation result }
{
    match end {
        LineTestsEnd::Done => Status::Done,
        LineTestsEnd::Wrong { line, kind } => Status::BadText {
            file: None,
            line,
            kind: wrong_kind(kind),
        },
        LineTestsEnd::TooMuch { line } => Status::BadText {
            file: None,
            line,
            kind: TextKind::TooMuch,
        },
        LineTestsEnd::InputFault => Status::ReadFault { of: Device::Input },
        LineTestsEnd::ShelfFault => Status::WriteFault { of: Device::Shelf },
        LineTestsEnd::OutFault => Status::WriteFault { of: Device::Out },
        LineTestsEnd::NoMemory => Status::NoMemory,
    }
}

/// What is wrong with a line or with its test, as an error in a text.
fn wrong_kind(kind: WrongTest) -> TextKind
    requires { line_ends.KindNamesLocation kind }
    ensures same { result ≡ wrong_kind kind }
    ensures location { KindNamesLocation result }
{
    match kind {
        WrongTest::Line(kind) => TextKind::Line(kind),
        WrongTest::BadName => TextKind::BadName,
        WrongTest::NameTaken => TextKind::NameTaken,
        WrongTest::Refused(refusal) => TextKind::Refused(refusal),
    }
}
