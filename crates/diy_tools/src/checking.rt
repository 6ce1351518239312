ghost use Rattle.std.specs.Prelude.{◌≡◌, ◌<◌, length};
ghost use Rattle.diy_io.specs.Shelf.{Idle};
ghost use Rattle.diy_tools.specs.{CheckAnswers.{check_status, checked_kind, shown_of}, KeptRequests.{CheckEndsFor, ChecksFiles}};
ghost use Rattle.run_status.specs.{Report.{KindNamesLocation, StatusNamesLocation}};

use crate::machines::on_machine;
use diy_io::{Shelf, Sink, Words};
use diy_words::{Check, CheckForm};
use exec_check::{CheckEnd, CheckedKind, FileWords, Shown, check_files};
use relax_edges::ArchName;
use run_status::{Device, Status, TextKind};
use std::alloc::Global;

/// Writes what holds of the execution in one file, as one of the test in another.
pub(crate) fn check<H: Shelf, O: Sink>(
    alloc: Global,
    words: &Words,
    request: Check,
    shelf: &mut H,
    out: &mut O,
) -> Status
    requires idle { (H.seen shelf.old).mode ≡ Idle }
    requires test { request.test < length words.now }
    requires execution { request.execution < length words.now }
    ensures answers { ChecksFiles words.now request result (H.seen shelf.old) (H.seen shelf.new) (O.seen out.old) (O.seen out.new) }
    ensures idle { (H.seen shelf.new).mode ≡ Idle }
    ensures location { StatusNamesLocation result }
{
    check_end(check_on(alloc, words, request, shelf, out))
}

#[inline(never)]
fn check_on<H: Shelf, O: Sink>(
    alloc: Global,
    words: &Words,
    request: Check,
    shelf: &mut H,
    out: &mut O,
) -> CheckEnd
    requires idle { (H.seen shelf.old).mode ≡ Idle }
    requires test { request.test < length words.now }
    requires execution { request.execution < length words.now }
    ensures checked { CheckEndsFor words.now request result (H.seen shelf.old) (H.seen shelf.new) (O.seen out.old) (O.seen out.new) }
    ensures idle { (H.seen shelf.new).mode ≡ Idle }
    ensures stay { (H.seen shelf.new).files ≡ (H.seen shelf.old).files }
{
    let Check {
        arch,
        test,
        execution,
        form,
    } = request;
    let files = FileWords {
        test,
        exec: execution,
    };
    on_machine!(arch, check_files[H, O](alloc, words, files, shown_of(form), shelf, out))
}

/// What is shown of the execution.
fn shown_of(form: CheckForm) -> Shown
    ensures { result ≡ shown_of form }
{
    match form {
        CheckForm::Verdict => Shown::Verdict,
        CheckForm::Graph => Shown::Graph,
    }
}

fn check_end(end: CheckEnd) -> Status
    ensures status { result ≡ check_status end }
    ensures location { StatusNamesLocation result }
{
    match end {
        CheckEnd::Done => Status::Done,
        CheckEnd::Wrong { file, line, kind } => Status::BadText {
            file: Some(file),
            line,
            kind: text_kind(kind),
        },
        CheckEnd::NoFile { word } => Status::NoFile { word },
        CheckEnd::ShelfFault => Status::ReadFault { of: Device::Shelf },
        CheckEnd::OutFault => Status::WriteFault { of: Device::Out },
        CheckEnd::NoMemory => Status::NoMemory,
    }
}

fn text_kind(kind: CheckedKind) -> TextKind
    ensures same { result ≡ checked_kind kind }
    ensures location { KindNamesLocation result }
{
    match kind {
        CheckedKind::Test(kind) => TextKind::Test(kind),
        CheckedKind::WrongArch => TextKind::WrongArch,
        CheckedKind::Exec(kind) => TextKind::Exec(kind),
    }
}
