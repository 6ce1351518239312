ghost use Rattle.std.specs.Prelude.{◌≡◌, ◌<◌, length};
ghost use Rattle.diy_io.specs.Shelf.{Idle};
ghost use Rattle.run_status.specs.{Report.{StatusNamesLocation}};
ghost use Rattle.diy_tools.specs.{SumAnswers.{first_log, sum_status}, KeptRequests.{AnswersSumOf, SumsFiles, SumsInput}};

use diy_io::{Shelf, Sink, Source, Words};
use msum7_files::{SumEnd, SumForm, sum_files, sum_input};
use run_status::{Device, Status, TextKind};
use std::alloc::Global;

/// Sums the logs that the arguments name, or the input if they name none, and prints the sum in a form.
#[tactic(auto, using(crate::proofs::SumAnswers::files_answered, crate::proofs::SumAnswers::input_answered))]
#[inline(never)]
pub(crate) fn sum<I: Source, O: Sink, H: Shelf>(
    alloc: Global,
    form: SumForm,
    words: &Words,
    input: &mut I,
    shelf: &mut H,
    out: &mut O,
) -> Status
    requires { (H.seen shelf.old).mode ≡ Idle }
    ensures answers { AnswersSumOf form words.now result (I.seen input.old, O.seen out.old, H.seen shelf.old) (I.seen input.new, O.seen out.new, H.seen shelf.new) }
    ensures idle { (H.seen shelf.new).mode ≡ Idle }
    ensures location { StatusNamesLocation result }
{
    if first_log(form) < words.len() {
        sum_logs(alloc, form, words, shelf, out)
    } else {
        sum_one(alloc, form, input, out)
    }
}

/// The index of the first argument that can name a log.
pub(crate) fn first_log(form: SumForm) -> usize
    ensures { result ≡ first_log form }
{
    match form {
        SumForm::Log => 1,
        SumForm::Table => 2,
    }
}

/// Sums the logs that the arguments name.
fn sum_logs<H: Shelf, O: Sink>(
    alloc: Global,
    form: SumForm,
    words: &Words,
    shelf: &mut H,
    out: &mut O,
) -> Status
    requires idle { (H.seen shelf.old).mode ≡ Idle }
    requires some { first_log form < length words.now }
    ensures sums { SumsFiles form words.now result (H.seen shelf.old) (H.seen shelf.new) (O.seen out.old) (O.seen out.new) }
    ensures idle { (H.seen shelf.new).mode ≡ Idle }
    ensures location { StatusNamesLocation result }
{
    sum_status(sum_files(alloc, form, words, first_log(form), shelf, out))
}

/// Sums the input.
fn sum_one<I: Source, O: Sink>(alloc: Global, form: SumForm, input: &mut I, out: &mut O) -> Status
    ensures sums { SumsInput form result (I.seen input.old) (I.seen input.new) (O.seen out.old) (O.seen out.new) }
    ensures location { StatusNamesLocation result }
{
    sum_status(sum_input(alloc, form, input, out))
}

pub(crate) fn sum_status(end: SumEnd) -> Status
    ensures status { result ≡ sum_status end }
    ensures location { StatusNamesLocation result }
{
    match end {
        SumEnd::Done => Status::Done,
        SumEnd::Wrong { file, line, kind } => Status::BadText {
            file,
            line,
            kind: TextKind::Log(kind),
        },
        SumEnd::TooMuch { file, line } => Status::BadText {
            file,
            line,
            kind: TextKind::TooMuch,
        },
        SumEnd::NoFile { word } => Status::NoFile { word },
        SumEnd::InputFault => Status::ReadFault { of: Device::Input },
        SumEnd::ShelfFault => Status::ReadFault { of: Device::Shelf },
        SumEnd::OutFault => Status::WriteFault { of: Device::Out },
        SumEnd::NoMemory => Status::NoMemory,
    }
}
