ghost use Rattle.std.specs.Prelude.{◌≡◌, ◌<◌, ◌+◌, length};
ghost use Rattle.diy_io.specs.Shelf.{Idle};
ghost use Rattle.run_status.specs.Report.{KindNamesLocation, StatusNamesLocation};
ghost use Rattle.diy_tools.specs.{Devices.{devices}, StatesAnswers.{AnswersStates, JudgesFiles, JudgesInput, states_kind, states_status}};

use crate::machines::on_machine;
use diy_io::{Shelf, Sink, Source, Words};
use diy_words::States;
use relax_edges::ArchName;
use run_status::{Device, Status, TextKind};
use states_of_logs::{StatesEnd, StatesKind, StatesWords, judge_files, judge_input};
use std::alloc::Global;

/// Prints the states of the test in a file, each with its verdict, that the logs have which the arguments after that of the
/// test name, or the input if they name none.
#[inline(never)]
pub(crate) fn states<I: Source, O: Sink, H: Shelf>(
    alloc: Global,
    words: &Words,
    request: States,
    input: &mut I,
    shelf: &mut H,
    out: &mut O,
) -> Status
    requires idle { (H.seen shelf.old).mode ≡ Idle }
    requires test { request.test < length words.now }
    ensures answers { AnswersStates words.now request result (devices (I.seen input.old, O.seen out.old, H.seen shelf.old)) (devices (I.seen input.new, O.seen out.new, H.seen shelf.new)) }
    ensures idle { (H.seen shelf.new).mode ≡ Idle }
    ensures location { StatusNamesLocation result }
{
    let count = words.len();
    if request.test + 1 < count {
        states_end(judge_named(alloc, words, request, shelf, out))
    } else {
        states_end(judge_read(alloc, words, request, input, shelf, out))
    }
}

/// Judges the states in the logs that arguments name.
fn judge_named<H: Shelf, O: Sink>(
    alloc: Global,
    words: &Words,
    request: States,
    shelf: &mut H,
    out: &mut O,
) -> StatesEnd
    requires idle { (H.seen shelf.old).mode ≡ Idle }
    requires log { request.test + 1 < length words.now }
    ensures judged { JudgesFiles words.now request result (H.seen shelf.old) (H.seen shelf.new) (O.seen out.old) (O.seen out.new) }
    ensures idle { (H.seen shelf.new).mode ≡ Idle }
    ensures files { (H.seen shelf.new).files ≡ (H.seen shelf.old).files }
{
    // Brings the bound of the number of arguments into the proof.
    let _count = words.len();
    let States { arch, test } = request;
    let files = StatesWords {
        test,
        first_log: test + 1,
    };
    on_machine!(arch, judge_files[H, O](alloc, words, files, shelf, out))
}

/// Judges the states in the input.
fn judge_read<I: Source, H: Shelf, O: Sink>(
    alloc: Global,
    words: &Words,
    request: States,
    input: &mut I,
    shelf: &mut H,
    out: &mut O,
) -> StatesEnd
    requires idle { (H.seen shelf.old).mode ≡ Idle }
    requires test { request.test < length words.now }
    ensures judged { JudgesInput words.now request result (I.seen input.old, O.seen out.old, H.seen shelf.old) (I.seen input.new, O.seen out.new, H.seen shelf.new) }
    ensures idle { (H.seen shelf.new).mode ≡ Idle }
    ensures files { (H.seen shelf.new).files ≡ (H.seen shelf.old).files }
{
    let States { arch, test } = request;
    on_machine!(arch, judge_input[I, H, O](alloc, words, test, shelf, input, out))
}

fn states_end(end: StatesEnd) -> Status
    ensures status { result ≡ states_status end }
    ensures location { StatusNamesLocation result }
{
    match end {
        StatesEnd::Done => Status::Done,
        StatesEnd::Wrong { file, line, kind } => Status::BadText {
            file,
            line,
            kind: text_kind(kind),
        },
        StatesEnd::TooMuch { file, line } => Status::BadText {
            file,
            line,
            kind: TextKind::TooMuch,
        },
        StatesEnd::NoFile { word } => Status::NoFile { word },
        StatesEnd::NoBlock { word } => Status::NoBlock { word },
        StatesEnd::InputFault => Status::ReadFault { of: Device::Input },
        StatesEnd::ShelfFault => Status::ReadFault { of: Device::Shelf },
        StatesEnd::OutFault => Status::WriteFault { of: Device::Out },
        StatesEnd::NoMemory => Status::NoMemory,
    }
}

fn text_kind(kind: StatesKind) -> TextKind
    ensures same { result ≡ states_kind kind }
    ensures location { KindNamesLocation result }
{
    match kind {
        StatesKind::Test(kind) => TextKind::Test(kind),
        StatesKind::WrongArch => TextKind::WrongArch,
        StatesKind::Log(kind) => TextKind::Log(kind),
    }
}
