ghost use Rattle.std.specs.{Prelude.{◌≡◌, ◌<◌, Ok, length}, List.{All}};
ghost use Rattle.diy_io.specs.Shelf.{Idle};
ghost use Rattle.tests_from_files.specs.FilesEnds.{FilesClassified};
ghost use Rattle.diy_words.specs.{Given.{GivesTask}, Requests.{asked_of}};
ghost use Rattle.diy_words.specs.declared.request.Request.TheVariants as requests;
ghost use Rattle.diy_tools.specs.{Answers.{Answers}, FamilyAnswers.{AnswersFamilies, file_kind, files_status, read_on}, KeptRequests.{ClassifiesNamedFiles}};
ghost use Rattle.run_status.specs.{Report.{KindNamesLocation, StatusNamesLocation}};
ghost use Rattle.diy_tools.specs.{Statuses.{classify_status}};

use crate::machines::on_machine;
use crate::naming::lines_status;
use cycles_from_lines::{ClassifyError, classify_lines};
use diy_io::{NoMemory, Shelf, Sink, Source, Words};
use diy_words::read_files;
use relax_edges::ArchName;
use run_status::{Device, Status, TextKind};
use std::alloc::Global;
use tests_from_files::{FileKind, FilesEnd, classify_files};

/// Prints the names of cycles by their families: those that are quoted in the files that the operands name, or
/// those of the input's lines if there is no operand.
#[tactic(auto, using(crate::proofs::FamilyAnswers::asks_families))]
pub(crate) fn families<I: Source, O: Sink, H: Shelf>(
    alloc: Global,
    words: &Words,
    arch: ArchName,
    input: &mut I,
    shelf: &mut H,
    out: &mut O,
) -> Status
    requires idle { (H.seen shelf.old).mode ≡ Idle }
    requires given { GivesTask (Ok (requests.Families arch)) (asked_of words.now) }
    ensures answers { Answers words.now result (I.seen input.old, O.seen out.old, H.seen shelf.old) (I.seen input.new, O.seen out.new, H.seen shelf.new) }
    ensures idle { (H.seen shelf.new).mode ≡ Idle }
    ensures location { StatusNamesLocation result }
{
    let files = match read_files(alloc, words) {
        Ok(files) => files,
        Err(NoMemory) => return Status::NoMemory,
    };
    if files.is_empty() {
        of_lines(alloc, arch, input, out)
    } else {
        of_files(alloc, words, arch, files.as_slice(), shelf, out)
    }
}

/// Prints the names of the cycles of the input's lines by their families.
#[inline(never)]
fn of_lines<I: Source, O: Sink>(alloc: Global, arch: ArchName, input: &mut I, out: &mut O) -> Status
    ensures answers { AnswersFamilies arch result (I.seen input.old) (I.seen input.new) (O.seen out.old) (O.seen out.new) }
    ensures location { StatusNamesLocation result }
{
    lines_end(classify_lines(alloc, arch, input, out))
}

fn lines_end(end: Result<(), ClassifyError>) -> Status
    ensures status { result ≡ classify_status end }
    ensures location { StatusNamesLocation result }
{
    match end {
        Ok(()) => Status::Done,
        Err(ClassifyError::Lines(error)) => lines_status(error),
        Err(ClassifyError::OutFault) => Status::WriteFault { of: Device::Out },
        Err(ClassifyError::NoMemory) => Status::NoMemory,
    }
}

/// Prints, by their families, the names of the cycles that are quoted in the files that the arguments at these
/// indices name.
fn of_files<H: Shelf, O: Sink>(
    alloc: Global,
    words: &Words,
    arch: ArchName,
    files: &[usize],
    shelf: &mut H,
    out: &mut O,
) -> Status
    requires idle { (H.seen shelf.old).mode ≡ Idle }
    requires within { All (λ place. place < length words.now) files.now }
    ensures answers { ClassifiesNamedFiles words.now arch files.now result (H.seen shelf.old) (H.seen shelf.new) (O.seen out.old) (O.seen out.new) }
    ensures idle { (H.seen shelf.new).mode ≡ Idle }
    ensures location { StatusNamesLocation result }
{
    files_end(classify_on(alloc, words, arch, files, shelf, out))
}

#[inline(never)]
fn classify_on<H: Shelf, O: Sink>(
    alloc: Global,
    words: &Words,
    arch: ArchName,
    files: &[usize],
    shelf: &mut H,
    out: &mut O,
) -> FilesEnd
    requires idle { (H.seen shelf.old).mode ≡ Idle }
    requires within { All (λ place. place < length words.now) files.now }
    ensures classified { FilesClassified (read_on arch) (H.seen shelf.old) (H.seen shelf.new) words.now files.now (O.seen out.old) (O.seen out.new) result }
    ensures idle { (H.seen shelf.new).mode ≡ Idle }
    ensures stay { (H.seen shelf.new).files ≡ (H.seen shelf.old).files }
{
    on_machine!(arch, classify_files[H, O](alloc, words, files, shelf, out))
}

fn files_end(end: FilesEnd) -> Status
    ensures status { result ≡ files_status end }
    ensures location { StatusNamesLocation result }
{
    match end {
        FilesEnd::Done => Status::Done,
        FilesEnd::Wrong { file, line, kind } => Status::BadText {
            file: Some(file),
            line,
            kind: text_kind(kind),
        },
        FilesEnd::NoFile { word } => Status::NoFile { word },
        FilesEnd::ShelfFault => Status::ReadFault { of: Device::Shelf },
        FilesEnd::OutFault => Status::WriteFault { of: Device::Out },
        FilesEnd::NoMemory => Status::NoMemory,
    }
}

fn text_kind(kind: FileKind) -> TextKind
    ensures same { result ≡ file_kind kind }
    ensures location { KindNamesLocation result }
{
    match kind {
        FileKind::Test(kind) => TextKind::Test(kind),
        FileKind::WrongArch => TextKind::WrongArch,
        FileKind::NoCycle => TextKind::NoCycle,
    }
}
