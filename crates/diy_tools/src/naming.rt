ghost use Rattle.std.specs.Prelude.{◌≡◌};
ghost use Rattle.cycles_from_lines.specs.Normed.{Norms, name_line};
ghost use Rattle.diy_tools.specs.{PrintAnswers.{AnswersEdges, Prints}, NameAnswers.{AnswersLines, AnswersName}};
ghost use Rattle.diy_tools.specs.{KeptRequests.{AnswersKept, edges_kept, refused_edges}, Statuses.{lines_status, norm_status}};
ghost use Rattle.run_status.specs.{Report.{StatusNamesLocation}};

use crate::edges::cycle_of_edges;
use cycle_names::{NotAName, cycle_of};
use cycles_from_lines::{LineForm, LinesError, NormError, norm_lines, write_name_line};
use diy_io::{Failed, Sink, Source};
use diy_words::{Norm, Sought, Source as Named, UsageKind};
use edge_algebra::Cycle;
use edges_from_text::EdgeList;
use relax_edges::ArchName;
use run_status::{Device, Status, TextKind};

/// Prints the names of the cycles that are sought, and their edges.
#[inline(never)]
pub(crate) fn norm<I: Source, O: Sink>(request: &Norm, input: &mut I, out: &mut O) -> Status
    ensures answers { AnswersKept request.now.arch request.now.cycle result (I.seen input.old) (I.seen input.new) (O.seen out.old) (O.seen out.new) }
    ensures location { StatusNamesLocation result }
{
    match &request.cycle {
        Sought::Edges(list) => norm_edges(list, request.arch, out),
        Sought::Named(named) => norm_named(*named, request.arch, out),
        Sought::Lines => norm_input(LineForm::Edges(request.arch), input, out),
        Sought::Names => norm_input(LineForm::Names(request.arch), input, out),
    }
}

fn norm_edges<O: Sink>(list: &EdgeList, arch: ArchName, out: &mut O) -> Status
    ensures answers { AnswersEdges (refused_edges arch list.now) (name_line (edges_kept list.now)) result (O.seen out.old) (O.seen out.new) }
    ensures location { StatusNamesLocation result }
{
    match cycle_of_edges(list, arch) {
        Err(refusal) => Status::Refused(refusal),
        Ok(cycle) => print_line(&cycle, out),
    }
}

fn norm_named<O: Sink>(named: Named, arch: ArchName, out: &mut O) -> Status
    ensures answers { AnswersName arch named.entry.word named.entry.name.now result (O.seen out.old) (O.seen out.new) }
    ensures location { StatusNamesLocation result }
{
    match cycle_of(named.name, arch) {
        Ok(cycle) => print_line(&cycle, out),
        Err(NotAName) => Status::Usage {
            word: named.word,
            kind: UsageKind::UnknownName,
        },
    }
}

/// Prints the line of a cycle: its name, and its edges in the rotation that it is named from.
fn print_line<O: Sink>(cycle: &Cycle, out: &mut O) -> Status
    ensures prints { Prints (name_line cycle.now) result (O.seen out.old) (O.seen out.new) }
    ensures location { StatusNamesLocation result }
{
    match write_name_line(cycle, out) {
        Ok(()) => Status::Done,
        Err(Failed) => Status::WriteFault { of: Device::Out },
    }
}

/// Prints the names of the cycles of the input's lines, and their edges.
fn norm_input<I: Source, O: Sink>(form: LineForm, input: &mut I, out: &mut O) -> Status
    ensures answers { AnswersLines form result (I.seen input.old) (I.seen input.new) (O.seen out.old) (O.seen out.new) }
    ensures location { StatusNamesLocation result }
{
    norm_status(norm_lines(form, input, out))
}

fn norm_status(end: Result<(), NormError>) -> Status
    ensures status { result ≡ norm_status end }
    ensures location { StatusNamesLocation result }
{
    match end {
        Ok(()) => Status::Done,
        Err(NormError::Lines(error)) => lines_status(error),
        Err(NormError::OutFault) => Status::WriteFault { of: Device::Out },
    }
}

/// The status if the input's lines weren't read to its end.
pub(crate) fn lines_status(error: LinesError) -> Status
    ensures status { result ≡ lines_status error }
    ensures location { StatusNamesLocation result }
{
    match error {
        LinesError::Wrong { line, kind } => Status::BadText {
            file: None,
            line,
            kind: TextKind::Line(kind),
        },
        LinesError::TooMuch { line } => Status::BadText {
            file: None,
            line,
            kind: TextKind::TooMuch,
        },
        LinesError::InputFault => Status::ReadFault { of: Device::Input },
    }
}
