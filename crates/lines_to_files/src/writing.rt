ghost use Rattle.std.specs.{Prelude.{◌≡◌, ◌≤◌, length}, Option.{ForSome}};
ghost use Rattle.diy_io.specs.Shelf.{Idle};
ghost use Rattle.tests_to_files.specs.{ListedFiles.{all_path}, Plans.{folder_in}};
ghost use Rattle.lines_to_files.specs.{LineTestEnds.{EndsLineTests, EndNamesLocation}, TestFiles.{making_in}, Stops.{last_line_of, stop_of, EndsNames}};

use crate::ending::LineTestsEnd;
use crate::form::{TestForm, WrongTest};
use crate::judging::judge_lines;
use crate::putting::put_lines;
use crate::source_text::{SourceEnd, read_text};
use crate::text_lines::{LastLine, unended};
use crate::wanted::Wanted;
use arch_trait::{Arch, Places, ThreadCodes};
use arrayvec::ArrayVec;
use cycles_from_lines::{LineKind, MAX_CYCLE_LINE};
use diy_io::{Failed, MAX_FOLDER, NoMemory, Shelf, Sink, Source};
use final_cond::Cond;
use litmus_text::Test;
use std::alloc::Global;
use tests_to_files::{ListingEnd, Path, put_file, set_path, write_count};
use text_parts::without_return;

/// Writes a file for the test of each line of a source, in their order, then the file `@all` that names them, and then a line on
/// their number to `out`.
///
/// Lines are those that `norm_lines` reads with `LineForm::Edges`: a line of only blanks gives no test. The test of any other is that
/// of the normal form of its cycle, in the given form. Its name is the label of the line, which comes before the first colon,
/// without blanks at its ends; without a label it is the name of the cycle. Files and `@all` are called as `list_tests` calls them,
/// with the tests numbered from 0.
///
/// The source is read to its end, and all lines are judged, before the first file is written, so `NoMemory` leaves the shelf as
/// it was. `Wrong` gives the first line that has an error, whose label is no name of a test, whose test has the name of an earlier
/// one, or whose cycle has no test; `TooMuch` and `InputFault` come if all lines that ended before are right. After each of these
/// the files of the lines before are complete, and there is no `@all`.
///
/// `ShelfFault` comes only if the shelf's error count rose or is at its maximum. Then the files before one are complete, that one
/// is as it was or has a prefix of its text, no other file changed, and nothing is written to `out`. `OutFault` comes only if the
/// error count of `out` rose or is at its maximum. Then all files are complete, and `out` has a prefix of the line. The shelf has
/// no open file before and after.
pub fn write_line_tests<A: Arch, I: Source, H: Shelf, O: Sink>(
    alloc: Global,
    form: TestForm,
    folder: Option<&str>,
    input: &mut I,
    shelf: &mut H,
    out: &mut O,
) -> LineTestsEnd
    requires folder { ForSome folder (λ folder. length folder.now ≤ MAX_FOLDER) }
    requires idle { (H.seen shelf.old).mode ≡ Idle }
    ensures ends { EndsLineTests (making_in A.puts A.writing form folder.entry) result (I.seen input.old) (I.seen input.new) (H.seen shelf.old) (H.seen shelf.new) (O.seen out.old) (O.seen out.new) }
    ensures located { EndNamesLocation result }
{
    let mut text = Vec::new(alloc);
    let end = match read_text(input, &mut text) {
        Ok(end) => end,
        Err(NoMemory) => return LineTestsEnd::NoMemory,
    };
    // It is written out here, and not made by a call of `Test::new`, as in `put_cycles`.
    let mut test = Test {
        edges: ArrayVec::new(),
        places: Places::new(),
        threads: ThreadCodes::new(),
        cond: Cond::default(),
    };
    let wanted = Wanted { form, folder };
    let last = last_line(end);
    let bytes = text.as_slice();
    let judged = match judge_lines::<A>(alloc, &wanted, last, bytes, &mut test) {
        Ok(judged) => judged,
        Err(NoMemory) => return LineTestsEnd::NoMemory,
    };
    match put_lines::<A, H>(&wanted, last, judged.lines, bytes, &mut test, shelf) {
        Ok(()) => {}
        Err(Failed) => return LineTestsEnd::ShelfFault,
    }
    let line = judged.lines as u64 + 1;
    match judged.wrong {
        Some(kind) => return LineTestsEnd::Wrong { line, kind },
        None => {}
    }
    match stop_of(end, bytes, line) {
        Some(stop) => return stop,
        None => {}
    }
    match write_names(folder, judged.names.as_slice(), judged.count, shelf, out) {
        ListingEnd::Done => LineTestsEnd::Done,
        ListingEnd::ShelfFault => LineTestsEnd::ShelfFault,
        ListingEnd::OutFault => LineTestsEnd::OutFault,
    }
}

/// Whether what comes after the last line feed is a line, once the reading of a source ended so.
fn last_line(end: SourceEnd) -> LastLine
    ensures { result ≡ last_line_of end }
{
    match end {
        SourceEnd::AtEnd => LastLine::Counts,
        SourceEnd::TooMuch | SourceEnd::Fault => LastLine::Unread,
    }
}

/// How the writing of the tests of a text's lines ends, which are right, if the source wasn't read to its end. The line is the one
/// after the last line feed.
fn stop_of(end: SourceEnd, text: &[u8], line: u64) -> Option<LineTestsEnd>
    ensures { result ≡ stop_of end text.now line }
{
    let stop = match end {
        SourceEnd::AtEnd => return None,
        SourceEnd::TooMuch => LineTestsEnd::TooMuch { line },
        SourceEnd::Fault => LineTestsEnd::InputFault,
    };
    if without_return(unended(text)).len() > MAX_CYCLE_LINE {
        return Some(LineTestsEnd::Wrong {
            line,
            kind: WrongTest::Line(LineKind::LineTooLong),
        });
    }
    Some(stop)
}

/// Writes the file that names the files of tests on the shelf, and then the line on their number.
fn write_names<H: Shelf, O: Sink>(
    folder: Option<&str>,
    names: &[u8],
    count: u128,
    shelf: &mut H,
    out: &mut O,
) -> ListingEnd
    requires folder { ForSome folder (λ folder. length folder.now ≤ MAX_FOLDER) }
    requires idle { (H.seen shelf.old).mode ≡ Idle }
    ensures { EndsNames (all_path (folder_in folder.entry)) names.now count result (H.seen shelf.old) (H.seen shelf.new) (O.seen out.old) (O.seen out.new) }
{
    let mut path = Path::new();
    set_path(folder, "@all", &mut path);
    match put_file(path.as_str(), names, shelf) {
        Ok(()) => {}
        Err(Failed) => return ListingEnd::ShelfFault,
    }
    match write_count(count, out) {
        Ok(()) => ListingEnd::Done,
        Err(Failed) => ListingEnd::OutFault,
    }
}
