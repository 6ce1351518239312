ghost use Rattle.std.specs.{Prelude.{◌≡◌, ◌≤◌, ◌∷◌, [], length, take, None, IfOk, OnOk, OnErr}, List.{AllByRecursion}, Option.{ForSome}};
ghost use Rattle.diy_io.specs.Shelf.{Idle};
ghost use Rattle.tests_to_files.specs.{GivenCycles.{PutUpTo}, Putting.{FailsAt, PutFiles}};
ghost use Rattle.lines_to_files.specs.{GivenTests.{tests_of}, TestFiles.{files_from, file_in, refusal_in}, TextLines.{lines_by}};
ghost use Rattle.lines_to_files.specs.{Judged.{making_of, IsFit}, PutLines.{PutsLine, FailsLine}};

use crate::making::make_test;
use crate::names::Name;
use crate::reading::{LineSpace, read_test};
use crate::text_lines::{LastLine, next_line};
use crate::wanted::Wanted;
use arch_trait::Arch;
use diy_io::{Failed, MAX_FOLDER, Page, Shelf};
use edge_algebra::Cycle;
use edges_from_text::EdgeList;
use litmus_text::{KeptTable, Test};
use tests_to_files::{Path, file_named, put_text, set_path};

/// What is needed to write the tests of lines, one after another: space for reading a line, the path of a file, what is kept of a
/// test's table, and the page that the test is printed to. What these held doesn't matter.
#[derive(Drop)]
struct Desk {
    space: LineSpace,
    path: Path,
    table: KeptTable,
    page: Page,
}

/// Writes the files of the tests of the first lines of a text on the shelf. Each test is made in `test`.
#[inline(never)]
pub(crate) fn put_lines<A: Arch, H: Shelf>(
    wanted: &Wanted,
    last: LastLine,
    lines: usize,
    text: &[u8],
    test: &mut Test,
    shelf: &mut H,
) -> Result<(), Failed>
    requires fit { AllByRecursion (IsFit (making_of A.puts A.writing wanted.now)) (take lines (lines_by last text.now)) }
    requires folder { ForSome wanted.now.folder (λ folder. length folder.now ≤ MAX_FOLDER) }
    requires idle { (H.seen shelf.old).mode ≡ Idle }
    ensures ok { OnOk result (PutFiles (H.seen shelf.old) (H.seen shelf.new) (files_from (making_of A.puts A.writing wanted.now) 0 (tests_of A.puts.name (take lines (lines_by last text.now))))) }
    ensures failed { OnErr result (PutUpTo (H.seen shelf.old) (H.seen shelf.new) (files_from (making_of A.puts A.writing wanted.now) 0 (tests_of A.puts.name (take lines (lines_by last text.now))))) }
{
    let mut desk = Desk {
        space: LineSpace {
            edges: EdgeList::new(),
            cycle: None,
            name: Name::new(),
        },
        path: Path::new(),
        table: KeptTable::new(),
        page: Page::new(),
    };
    let mut left = lines;
    let mut number: u128 = 0;
    let mut rest = text;
    while left > 0 {
        let Some((line, later)) = next_line(last, rest) else {
            return Ok(());
        };
        number = put_line::<A, H>(wanted, line, number, test, &mut desk, shelf)?;
        left -= 1;
        rest = later;
    }
    Ok(())
}

/// Writes the file of the test of a line on the shelf, if the line gives one, and returns the number of the next test.
fn put_line<A: Arch, H: Shelf>(
    wanted: &Wanted,
    line: &[u8],
    number: u128,
    test: &mut Test,
    desk: &mut Desk,
    shelf: &mut H,
) -> Result<u128, Failed>
    requires fit { IsFit (making_of A.puts A.writing wanted.now) line.now }
    requires folder { ForSome wanted.now.folder (λ folder. length folder.now ≤ MAX_FOLDER) }
    requires idle { (H.seen shelf.old).mode ≡ Idle }
    ensures ok { IfOk result (λ next. PutsLine (making_of A.puts A.writing wanted.now) (H.seen shelf.old) (H.seen shelf.new) line.now number next) }
    ensures failed { OnErr result (FailsLine (making_of A.puts A.writing wanted.now) (H.seen shelf.old) (H.seen shelf.new) line.now number) }
{
    match read_test(A::NAME, line, &mut desk.space) {
        Ok(Some(cycle)) => {
            put_test::<A, H>(wanted, &cycle, number, test, desk, shelf)?;
            Ok(number.saturating_add(1))
        }
        Ok(None) => Ok(number),
        Err(_) => unreachable!(),
    }
}

/// Writes the file of the test of a cycle on the shelf, under the name that was read. The test is made in `test`.
fn put_test<A: Arch, H: Shelf>(
    wanted: &Wanted,
    cycle: &Cycle,
    number: u128,
    test: &mut Test,
    desk: &mut Desk,
    shelf: &mut H,
) -> Result<(), Failed>
    requires accepted { refusal_in A.puts wanted.now.form cycle.now ≡ None }
    requires folder { ForSome wanted.now.folder (λ folder. length folder.now ≤ MAX_FOLDER) }
    requires idle { (H.seen shelf.old).mode ≡ Idle }
    ensures ok { OnOk result (PutFiles (H.seen shelf.old) (H.seen shelf.new) (file_in (making_of A.puts A.writing wanted.now) (number, record { name = desk.old.space.name.bytes; cycle = cycle.now }) ∷ [])) }
    ensures failed { OnErr result (FailsAt (H.seen shelf.old) (H.seen shelf.new) (file_in (making_of A.puts A.writing wanted.now) (number, record { name = desk.old.space.name.bytes; cycle = cycle.now }))) }
{
    make_test::<A>(wanted.form, cycle, test, &mut desk.table);
    let file = file_named(number, desk.space.name.as_str());
    set_path(wanted.folder, file.as_str(), &mut desk.path);
    put_text::<A, H>(
        desk.path.as_str(),
        desk.space.name.as_str(),
        test,
        &desk.table,
        &mut desk.page,
        shelf,
    )
}
